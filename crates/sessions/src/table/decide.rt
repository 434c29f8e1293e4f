// Deciding or refusing a command.
ghost use Rattle.std.specs.Prelude.{◌≡◌, IfOk, MatchResult, slice_get};
ghost use Rattle.lw_types.specs.declared.refusal.Refusal.TheVariants.{OutOfMemory};
ghost use Rattle.lw_types.specs.Answer.{Answers};
ghost use Rattle.devices.specs.declared.command.Command.{Command};
ghost use Rattle.sessions.specs.Step.{provisioned_effects};
ghost use Rattle.sessions.specs.Table.{new_slot, slot_of, step};
ghost use Rattle.sessions.specs.Decision.{AnswersTo, Decides, FitsTable, IsStepped};

use crate::{Decision, Table};
use devices::{Command, Device, Effect, Effects, Provisioning, Report};
use lw_types::Refusal;
use std::alloc::Global;

// What a command does in a table: the record that it leaves at a slot, and its effects.
#[derive(Drop)]
pub(crate) struct Stepped {
    pub slot: u16,
    pub after: Device,
    pub effects: Effects,
}

impl Table {
    /// Decides a command on this table, as the decision with this sequence number. If the command's
    /// step is refused, the refusal is returned whether or not memory is available. If memory runs
    /// out, `OutOfMemory` is returned; for a Join-Request this may also come in place of a refusal
    /// of the join server.
    pub fn decide(&self, alloc: Global, seq: u64, command: Command) -> Result<Decision, Refusal>
        ensures decides { Decides self.now seq command result }
        ensures fits { IfOk result (λ decision. FitsTable self.now decision) }
    {
        let Stepped {
            slot,
            after,
            effects,
        } = self.step(alloc, seq, &command)?;
        let before = self.record_at(slot)?;
        let _ = self.devices();
        self.devices_are_apart();
        Ok(Decision {
            net_id: self.net_id(),
            seq,
            slot,
            before,
            command,
            after,
            effects,
        })
    }

    /// Whether the command would be decided with this sequence number; nothing is decided. A
    /// refusal is returned as [`Table::decide`] returns it.
    pub fn check(&self, alloc: Global, seq: u64, command: &Command) -> Result<(), Refusal>
        ensures { AnswersTo command.now (step self.now command.now) (λ _ _. Unit {0}) result }
    {
        let _stepped = self.step(alloc, seq, command)?;
        Ok(())
    }

    // A copy of the record at a slot, if there is one.
    pub(crate) fn record_at(&self, slot: u16) -> Result<Option<Device>, Refusal>
        ensures { MatchResult result
            (λ found. found ≡ slice_get self.now.devices slot)
            (λ e. e ≡ OutOfMemory) }
    {
        match self.devices().get(slot as usize) {
            Some(device) => Ok(Some(device.copy()?)),
            None => Ok(None),
        }
    }

    // What the command does in this table.
    fn step(&self, alloc: Global, seq: u64, command: &Command) -> Result<Stepped, Refusal>
        ensures { AnswersTo command.now (step self.now command.now) IsStepped result }
    {
        match command {
            Command::Provision(provisioning) => self.provision(alloc, provisioning),
            Command::Heard(heard) => self.hear(alloc, seq, &heard.phy_payload, &heard.hearings),
            Command::Queue(queueing) => self.queue(alloc, queueing),
            Command::QueueMac(queueing) => self.queue_mac(alloc, queueing),
        }
    }

    // Provisions a device.
    fn provision(&self, alloc: Global, provisioning: &Provisioning) -> Result<Stepped, Refusal>
        ensures { Answers (step self.now (Command.Provision provisioning.now)) IsStepped result }
    {
        let slot = self.new_slot(provisioning)?;
        Ok(Stepped {
            slot,
            after: Device::provisioned(alloc, provisioning),
            effects: provisioned(alloc, slot, provisioning)?,
        })
    }

    // The slot of a new device: the next one.
    fn new_slot(&self, provisioning: &Provisioning) -> Result<u16, Refusal>
        ensures { result ≡ new_slot self.now (slot_of provisioning.now.dev_eui.0 self.now.devices) }
    {
        if self.slot_of(provisioning.dev_eui).is_some() {
            return Err(Refusal::DevEuiTaken);
        }
        let next = self.devices().len();
        if next as u64 >= self.slots().get() {
            return Err(Refusal::TableFull);
        }
        Ok(next as u16)
    }
}

// Reports the slot of a device to its application.
fn provisioned(alloc: Global, slot: u16, provisioning: &Provisioning) -> Result<Effects, Refusal>
    ensures { MatchResult result
        (λ effects. effects ≡ provisioned_effects slot provisioning.now)
        (λ e. e ≡ OutOfMemory) }
{
    let mut effects = Effects::empty(alloc);
    effects.push(Effect::Report {
        application: provisioning.application,
        dev_eui: provisioning.dev_eui,
        report: Report::Provisioned { slot },
    })?;
    Ok(effects)
}
