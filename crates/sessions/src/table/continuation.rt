// Decisions on a table: whether they continue it, and the table after them.
ghost use Rattle.std.specs.Prelude.{◌≡◌, ◌<◌, ◌↔◌, IsTrue, MatchResult};
ghost use Rattle.std.specs.Option.{option_copied};
ghost use Rattle.lw_types.specs.declared.refusal.Refusal.TheVariants.{OutOfMemory};
ghost use Rattle.sessions.specs.Table.{TakesNext};
ghost use Rattle.sessions.specs.Decision.{FitsTable, HasPlace, Continues, with_decision};

use crate::{Decision, Table};
use devices::Device;
use lw_types::Refusal;

impl Table {
    /// Whether the decision was made of this table and has the sequence number after `seq`. A
    /// caller of [`Table::apply`] has to know that a decision from elsewhere was made of this
    /// table. A core applies only its own, so only tests call this. The cost doesn't grow with the
    /// number of devices.
    pub fn admits(&self, seq: u64, decision: &Decision) -> bool
        ensures { IsTrue result ↔ Continues self.now seq decision.now }
    {
        seq < decision.seq && decision.seq - seq == 1 && self.fits(decision)
    }

    // Whether the decision was made of this table.
    fn fits(&self, decision: &Decision) -> bool
        ensures { IsTrue result ↔ FitsTable self.now decision.now }
    {
        self.has_slot(decision)
            && is_record(&decision.before, self.devices().get(decision.slot as usize))
            && self.has_room_for(decision)
    }

    // Whether the decision is of this network, at one of its slots.
    pub(crate) fn has_slot(&self, decision: &Decision) -> bool
        ensures { IsTrue result ↔ ((decision.now.net_id ≡ self.now.net_id)
            × (decision.now.slot < self.now.slots)) }
    {
        self.net_id() == decision.net_id && u64::from(decision.slot) < self.slots().get()
    }

    // Whether the record that the decision leaves has its place in this table.
    fn has_room_for(&self, decision: &Decision) -> bool
        ensures { IsTrue result ↔ HasPlace self.now decision.now.slot decision.now.after
            decision.now.before }
    {
        match &decision.before {
            Some(device) => self.slot_of(device.dev_eui) == Some(decision.slot),
            None => self.takes_next(decision.slot, &decision.after),
        }
    }

    // Whether a new device with this record may have this slot.
    fn takes_next(&self, slot: u16, device: &Device) -> bool
        ensures { IsTrue result ↔ TakesNext self.now slot device.now }
    {
        slot as usize == self.devices().len()
            && u64::from(slot) < self.slots().get()
            && self.slot_of(device.dev_eui).is_none()
    }

    /// Puts the record of a decision that was made of this table into its slot. After an `Err`,
    /// which is out of memory, the table is unchanged.
    pub fn apply(&mut self, decision: &Decision) -> Result<(), Refusal>
        requires { FitsTable self.old decision.now }
        ensures { MatchResult result
            (λ _. self.new ≡ with_decision self.old decision.now)
            (λ e. (e ≡ OutOfMemory) × (self.new ≡ self.old)) }
    {
        let after = decision.after.copy()?;
        self.apply_copy(decision, after);
        Ok(())
    }

    /// Puts this copy of the record of a decision that was made of this table into its slot. Takes
    /// no memory.
    pub fn apply_copy(&mut self, decision: &Decision, after: Device)
        requires fits { FitsTable self.old decision.now }
        requires copy { after ≡ decision.now.after }
        ensures { self.new ≡ with_decision self.old decision.now }
    {
        self.set_device(decision.slot, after);
    }
}

// Whether a slot has exactly this record, or is empty if there is none.
pub(crate) fn is_record(before: &Option<Device>, found: Option<&Device>) -> bool
    ensures { IsTrue result ↔ (before.now ≡ option_copied found.entry) }
{
    match (before, found) {
        (Some(device), Some(other)) => device.same_as(other),
        (None, None) => true,
        (Some(_), None) => false,
        (None, Some(_)) => false,
    }
}
