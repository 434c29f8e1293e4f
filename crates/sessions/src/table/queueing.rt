// Queueing an item, or MAC commands, for an application's device (TS001-1.0.4 §4.3.2, §5).
ghost use Rattle.std.specs.Prelude.{◌≡◌, ◌≤◌, ◌<◌, ◌+◌, MatchResult, length, true};
ghost use Rattle.lw_types.specs.Answer.{Answers};
ghost use Rattle.lw_types.specs.declared.refusal.Refusal.TheVariants.{OutOfMemory};
ghost use Rattle.devices.specs.MacQueue.{may_queue};
ghost use Rattle.devices.specs.DeviceStep.{IsDeviceStep, report_effects};
ghost use Rattle.devices.specs.declared.command.Command.{Command};
ghost use Rattle.sessions.specs.Queueing.{commands_queued, if_room, queue_at, queue_mac_at};
ghost use Rattle.sessions.specs.Table.{step};
ghost use Rattle.sessions.specs.Decision.{IsStepped};

use crate::Table;
use crate::table::decide::Stepped;
use devices::{
    Application, Device, Effect, Effects, Item, ItemQueue, MacQueue, MacQueueing, Payload, Port,
    Queueing, Report,
};
use lw_types::{LONGEST_PAYLOAD, Refusal};
use std::alloc::Global;

impl Table {
    // Queues an item.
    pub(crate) fn queue(&self, alloc: Global, queueing: &Queueing) -> Result<Stepped, Refusal>
        ensures { Answers (step self.now (Command.Queue queueing.now)) IsStepped result }
    {
        match self.device_of(queueing.dev_eui) {
            Some((slot, device)) => {
                let (after, effects) = queue_at(alloc, device, queueing)?;
                Ok(Stepped {
                    slot,
                    after,
                    effects,
                })
            }
            None => Err(Refusal::UnknownDevEui),
        }
    }

    // Queues MAC commands.
    pub(crate) fn queue_mac(
        &self,
        alloc: Global,
        queueing: &MacQueueing,
    ) -> Result<Stepped, Refusal>
        ensures { Answers (step self.now (Command.QueueMac queueing.now)) IsStepped result }
    {
        match self.device_of(queueing.dev_eui) {
            Some((slot, device)) => {
                let (after, effects) = queue_mac_at(alloc, device, queueing)?;
                Ok(Stepped {
                    slot,
                    after,
                    effects,
                })
            }
            None => Err(Refusal::UnknownDevEui),
        }
    }
}

// Queues an item for its device.
fn queue_at(
    alloc: Global,
    device: &Device,
    queueing: &Queueing,
) -> Result<(Device, Effects), Refusal>
    requires { queueing.now.dev_eui.0 ≡ device.now.dev_eui.0 }
    ensures { Answers (queue_at device.now queueing.now) IsDeviceStep result }
{
    if queueing.application != device.application {
        return Err(Refusal::UnknownDevEui);
    }
    if queueing.payload.len() > LONGEST_PAYLOAD {
        return Err(Refusal::TooLong);
    }
    match Port::new(u64::from(queueing.port)) {
        Some(port) => with_item(alloc, device, queueing, port),
        None => Err(Refusal::BadPort),
    }
}

// The device's record with one more item, if there is room for it.
fn with_item(
    alloc: Global,
    device: &Device,
    queueing: &Queueing,
    port: Port,
) -> Result<(Device, Effects), Refusal>
    requires port { port ≡ queueing.now.port }
    requires short { length queueing.now.payload ≤ LONGEST_PAYLOAD }
    ensures { Answers (if_room device.now queueing.now) IsDeviceStep result }
{
    if device.items.as_slice().len() >= ItemQueue::MOST {
        return Err(Refusal::QueueFull);
    }
    let item = Item {
        tag: queueing.tag,
        port,
        confirmed: queueing.confirmed,
        payload: Payload::from_slice(alloc, queueing.payload.as_slice())?,
    };
    let effects = report_alone(alloc, device, Report::Queued { tag: queueing.tag })?;
    let mut after = device.copy()?;
    after.items.push(item)?;
    Ok((after, effects))
}

// Queues MAC commands for their device.
fn queue_mac_at(
    alloc: Global,
    device: &Device,
    queueing: &MacQueueing,
) -> Result<(Device, Effects), Refusal>
    requires { queueing.now.dev_eui.0 ≡ device.now.dev_eui.0 }
    ensures { Answers (queue_mac_at device.now queueing.now) IsDeviceStep result }
{
    let commands = queueing.commands.as_slice();
    if queueing.application != device.application {
        return Err(Refusal::UnknownDevEui);
    }
    if !MacQueue::takes(commands) {
        return Err(Refusal::BadMac);
    }
    let waiting = device.mac_queue.as_slice().len();
    if commands.len() > MacQueue::MOST - waiting {
        return Err(Refusal::MacQueueFull);
    }
    with_commands(alloc, device, commands)
}

// The device's record with more MAC commands.
fn with_commands(
    alloc: Global,
    device: &Device,
    commands: &[u8],
) -> Result<(Device, Effects), Refusal>
    requires whole { may_queue commands.now ≡ true }
    requires room { length device.now.mac_queue + length commands.now ≤ MacQueue.MOST }
    ensures { MatchResult result
        (IsDeviceStep (commands_queued device.now commands.now))
        (λ e. e ≡ OutOfMemory) }
{
    let report = Report::MacQueued {
        commands: Payload::from_slice(alloc, commands)?,
    };
    let effects = report_alone(alloc, device, report)?;
    let mut after = device.copy()?;
    after.mac_queue.append(commands)?;
    Ok((after, effects))
}

// The report to the device's application.
fn report_alone(alloc: Global, device: &Device, report: Report) -> Result<Effects, Refusal>
    ensures { MatchResult result (λ effects. effects ≡ report_effects device.now report)
        (λ e. e ≡ OutOfMemory) }
{
    let mut effects = Effects::empty(alloc);
    effects.push(Effect::Report {
        application: device.application,
        dev_eui: device.dev_eui,
        report,
    })?;
    Ok(effects)
}
