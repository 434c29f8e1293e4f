// The devices that tests provision, and batches of their provisionings.
ghost use Rattle.std.specs.Prelude.{◌<◌, length};

use devices::{
    Application, Command, Device, Heard, Hearing, Hearings, Item, ItemQueue, Payload, Port,
    Provisioning, Rx1Offset, RxDelay, Tag,
};
use lw_types::{Eui, Key, NetId, PhyPayload, Reception, Refusal, read_hex};
use sessions::{Batch, Decision, Slots, Table};
use std::alloc::Global;

/// The network of these tests, 00002A.
pub fn net_id() -> Result<NetId, Refusal> {
    NetId::new(0x2A).ok_or(Refusal::Damaged)
}

/// This number of slots, from 1 to 4,096.
pub fn slots(slots: u64) -> Result<Slots, Refusal> {
    Slots::new(slots).ok_or(Refusal::Damaged)
}

/// A table of network 00002A without devices.
pub fn new_table(alloc: Global, most: u64) -> Result<Table, Refusal> {
    Table::new(alloc, net_id()?, slots(most)?)
}

/// The DevEUI of the device that joins.
pub const JOINER: u64 = 0x1112_1314_1516_1718;

/// Its key, the example key of FIPS 197.
pub const JOINER_KEY: Key = Key([
    0x2B, 0x7E, 0x15, 0x16, 0x28, 0xAE, 0xD2, 0xA6, 0xAB, 0xF7, 0x15, 0x88, 0x09, 0xCF, 0x4F, 0x3C,
]);

/// The command that provisions it.
pub fn joining() -> Result<Command, Refusal> {
    match provisioning(JOINER, JOINER_KEY) {
        Some(provisioning) => Ok(Command::Provision(provisioning)),
        None => Err(Refusal::Damaged),
    }
}

const HEARING: Hearing = Hearing {
    reception: Reception {
        gateway: Eui(0xB1),
        frequency: 868_100_000,
        data_rate: 5,
        snr: -20,
        rssi: -95,
    },
    stamp: 50_000,
};

/// The command of the frame with these hexadecimal digits, which one gateway heard.
pub fn heard(alloc: Global, digits: &str) -> Result<Command, Refusal> {
    heard_frame(alloc, read_hex(alloc, digits)?)
}

/// The same for a frame that it heard on this channel.
pub fn heard_on(alloc: Global, digits: &str, frequency: u32) -> Result<Command, Refusal> {
    let mut hearing = HEARING;
    hearing.reception.frequency = frequency;
    heard_as(alloc, read_hex(alloc, digits)?, hearing)
}

/// The command of a frame, which one gateway heard.
pub fn heard_frame(alloc: Global, frame: Vec<u8>) -> Result<Command, Refusal> {
    heard_as(alloc, frame, HEARING)
}

fn heard_as(alloc: Global, frame: Vec<u8>, hearing: Hearing) -> Result<Command, Refusal> {
    let hearings = Hearings::new(vec![in alloc; hearing; 1]?);
    match (PhyPayload::new(frame), hearings) {
        (Ok(phy_payload), Some(hearings)) => Ok(Command::Heard(Heard {
            phy_payload,
            hearings,
        })),
        _ => Err(Refusal::Malformed),
    }
}

// The key of the devices that don't join.
const PLAIN_KEY: Key = Key([0x2B; 16]);

fn provisioning(dev_eui: u64, app_key: Key) -> Option<Provisioning> {
    Some(Provisioning {
        application: Application::new(3)?,
        dev_eui: Eui(dev_eui),
        join_eui: Eui(0x0102_0304_0506_0708),
        app_key,
        rx1_offset: Rx1Offset::new(0)?,
        rx_delay: RxDelay::new(1)?,
    })
}

/// Provisionings of new devices, each decided on the table that those before it leave. The DevEUI
/// of a device is the number of its decision.
pub fn provisionings(alloc: Global, table: &Table, seq: u64, count: u64) -> Result<Batch, Refusal> {
    let mut batch = Batch::new(alloc)?;
    let mut table = table.copy()?;
    add_provisionings(alloc, &mut table, seq, &mut batch, count)?;
    Ok(batch)
}

/// The command that provisions a device with this DevEUI.
pub fn bringing(dev_eui: u64) -> Result<Command, Refusal> {
    match provisioning(dev_eui, PLAIN_KEY) {
        Some(provisioning) => Ok(Command::Provision(provisioning)),
        None => Err(Refusal::Damaged),
    }
}

fn add_provisionings(
    alloc: Global,
    table: &mut Table,
    seq: u64,
    batch: &mut Batch,
    count: u64,
) -> Result<(), Refusal> {
    for last in seq..seq.saturating_add(count) {
        if batch.len() >= Batch::MOST {
            return Err(Refusal::OutOfStep);
        }
        add(alloc, table, last, batch, bringing(last.saturating_add(1))?)?;
    }
    Ok(())
}

/// Decides a command on the table, under the number after `seq`, and adds the decision to the
/// batch, which is dropped if the table doesn't admit it.
pub fn add(
    alloc: Global,
    table: &mut Table,
    seq: u64,
    batch: &mut Batch,
    command: Command,
) -> Result<(), Refusal>
    requires { length batch.old < 64 }
{
    match table.decide(alloc, seq.saturating_add(1), command) {
        Ok(decision) => {
            let applied = apply(table, seq, &decision);
            batch.push(decision);
            applied
        }
        Err(refusal) => Err(refusal),
    }
}

/// Puts the record of a decision on the table, if that admits it.
pub fn apply(table: &mut Table, seq: u64, decision: &Decision) -> Result<(), Refusal> {
    if table.admits(seq, decision) {
        table.apply(decision)
    } else {
        Err(Refusal::OutOfStep)
    }
}

/// A device that was only provisioned.
pub fn idle_device(alloc: Global, dev_eui: u64) -> Result<Device, Refusal> {
    match provisioning(dev_eui, PLAIN_KEY) {
        Some(provisioning) => Ok(Device::provisioned(alloc, &provisioning)),
        None => Err(Refusal::Damaged),
    }
}

/// A device with a full queue, whose record has 4,042 bytes.
pub fn busy_device(alloc: Global, dev_eui: u64) -> Result<Device, Refusal> {
    let items = full_queue(alloc)?;
    let mut device = idle_device(alloc, dev_eui)?;
    device.items = items;
    Ok(device)
}

/// The device that joins, with a full queue, whose record has 4,042 bytes.
pub fn busy_joiner(alloc: Global) -> Result<Device, Refusal> {
    let items = full_queue(alloc)?;
    match provisioning(JOINER, JOINER_KEY) {
        Some(provisioning) => {
            let mut device = Device::provisioned(alloc, &provisioning);
            device.items = items;
            Ok(device)
        }
        None => Err(Refusal::Damaged),
    }
}

fn full_queue(alloc: Global) -> Result<ItemQueue, Refusal> {
    let mut items = Vec::new(alloc);
    for _ in 0..ItemQueue::MOST {
        items.push(item(alloc)?)?;
    }
    match ItemQueue::new(items) {
        Ok(queue) => Ok(queue),
        Err(_) => Err(Refusal::Damaged),
    }
}

fn item(alloc: Global) -> Result<Item, Refusal> {
    match (Port::new(7), Payload::new(vec![in alloc; 0xA5; 242]?)) {
        (Some(port), Ok(payload)) => Ok(Item {
            tag: Tag(0x01020304),
            port,
            confirmed: true,
            payload,
        }),
        _ => Err(Refusal::Damaged),
    }
}
