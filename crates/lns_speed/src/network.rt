// A network whose table is full, and the frames of its devices.
ghost use Rattle.std.specs.Prelude.{◌≤◌, length};

use crate::decided::Workload;
use devices::{
    Activation, Application, Channels, CurrentSession, Device, Heard, Hearing, Hearings, Item,
    ItemQueue, NextDown, Payload, Port, Provisioning, Rx1Offset, RxDelay, Session, Tag, dev_addr,
};
use frame_crypt::{data_mic, derive_keys, join_mic};
use lw_types::{Direction, Eui, FrameCopy, JoinNonce, Key, NetId, PhyPayload, Reception, Refusal};
use sessions::{Slots, Table};
use std::alloc::Global;

const APP_KEY: Key = Key([0x2B; 16]);

const NWK_SKEY: Key = Key([0x2C; 16]);

const JOIN_EUI: Eui = Eui(0x0102_0304_0506_0708);

/// The DevEUI of the device at slot 0. Those of the other devices follow it.
const FIRST_DEV_EUI: u64 = 0x1112_1314_1516_0000;

/// How the only gateway in reach hears a frame.
const HEARING: Hearing = Hearing {
    reception: Reception {
        gateway: Eui(0x2122_2324_2526_2728),
        frequency: 868_100_000,
        data_rate: 5,
        snr: 28,
        rssi: -90,
    },
    stamp: 0,
};

fn dev_eui(slot: u16) -> Eui {
    Eui(FIRST_DEV_EUI + u64::from(slot))
}

/// Provisions the device at a slot.
pub fn provisioning(slot: u16) -> Provisioning {
    Provisioning {
        application: Application::new(0).unwrap(),
        dev_eui: dev_eui(slot),
        join_eui: JOIN_EUI,
        app_key: APP_KEY,
        rx1_offset: Rx1Offset::new(0).unwrap(),
        rx_delay: RxDelay::new(1).unwrap(),
    }
}

/// A table of this number of slots with a device in each.
pub fn full_table(alloc: Global, slots: u16) -> Result<Table, Refusal> {
    let size = Slots::new(u64::from(slots)).ok_or(Refusal::Damaged)?;
    let mut table = Table::new(alloc, NetId::zero(), size)?;
    for slot in 0..slots {
        table.put(slot, Device::provisioned(alloc, &provisioning(slot)))?;
    }
    Ok(table)
}

/// The record of the device at a slot before events of this kind.
pub fn record(alloc: Global, workload: Workload, slot: u16) -> Result<Device, Refusal> {
    let mut device = Device::provisioned(alloc, &provisioning(slot));
    if let Workload::Uplink { items, .. } = workload {
        put_in_use(alloc, items, &mut device)?;
    }
    Ok(device)
}

// The device has a session that had its uplink 0, and this number of items wait for it.
fn put_in_use(alloc: Global, items: u32, device: &mut Device) -> Result<(), Refusal> {
    device.items = waiting(alloc, items)?;
    device.activation = in_use().ok_or(Refusal::Damaged)?;
    Ok(())
}

// One session, which had its uplink 0.
fn in_use() -> Option<Activation> {
    let first = JoinNonce::new(1)?;
    let current = CurrentSession {
        session: Session {
            join_nonce: first,
            nwk_skey: NWK_SKEY,
            app_skey: APP_KEY,
            channels: Channels::Eight,
        },
        last_up: 0,
        next_down: NextDown::new(0)?,
    };
    Activation::new(Some(first), Some(current), None)
}

// This number of unconfirmed items of 24 bytes.
fn waiting(alloc: Global, count: u32) -> Result<ItemQueue, Refusal> {
    let mut items = Vec::new(alloc);
    for tag in 0..count {
        items.push(Item {
            tag: Tag(tag),
            port: Port::new(1).unwrap(),
            confirmed: false,
            payload: Payload::from_slice(alloc, &[0; 24])?,
        })?;
    }
    ItemQueue::new(items).ok().ok_or(Refusal::QueueFull)
}

/// The frame of this number of the device at a slot, as the gateway heard it. An uplink has the
/// counter after the number.
pub fn heard(alloc: Global, workload: Workload, slot: u16, number: u16) -> Result<Heard, Refusal> {
    let hearings = Hearings::of(alloc, HEARING)?;
    let phy_payload = match workload {
        Workload::Join => PhyPayload::from_slice(alloc, &join_request(slot, number)),
        Workload::Uplink { mhdr, .. } => {
            let counter = u32::from(number) + 1;
            PhyPayload::from_slice(alloc, &uplink(mhdr, slot, counter, &NWK_SKEY))
        }
    };
    Ok(Heard {
        phy_payload: phy_payload?,
        hearings,
    })
}

/// A Join-Request with this DevNonce (TS001-1.0.4 §6.2.5).
pub fn join_request(slot: u16, dev_nonce: u16) -> [u8; 23] {
    let mut frame = [0; 23];
    frame[1..9].copy_from_slice(&JOIN_EUI.0.to_le_bytes());
    frame[9..17].copy_from_slice(&dev_eui(slot).0.to_le_bytes());
    frame[17..19].copy_from_slice(&dev_nonce.to_le_bytes());
    let mic = join_mic(&APP_KEY, &frame[..19]);
    frame[19..].copy_from_slice(&mic);
    frame
}

/// The NwkSKey of a device that joined with the first JoinNonce and DevNonce 0.
pub fn joined_key() -> Key {
    derive_keys(&APP_KEY, JoinNonce::new(1).unwrap(), NetId::zero(), 0).0
}

/// A data frame of this MHDR on port 1 with 24 bytes (TS001-1.0.4 §4.3).
pub fn uplink(mhdr: u8, slot: u16, counter: u32, key: &Key) -> [u8; 37] {
    let addr = dev_addr(NetId::zero(), slot, 1);
    let mut frame = [0; 37];
    frame[0] = mhdr;
    frame[1..5].copy_from_slice(&addr.0.to_le_bytes());
    frame[6..8].copy_from_slice(&counter.to_le_bytes()[..2]);
    frame[8] = 1;
    let mic = data_mic(key, Direction::Up, addr, counter, &frame[..33]);
    frame[33..].copy_from_slice(&mic);
    frame
}

/// A copy of a frame by the gateway of this number.
pub fn copy_of(alloc: Global, frame: &[u8], gateway: u64) -> Result<FrameCopy, Refusal>
    requires { length frame.now ≤ 255 }
{
    let mut reception = HEARING.reception;
    reception.gateway = Eui(gateway);
    Ok(FrameCopy {
        reception,
        stamp: 0,
        phy_payload: PhyPayload::from_slice(alloc, frame)?,
    })
}
