// Values that several tests use.
use devices::{
    Application, Channels, CurrentSession, Device, Downlink, Item, NextDown, Payload, Port,
    Provisioning, ReceiveWindows, Rx1Offset, RxDelay, Session, SessionName, Tag,
};
use lw_types::{Eui, JoinNonce, Key, PhyPayload, read_hex, write_hex};
use std::alloc::Global;

pub const DEVICE: Eui = Eui(0x1112_1314_1516_1718);

pub const GATEWAY: Eui = Eui(0xB1);

pub const JOIN_EUI: Eui = Eui(0x0102_0304_0506_0708);

// The example key of FIPS 197.
pub const KEY: Key = Key([
    0x2B, 0x7E, 0x15, 0x16, 0x28, 0xAE, 0xD2, 0xA6, 0xAB, 0xF7, 0x15, 0x88, 0x09, 0xCF, 0x4F, 0x3C,
]);

// A device of application 3, with RX1 after a second.
pub fn provisioning(dev_eui: Eui) -> Option<Provisioning> {
    Some(Provisioning {
        application: Application::new(3)?,
        dev_eui,
        join_eui: JOIN_EUI,
        app_key: KEY,
        rx1_offset: Rx1Offset::new(0)?,
        rx_delay: RxDelay::new(1)?,
    })
}

pub fn new_device(alloc: Global, dev_eui: Eui) -> Option<Device> {
    Some(Device::provisioned(alloc, &provisioning(dev_eui)?))
}

pub fn name(number: u32) -> Option<SessionName> {
    Some(SessionName {
        dev_eui: DEVICE,
        join_nonce: JoinNonce::new(number)?,
    })
}

pub fn session(number: u32, channels: Channels) -> Option<Session> {
    Some(Session {
        join_nonce: JoinNonce::new(number)?,
        nwk_skey: Key([0xAA; 16]),
        app_skey: Key([0xBB; 16]),
        channels,
    })
}

// A session of three channels whose last downlink counter was used.
pub fn current(number: u32, last_up: u32) -> Option<CurrentSession> {
    Some(CurrentSession {
        session: session(number, Channels::Three)?,
        last_up,
        next_down: NextDown::new(1 << 32)?,
    })
}

// An item of this number of bytes.
pub fn item(alloc: Global, tag: u32, len: usize) -> Option<Item> {
    let port = Port::new(223)?;
    let Ok(bytes) = vec![in alloc; 0xA5; len] else {
        return None;
    };
    match Payload::new(bytes) {
        Ok(payload) => Some(Item {
            tag: Tag(tag),
            port,
            confirmed: true,
            payload,
        }),
        Err(_) => None,
    }
}

// A downlink of no bytes, five seconds later.
pub fn empty_downlink(alloc: Global) -> Option<Downlink> {
    let delay = RxDelay::new(5)?;
    Some(Downlink {
        gateway: GATEWAY,
        stamp: 1,
        frequency: 868_500_000,
        data_rate: 2,
        delay,
        receive_windows: ReceiveWindows::Rx1OrRx2,
        frame: PhyPayload::empty(alloc),
    })
}

// This number of items of this length, with tags from 0 on.
pub fn items(alloc: Global, count: u32, len: usize) -> Option<Vec<Item>> {
    let mut items = Vec::new(alloc);
    for tag in 0..count {
        if items.push(item(alloc, tag, len)?).is_err() {
            return None;
        }
    }
    Some(items)
}

// Whether bytes have this text as hex.
pub fn has_hex(alloc: Global, bytes: &[u8], text: &str) -> bool {
    match write_hex(alloc, bytes) {
        Ok(hex) => hex.as_str() == text,
        Err(_) => false,
    }
}

// The bytes of a text, followed by this number of one byte.
pub fn bytes(alloc: Global, hex: &str, filling: u8, count: usize) -> Option<Vec<u8>> {
    let Ok(mut bytes) = read_hex(alloc, hex) else {
        return None;
    };
    let len = bytes.len().saturating_add(count);
    match bytes.resize(len, filling) {
        Ok(()) => Some(bytes),
        Err(_) => None,
    }
}
