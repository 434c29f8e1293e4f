// Calls that keep nothing: each is made again if it was refused, and its answer then has to be
// right.
use crate::attempt::Attempt;
use backend_json::answer_text;
use devices::{Application, Device, Provisioning, Rx1Offset, RxDelay};
use join_server::JoinState;
use lw_types::{Eui, JoinNonce, Key, Refusal, read_hex};
use phy_payload::{Phy, decode, encode};
use record_codec::{read_change, read_device};
use std::alloc::Global;

// The key, the question with its frame, and the answers are those of the tests of `answer_text`;
// frame and keys were made by Python's `cryptography`.
const KEY: Key = Key(*b"\x2B\x7E\x15\x16\x28\xAE\xD2\xA6\xAB\xF7\x15\x88\x09\xCF\x4F\x3C");

const DEVICE: Eui = Eui(0x1112_1314_1516_1718);

const SERVER: Eui = Eui(0x0102_0304_0506_0708);

const QUESTION: &str = concat!(
    r#"{"CFList":"184F84E85684B85E84886684586E8400","DLSettings":"00","DevAddr":"54000001","#,
    r#""DevEUI":"1112131415161718","MACVersion":"1.0.4","MessageType":"JoinReq","#,
    r#""PHYPayload":"000807060504030201181716151413121101009E7419CE","ProtocolVersion":"1.0","#,
    r#""ReceiverID":"0102030405060708","RxDelay":1,"SenderID":"00002A","TransactionID":2}"#,
);

const GRANTED: &str = concat!(
    r#"{"AppSKey":{"AESKey":"65A2E3FC3F681266CA0F9088A6AD5FE4"},"MessageType":"JoinAns","#,
    r#""NwkSKey":{"AESKey":"38F19F1F7C923B7B392DFDBECE201B6B"},"#,
    r#""PHYPayload":"20964FABE971240AB8E37F72AEFDC360B6FD3C4BE3FB883149AF03F6CC89235E53","#,
    r#""ProtocolVersion":"1.0","ReceiverID":"00002A","Result":{"Description":"","#,
    r#""ResultCode":"Success"},"SenderID":"0102030405060708","TransactionID":2}"#,
);

const UNKNOWN_DEVICE: &str = concat!(
    r#"{"MessageType":"JoinAns","ProtocolVersion":"1.0","ReceiverID":"00002A","#,
    r#""Result":{"Description":"unknown device","ResultCode":"UnknownDevEUI"},"#,
    r#""SenderID":"0102030405060708","TransactionID":2}"#,
);

fn is_answered(alloc: Global, device: Eui, answer: &str) -> Result<bool, Refusal> {
    let state = JoinState {
        dev_eui: device,
        join_eui: SERVER,
        app_key: KEY,
        dev_nonce: None,
        join_nonce: None,
    };
    let (text, after) = answer_text(alloc, &state, QUESTION)?;
    Ok(text.as_str() == answer && after.is_some() == (device == DEVICE))
}

fn answered(alloc: Global, device: Eui, answer: &str) -> Attempt {
    match is_answered(alloc, device, answer) {
        Ok(is_due) => Attempt::at_once(is_due),
        Err(_) => Attempt::again(true, &is_answered(alloc, device, answer)),
    }
}

/// A question that is granted is answered.
pub fn granted(alloc: Global) -> Attempt {
    answered(alloc, DEVICE, GRANTED)
}

/// A question about another device is answered.
pub fn refused(alloc: Global) -> Attempt {
    answered(alloc, Eui(1), UNKNOWN_DEVICE)
}

// The length of the longest frame: an unconfirmed uplink on port 1, whose payload has 242 bytes and
// is the rest, with its MIC.
const LONGEST: usize = 255;

fn longest(alloc: Global) -> Result<Vec<u8>, Refusal> {
    let mut bytes = read_hex(alloc, "40F17DBE490000A501")?;
    bytes.resize(LONGEST, 0x5A)?;
    Ok(bytes)
}

// Whether the bytes are written after another one, or nothing is if memory runs out.
fn is_written(alloc: Global, frame: &Phy, bytes: &[u8]) -> Result<bool, Refusal> {
    let mut out = read_hex(alloc, "07")?;
    match encode(alloc, frame, &mut out) {
        Ok(()) => Ok(out.as_slice().strip_prefix(&[7]) == Some(bytes)),
        Err(refusal) if out.as_slice() == [7].as_slice() => Err(refusal),
        Err(_) => Ok(false),
    }
}

/// The longest frame is written.
pub fn written(alloc: Global) -> Result<Attempt, Refusal> {
    let bytes = longest(alloc)?;
    let frame = decode(alloc, &bytes)?;
    Ok(match is_written(alloc, &frame, &bytes) {
        Ok(is_due) => Attempt::at_once(is_due),
        Err(_) => Attempt::again(true, &is_written(alloc, &frame, &bytes)),
    })
}

// A record up to its sessions: a device of application 3 with the DevNonce 2, and JoinNonces up to
// 2.
const FRONT: &str = concat!(
    "11121314151617180102030405060708",
    "2B7E151628AED2A6ABF7158809CF4F3C",
    "03000101",
    "0002000002",
);

// Two sessions, under JoinNonce 1 with its counters, and under 2.
const CURRENT: &str = concat!(
    "02000001",
    "AAAAAAAAAAAAAAAAAAAAAAAAAAAAAAAA",
    "BBBBBBBBBBBBBBBBBBBBBBBBBBBBBBBB",
    "000000050000000000000003",
);

const PENDING: &str = concat!(
    "02000002",
    "CCCCCCCCCCCCCCCCCCCCCCCCCCCCCCCC",
    "DDDDDDDDDDDDDDDDDDDDDDDDDDDDDDDD",
);

// A tag that is awaited, and 128 commands.
const AWAITED: &str = "0100000009";

const COMMANDS: usize = 128;

// An item for port 7, unconfirmed, and its longest payload.
const ITEM: &str = "000000090700F2";

const PAYLOAD: usize = 242;

const ITEMS: usize = 16;

// Appends the bytes of a text, and this number of bytes of this value.
fn add(
    alloc: Global,
    bytes: &mut Vec<u8>,
    hex: &str,
    filling: u8,
    count: usize,
) -> Result<(), Refusal> {
    let mut more = read_hex(alloc, hex)?;
    bytes.append(&mut more)?;
    let len = bytes.len().saturating_add(count);
    bytes.resize(len, filling)?;
    Ok(())
}

// The largest record: both sessions, a tag, 128 commands, and 16 of the longest items.
fn largest_record(alloc: Global) -> Result<Vec<u8>, Refusal> {
    let mut bytes = Vec::new(alloc);
    add(alloc, &mut bytes, FRONT, 0, 0)?;
    add(alloc, &mut bytes, CURRENT, 0, 0)?;
    add(alloc, &mut bytes, PENDING, 0, 0)?;
    add(alloc, &mut bytes, AWAITED, 0, 0)?;
    add(alloc, &mut bytes, "80", 0x06, COMMANDS)?;
    add(alloc, &mut bytes, "10", 0, 0)?;
    for _ in 0..ITEMS {
        add(alloc, &mut bytes, ITEM, 0xEE, PAYLOAD)?;
    }
    // no uplink is counted
    add(alloc, &mut bytes, "", 0x00, 8)?;
    Ok(bytes)
}

// The largest change of the record of a device that was just provisioned: both nonces, both
// sessions, a tag, 128 commands, an item that is added, and one more uplink that is counted.
fn largest_change(alloc: Global) -> Result<Vec<u8>, Refusal> {
    let mut bytes = Vec::new(alloc);
    add(alloc, &mut bytes, "FB010002000002", 0, 0)?;
    add(alloc, &mut bytes, CURRENT, 0, 0)?;
    add(alloc, &mut bytes, PENDING, 0, 0)?;
    add(alloc, &mut bytes, AWAITED, 0, 0)?;
    add(alloc, &mut bytes, "80", 0x06, COMMANDS)?;
    add(alloc, &mut bytes, "01", 0, 0)?;
    add(alloc, &mut bytes, ITEM, 0xEE, PAYLOAD)?;
    Ok(bytes)
}

// Whether a device has all of these, with this number of items.
fn has_all(device: &Device, items: usize) -> bool {
    let (waiting, commands) = (device.items.as_slice(), device.mac_queue.as_slice());
    let is_filled = match waiting.last() {
        Some(item) => item.payload.as_slice() == [0xEE; PAYLOAD].as_slice(),
        None => false,
    };
    device.dev_eui == DEVICE
        && device.last_dev_nonce == Some(2)
        && device.activation.granted() == JoinNonce::new(2)
        && is_filled
        && waiting.len() == items
        && commands == [0x06; COMMANDS].as_slice()
}

fn is_record(alloc: Global, bytes: &[u8]) -> Result<bool, Refusal> {
    Ok(has_all(&read_device(alloc, bytes)?, ITEMS))
}

/// The largest record is read.
pub fn record(alloc: Global) -> Result<Attempt, Refusal> {
    let bytes = largest_record(alloc)?;
    Ok(match is_record(alloc, &bytes) {
        Ok(is_due) => Attempt::at_once(is_due),
        Err(_) => Attempt::again(true, &is_record(alloc, &bytes)),
    })
}

fn provisioned(alloc: Global) -> Option<Device> {
    Some(Device::provisioned(
        alloc,
        &Provisioning {
            application: Application::new(3)?,
            dev_eui: DEVICE,
            join_eui: SERVER,
            app_key: KEY,
            rx1_offset: Rx1Offset::new(0)?,
            rx_delay: RxDelay::new(1)?,
        },
    ))
}

fn is_change(alloc: Global, before: &Device, bytes: &[u8]) -> Result<bool, Refusal> {
    Ok(has_all(&read_change(alloc, before, bytes)?, 1))
}

/// The largest change is read.
pub fn change(alloc: Global) -> Result<Attempt, Refusal> {
    let bytes = largest_change(alloc)?;
    let before = provisioned(alloc).ok_or(Refusal::Damaged)?;
    Ok(match is_change(alloc, &before, &bytes) {
        Ok(is_due) => Attempt::at_once(is_due),
        Err(_) => Attempt::again(true, &is_change(alloc, &before, &bytes)),
    })
}
