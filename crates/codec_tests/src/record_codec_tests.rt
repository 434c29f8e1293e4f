use crate::fixtures::{DEVICE, bytes, current, items, new_device, put_old_record, session};
use RecordVersion::{V1, V2};
use devices::{Activation, Channels, Device, ItemQueue, MacQueue, Tag, UplinkCount};
use lw_types::{JoinNonce, Refusal, read_hex};
use record_codec::{NEWEST, RecordVersion, read_device, read_device_v1, write_device};
use std::alloc::Global;

// The record of a device that was just provisioned: 50 bytes in version 1, and all 58 in version 2.
const PROVISIONED: [u8; 58] = [
    0x11, 0x12, 0x13, 0x14, 0x15, 0x16, 0x17, 0x18, // DevEUI
    1, 2, 3, 4, 5, 6, 7, 8, // JoinEUI
    0x2B, 0x7E, 0x15, 0x16, 0x28, 0xAE, 0xD2, 0xA6, 0xAB, 0xF7, 0x15, 0x88, 0x09, 0xCF, 0x4F, 0x3C,
    3, 0, 1, // application, RX1DROffset, delay
    0, 0, 0, // no DevNonce
    0, 0, 0, // nothing granted
    0, 0, // no session
    0, 0, 0, 0, 0, // no tag awaited
    0, 0, // empty queues
    0, 0, 0, 0, 0, 0, 0, 0, // no uplink
];

// Both sessions, the second one pending, of eight channels.
fn both_sessions() -> Option<Activation> {
    let current = current(0x01_0203, u32::MAX)?;
    let pending = session(0x01_0204, Channels::Eight)?;
    Activation::new(JoinNonce::new(0x01_0204), Some(current), Some(pending))
}

// What a device has in addition to what it was provisioned with.
enum Has {
    /// A pending session.
    Pending,
    /// Both sessions, a tag awaited, a DevNonce of 0, the MAC commands of a text and this number of
    /// bytes 06 after them, and this number of items of this length.
    All(&'static str, usize, u32, usize),
}

fn device(alloc: Global, has: &Has) -> Option<Device> {
    match has {
        Has::Pending => {
            let pending = session(1, Channels::Three)?;
            let activation = Activation::new(JoinNonce::new(1), None, Some(pending))?;
            let mut device = new_device(alloc, DEVICE)?;
            device.activation = activation;
            Some(device)
        }
        Has::All(hex, filled, count, len) => {
            full_device(alloc, bytes(alloc, hex, 0x06, *filled)?, *count, *len)
        }
    }
}

fn full_device(alloc: Global, commands: Vec<u8>, count: u32, len: usize) -> Option<Device> {
    let activation = both_sessions()?;
    let items = items(alloc, count, len)?;
    match (MacQueue::new(commands), ItemQueue::new(items)) {
        (Ok(mac_queue), Ok(items)) => {
            let mut device = new_device(alloc, DEVICE)?;
            device.last_dev_nonce = Some(0);
            device.activation = activation;
            device.awaited = Some(Tag(0));
            device.mac_queue = mac_queue;
            device.items = items;
            Some(device)
        }
        _ => None,
    }
}

fn read(alloc: Global, version: RecordVersion, record: &[u8]) -> Result<Device, Refusal> {
    match version {
        V1 => read_device_v1(alloc, record),
        V2 => read_device(alloc, record),
    }
}

fn is_read(alloc: Global, version: RecordVersion, record: &[u8], device: &Device) -> bool {
    match read(alloc, version, record) {
        Ok(found) => found == *device,
        Err(_) => false,
    }
}

// The bytes after the device's record is written after these bytes.
fn written(
    alloc: Global,
    version: RecordVersion,
    front: &[u8],
    device: &Device,
) -> Option<Vec<u8>> {
    let Ok(mut out) = Vec::from_slice(alloc, front) else {
        return None;
    };
    let answer = match version {
        V1 => put_old_record(device, &mut out),
        V2 => write_device(device, &mut out),
    };
    match answer {
        Ok(()) => Some(out),
        Err(_) => None,
    }
}

// The record of the device, which is read as the device, and also written after 9.
fn record_of(alloc: Global, version: RecordVersion, device: &Device) -> Option<Vec<u8>> {
    let out = written(alloc, version, &[], device)?;
    let behind = written(alloc, version, &[9], device)?;
    let is_behind = behind.as_slice().strip_prefix(&[9]) == Some(out.as_slice());
    if is_behind && is_read(alloc, version, &out, device) {
        Some(out)
    } else {
        None
    }
}

// Whether the record has these bytes in each version.
fn is_brought(alloc: Global) -> Option<bool> {
    let device = new_device(alloc, DEVICE)?;
    let first = record_of(alloc, V1, &device)?;
    let second = record_of(alloc, V2, &device)?;
    Some(first.as_slice() == &PROVISIONED[..50] && second.as_slice() == PROVISIONED.as_slice())
}

#[test]
fn a_new_device_has_50_or_58_bytes(rt: HostRuntime) {
    assert!(rt; is_brought(rt.alloc()) == Some(true));
}

// The number of bytes of the device's record in a version.
fn len_of(alloc: Global, version: RecordVersion, has: &Has) -> Option<usize> {
    let device = device(alloc, has)?;
    Some(record_of(alloc, version, &device)?.len())
}

// A pending session takes 35 bytes more; the last record of each version is its largest.
const LENGTHS: &[(RecordVersion, Has, usize)] = &[
    (V1, Has::Pending, 85),
    (V1, Has::All("060400", 0, 1, 2), 144),
    (V1, Has::All("", 64, 16, 242), 4180),
    (V2, Has::Pending, 93),
    (V2, Has::All("060400", 0, 1, 2), 152),
    (V2, Has::All("", 64, 16, 242), 4188),
    (V2, Has::All("", 128, 16, 242), 4252),
];

#[test]
fn devices_are_read_back(rt: HostRuntime) {
    for (version, has, wanted) in LENGTHS {
        let len = len_of(rt.alloc(), *version, has);
        assert!(rt; len == Some(*wanted), "{version:?} {wanted}");
    }
}

// Counts of uplinks, and the bytes at the end of the record of a new device with such a count.
const COUNTS: &[(u64, [u8; 8])] = &[
    (0, [0; 8]),
    (1, [0, 0, 0, 0, 0, 0, 0, 1]),
    (0x0102_0304_0506_0708, [1, 2, 3, 4, 5, 6, 7, 8]),
    (
        9_223_372_036_854_775_807,
        [0x7F, 0xFF, 0xFF, 0xFF, 0xFF, 0xFF, 0xFF, 0xFF],
    ),
];

// Whether the record of a new device with this count ends with these bytes, and is read back.
fn ends_with(alloc: Global, heard: u64, bytes: &[u8; 8]) -> Option<bool> {
    let mut device = new_device(alloc, DEVICE)?;
    device.heard = UplinkCount::new(heard)?;
    let record = record_of(alloc, V2, &device)?;
    Some(record.as_slice().strip_prefix(&PROVISIONED[..50]) == Some(bytes.as_slice()))
}

#[test]
fn uplinks_are_counted_at_the_end(rt: HostRuntime) {
    for (heard, bytes) in COUNTS {
        assert!(rt;
            ends_with(rt.alloc(), *heard, bytes) == Some(true),
            "{heard}"
        );
    }
}

// A byte, and the version that has it.
const VERSIONS: &[(u8, Option<RecordVersion>)] = &[
    (0, None),
    (1, Some(V1)),
    (2, Some(V2)),
    (3, None),
    (255, None),
];

#[test]
fn there_are_two_versions_and_the_second_is_written(rt: HostRuntime) {
    for (byte, version) in VERSIONS {
        assert!(rt; RecordVersion::of(*byte) == *version, "{byte}");
    }
    assert!(rt; (V1.byte(), V2.byte(), NEWEST.byte()) == (1, 2, 2));
}

// A place of a new device's record after which a 0 stands, another byte there, and the number of
// bytes that are read as a record of either version.
const FAULTS: &[(RecordVersion, usize, u8, usize, &str)] = &[
    (V1, 32, 16, 50, "application"),
    (V1, 33, 6, 50, "RX1DROffset"),
    (V1, 34, 0, 50, "delay"),
    (V1, 34, 16, 50, "delay"),
    (V1, 35, 2, 50, "flag of the DevNonce"),
    (V1, 37, 1, 50, "a DevNonce that is not there"),
    (V1, 41, 1, 50, "a current session that is cut short"),
    (V1, 41, 3, 50, "channels of the current session"),
    (V1, 42, 3, 50, "channels of the pending session"),
    (V1, 43, 3, 50, "flag of the tag"),
    (V1, 47, 1, 50, "a tag that is not there"),
    (V1, 48, 1, 50, "a MAC queue of no command"),
    (V1, 49, 1, 50, "an item that is cut short"),
    (V1, 50, 0, 51, "a byte more"),
    (V1, 50, 0, 58, "a record of version 2"),
    (V1, 50, 0, 49, "a byte less"),
    (V1, 50, 0, 0, "no byte"),
    (V2, 34, 16, 58, "delay in version 2"),
    (V2, 43, 3, 58, "flag of the tag in version 2"),
    (V2, 48, 1, 58, "a MAC queue of no command in version 2"),
    (V2, 49, 1, 58, "an item that is cut short in version 2"),
    (V2, 50, 0x80, 58, "a count of 2^63"),
    (V2, 50, 0xFF, 58, "a count above that"),
    (V2, 58, 0, 59, "a byte more in version 2"),
    (V2, 57, 0, 57, "a byte less in version 2"),
    (V2, 50, 0, 50, "a record of version 1"),
    (V2, 50, 0, 0, "no byte in version 2"),
];

// The refusal of such bytes.
fn refused(
    alloc: Global,
    version: RecordVersion,
    place: usize,
    byte: u8,
    len: usize,
) -> Option<Refusal> {
    let mut bytes = [0; 59];
    bytes[..58].copy_from_slice(&PROVISIONED);
    *bytes.get_mut(place)? = byte;
    read(alloc, version, bytes.get(..len)?).err()
}

#[test]
fn a_field_out_of_range_or_another_length_is_damaged(rt: HostRuntime) {
    for (version, place, byte, len, fault) in FAULTS {
        let refused = refused(rt.alloc(), *version, *place, *byte, *len);
        assert!(rt; refused == Some(Refusal::Damaged), "{fault}");
    }
}

// The refusal of a new device's record in which this number of commands 06 wait, if it is refused.
fn queue_refused(alloc: Global, version: RecordVersion, waiting: u8) -> Option<Refusal> {
    let mut record = PROVISIONED[..48].to_vec(alloc).ok()?;
    record.push(waiting).ok()?;
    let len = record.len().saturating_add(usize::from(waiting));
    record.resize(len, 6).ok()?;
    match version {
        V1 => record.extend_from_slice(&PROVISIONED[49..50]).ok()?,
        V2 => record.extend_from_slice(&PROVISIONED[49..]).ok()?,
    }
    read(alloc, version, record.as_slice()).err()
}

// The number of commands that wait, and whether a record of a version can have them.
const QUEUES: &[(RecordVersion, u8, bool)] = &[
    (V1, 1, true),
    (V1, 64, true),
    (V1, 65, false),
    (V1, 128, false),
    (V1, 255, false),
    (V2, 1, true),
    (V2, 65, true),
    (V2, 128, true),
    (V2, 129, false),
    (V2, 255, false),
];

#[test]
fn a_mac_queue_has_at_most_64_or_128_bytes(rt: HostRuntime) {
    for (version, waiting, has) in QUEUES {
        let wanted = if *has { None } else { Some(Refusal::Damaged) };
        assert!(rt;
            queue_refused(rt.alloc(), *version, *waiting) == wanted,
            "{version:?} {waiting}"
        );
    }
}

// The record of a device with a session in use and a pending one, as it was stored before devices
// had eight channels. The bytes before the sessions are 01.
const OF_AN_EARLIER_STORE: &str = concat!(
    "111213141516171801020304050607082B7E151628AED2A6ABF7158809CF4F3C030001000000010204010102",
    "03AAAAAAAAAAAAAAAAAAAAAAAAAAAAAAAABBBBBBBBBBBBBBBBBBBBBBBBBBBBBBBBFFFFFFFF00000001000000",
    "0001010204AAAAAAAAAAAAAAAAAAAAAAAAAAAAAAAABBBBBBBBBBBBBBBBBBBBBBBBBBBBBBBB00000000000000",
);

// The places of these bytes.
const CURRENT: usize = 41;

const PENDING: usize = 89;

// The channels of both sessions of the device that is read if these bytes stand at those places.
// Writing the device gives the same bytes.
fn channels_read(alloc: Global, current: u8, pending: u8) -> Option<(Channels, Channels)> {
    let mut record = read_hex(alloc, OF_AN_EARLIER_STORE).ok()?;
    *record.get_mut(CURRENT)? = current;
    *record.get_mut(PENDING)? = pending;
    let device = read_device_v1(alloc, record.as_slice()).ok()?;
    if written(alloc, V1, &[], &device)? != record {
        return None;
    }
    let in_use = device.activation.current()?.session;
    Some((in_use.channels, device.activation.pending()?.channels))
}

// What stands before each session, and what it means.
const CHANNELS: &[(u8, u8, Option<(Channels, Channels)>)] = &[
    (1, 1, Some((Channels::Three, Channels::Three))),
    (1, 2, Some((Channels::Three, Channels::Eight))),
    (2, 1, Some((Channels::Eight, Channels::Three))),
    (2, 2, Some((Channels::Eight, Channels::Eight))),
    (3, 2, None),
    (2, 3, None),
    (255, 2, None),
];

#[test]
fn the_byte_in_front_of_a_session_tells_its_channels(rt: HostRuntime) {
    for (current, pending, channels) in CHANNELS {
        let read = channels_read(rt.alloc(), *current, *pending);
        assert!(rt; read == *channels, "{current} {pending}");
    }
}
