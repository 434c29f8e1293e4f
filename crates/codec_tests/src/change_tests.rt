// Changes of records.
ghost use Rattle.std.specs.Prelude.{◌≡◌, IfSome, OnSome};
ghost use Rattle.devices.specs.Becoming.{AreItemsAfter, AreProvisionedAlike, IsHeardAfter};
ghost use Rattle.devices.specs.Becoming.{MayBecome};

use crate::fixtures::{self, DEVICE, items, new_device, session};
use Items::{Added, AddedLong, Leaves, Same};
use RecordVersion::{V1, V2};
use devices::{
    Activation, Channels, CurrentSession, Device, Item, ItemQueue, MacQueue, NextDown, Payload,
    Port, Tag, UplinkCount,
};
use lw_types::{JoinNonce, Refusal, read_hex, write_hex};
use record_codec::{
    LONGEST_CHANGE, RecordVersion, read_change, read_change_v1, write_change, write_change_v1,
};
use std::alloc::Global;

// What a record has in addition to its items and what its device was provisioned with.
pub(crate) struct Numbers {
    dev_nonce: Option<u16>,
    granted: u32,
    /// A JoinNonce, the last uplink counter and the next downlink counter.
    current: Option<(u32, u32, u64)>,
    /// Of the current session.
    channels: Channels,
    pending: Option<u32>,
    pending_channels: Channels,
    awaited: Option<u32>,
    /// The number of MAC commands that wait.
    commands: usize,
}

pub(crate) const NEW: Numbers = Numbers {
    dev_nonce: None,
    granted: 0,
    current: None,
    channels: Channels::Three,
    pending: None,
    pending_channels: Channels::Three,
    awaited: None,
    commands: 0,
};

pub(crate) const IN_USE: Numbers = Numbers {
    dev_nonce: Some(7),
    granted: 2,
    current: Some((2, 5, 3)),
    ..NEW
};

const UPLINK: Numbers = Numbers {
    current: Some((2, 6, 3)),
    ..IN_USE
};

const EARLIER_UPLINK: Numbers = Numbers {
    current: Some((2, 4, 3)),
    ..IN_USE
};

const LAST_DOWNLINK: Numbers = Numbers {
    current: Some((2, 5, 1 << 32)),
    ..IN_USE
};

const JOINED: Numbers = Numbers {
    dev_nonce: Some(5),
    granted: 1,
    pending: Some(1),
    ..NEW
};

const FIRST_UPLINK: Numbers = Numbers {
    dev_nonce: Some(5),
    granted: 1,
    current: Some((1, 0, 0)),
    ..NEW
};

// With all eight channels.
pub(crate) const IN_USE_ON_EIGHT: Numbers = Numbers {
    channels: Channels::Eight,
    ..IN_USE
};

const UPLINK_ON_EIGHT: Numbers = Numbers {
    channels: Channels::Eight,
    ..UPLINK
};

const JOINED_ON_EIGHT: Numbers = Numbers {
    pending_channels: Channels::Eight,
    ..JOINED
};

const FIRST_UPLINK_ON_EIGHT: Numbers = Numbers {
    channels: Channels::Eight,
    ..FIRST_UPLINK
};

pub(crate) const PENDING_ON_EIGHT: Numbers = Numbers {
    pending_channels: Channels::Eight,
    ..PENDING
};

const OTHER_NONCE: Numbers = Numbers {
    dev_nonce: Some(8),
    ..IN_USE
};

const NO_NONCE: Numbers = Numbers {
    dev_nonce: None,
    ..IN_USE
};

pub(crate) const GRANTED: Numbers = Numbers {
    granted: 3,
    ..IN_USE
};

const NO_SESSION: Numbers = Numbers {
    current: None,
    ..IN_USE
};

const PENDING: Numbers = Numbers {
    granted: 3,
    pending: Some(3),
    ..IN_USE
};

const AWAITED: Numbers = Numbers {
    awaited: Some(0),
    ..IN_USE
};

const COMMANDED: Numbers = Numbers {
    commands: 1,
    ..IN_USE
};

const OTHER_SESSION: Numbers = Numbers {
    granted: 3,
    current: Some((3, 5, 3)),
    ..IN_USE
};

const PENDING_GONE: Numbers = Numbers {
    granted: 3,
    current: Some((2, 6, 3)),
    ..IN_USE
};

const PENDING_LOST: Numbers = Numbers {
    granted: 3,
    awaited: Some(1),
    ..IN_USE
};

const AWAITED_COMMANDED: Numbers = Numbers {
    awaited: Some(1),
    commands: 1,
    ..IN_USE
};

const DOWNLINK: Numbers = Numbers {
    current: Some((2, 6, 4)),
    awaited: Some(0),
    ..IN_USE
};

const ALL: Numbers = Numbers {
    dev_nonce: Some(8),
    granted: 4,
    current: Some((3, 6, 4)),
    pending: Some(4),
    awaited: Some(1),
    commands: 1,
    ..IN_USE
};

pub(crate) const AWAITED_1: Numbers = Numbers {
    awaited: Some(1),
    ..IN_USE
};

// What happens to the items.
enum Items {
    Same,
    Leaves,
    /// The item with tag 9, on port 7, unconfirmed, of the byte AA.
    Added,
    /// An item of 242 bytes.
    AddedLong,
}

fn item(alloc: Global) -> Option<Item> {
    let port = Port::new(7)?;
    let bytes = [0xAA].to_vec(alloc).ok()?;
    match Payload::new(bytes) {
        Ok(payload) => Some(Item {
            tag: Tag(9),
            port,
            confirmed: false,
            payload,
        }),
        Err(_) => None,
    }
}

fn activation(numbers: &Numbers) -> Option<Activation> {
    let in_use = match numbers.current {
        None => None,
        Some((number, last_up, next_down)) => Some(CurrentSession {
            session: session(number, numbers.channels)?,
            last_up,
            next_down: NextDown::new(next_down)?,
        }),
    };
    let pending = match numbers.pending {
        None => None,
        Some(number) => Some(session(number, numbers.pending_channels)?),
    };
    Activation::new(JoinNonce::new(numbers.granted), in_use, pending)
}

// This number of commands DevStatusReq.
fn commands(alloc: Global, count: usize) -> Option<MacQueue> {
    match vec![in alloc; 6u8; count] {
        Ok(bytes) => MacQueue::new(bytes).ok(),
        Err(_) => None,
    }
}

// The record with other numbers.
fn with_numbers(alloc: Global, device: Device, numbers: &Numbers) -> Option<Device>
    ensures { IfSome result
        (λ after. AreProvisionedAlike device after × (after.items ≡ device.items)
        × (after.heard ≡ device.heard)) }
{
    let mut after = device;
    after.last_dev_nonce = numbers.dev_nonce;
    after.activation = activation(numbers)?;
    after.awaited = match numbers.awaited {
        None => None,
        Some(number) => Some(Tag(number)),
    };
    after.mac_queue = commands(alloc, numbers.commands)?;
    Some(after)
}

// A record in which this number of items wait.
pub(crate) fn found(alloc: Global, numbers: &Numbers, waiting: u32) -> Option<Device> {
    let mut device = with_numbers(alloc, new_device(alloc, DEVICE)?, numbers)?;
    device.items = ItemQueue::new(items(alloc, waiting, 1)?).ok()?;
    Some(device)
}

fn add(queue: &mut ItemQueue, item: Item) -> Option<()>
    ensures { OnSome result (AreItemsAfter queue.old queue.new) }
{
    if queue.as_slice().len() < ItemQueue::MOST {
        queue.push(item).ok()
    } else {
        None
    }
}

fn change_items(alloc: Global, queue: &mut ItemQueue, items: &Items) -> Option<()>
    ensures { OnSome result (AreItemsAfter queue.old queue.new) }
{
    match items {
        Same => Some(()),
        Leaves => {
            let _first = queue.pop_first();
            Some(())
        }
        Added => add(queue, item(alloc)?),
        AddedLong => add(queue, fixtures::item(alloc, 9, 242)?),
    }
}

// One more uplink is counted, if the count isn't at its end.
fn count(heard: &mut UplinkCount) -> Option<()>
    ensures { OnSome result (IsHeardAfter heard.old heard.new) }
{
    let more = heard.get() + 1;
    *heard = UplinkCount::new(more)?;
    Some(())
}

// The record with other numbers and items.
fn with_change(alloc: Global, before: &Device, after: &Numbers, items: &Items) -> Option<Device>
    ensures { IfSome result (λ after. MayBecome before.now after) }
{
    let Ok(copy) = before.copy() else {
        return None;
    };
    let mut device = with_numbers(alloc, copy, after)?;
    change_items(alloc, &mut device.items, items)?;
    Some(device)
}

// The record with other numbers, and one more uplink.
fn with_one_more(alloc: Global, before: &Device, after: &Numbers) -> Option<Device>
    ensures { IfSome result (λ after. MayBecome before.now after) }
{
    let Ok(copy) = before.copy() else {
        return None;
    };
    let mut device = with_numbers(alloc, copy, after)?;
    count(&mut device.heard)?;
    Some(device)
}

// The bytes of these words, each once or, for example in AA*16, this number of times.
pub(crate) fn spelled(alloc: Global, words: &str) -> Option<Vec<u8>> {
    let mut bytes = Vec::new(alloc);
    for word in words.split(' ') {
        let (hex, count) = word.split_once('*').unwrap_or((word, "1"));
        let field = read_hex(alloc, hex).ok()?;
        let count: u32 = count.parse().ok()?;
        for _ in 0..count {
            bytes.extend_from_slice(field.as_slice()).ok()?;
        }
    }
    Some(bytes)
}

// A record with this number of items, the numbers and the items after it, and the bytes of the
// change.
type Step = (Numbers, u32, Numbers, Items, &'static str);

const STEPS: &[Step] = &[
    (IN_USE, 0, IN_USE, Same, "00"),
    (IN_USE, 0, UPLINK, Same, "04 00000006 0000000000000003"),
    (
        IN_USE,
        0,
        EARLIER_UPLINK,
        Same,
        "04 00000004 0000000000000003",
    ),
    (
        IN_USE,
        0,
        LAST_DOWNLINK,
        Same,
        "04 00000005 0000000100000000",
    ),
    (NEW, 0, NEW, Added, "40 01 00000009 07 00 01 AA"),
    (NEW, 15, NEW, Added, "40 01 00000009 07 00 01 AA"),
    (
        NEW,
        0,
        JOINED,
        Same,
        "09 01 0005 000001 01 000001 AA*16 BB*16",
    ),
    (
        JOINED,
        0,
        FIRST_UPLINK,
        Same,
        "0A 01 000001 AA*16 BB*16 00000000 0000000000000000 00",
    ),
    (
        NEW,
        0,
        JOINED_ON_EIGHT,
        Same,
        "09 01 0005 000001 02 000001 AA*16 BB*16",
    ),
    (
        JOINED_ON_EIGHT,
        0,
        FIRST_UPLINK_ON_EIGHT,
        Same,
        "0A 02 000001 AA*16 BB*16 00000000 0000000000000000 00",
    ),
    (
        IN_USE_ON_EIGHT,
        0,
        UPLINK_ON_EIGHT,
        Same,
        "04 00000006 0000000000000003",
    ),
    // other channels are another session
    (
        IN_USE,
        0,
        IN_USE_ON_EIGHT,
        Same,
        "02 02 000002 AA*16 BB*16 00000005 0000000000000003",
    ),
    (
        IN_USE_ON_EIGHT,
        0,
        IN_USE,
        Same,
        "02 01 000002 AA*16 BB*16 00000005 0000000000000003",
    ),
    (
        PENDING,
        0,
        PENDING_ON_EIGHT,
        Same,
        "08 02 000003 AA*16 BB*16",
    ),
    (IN_USE, 0, OTHER_NONCE, Same, "01 01 0008 000002"),
    (IN_USE, 0, NO_NONCE, Same, "01 00 0000 000002"),
    (IN_USE, 0, GRANTED, Same, "01 01 0007 000003"),
    (IN_USE, 0, NO_SESSION, Same, "02 00"),
    (GRANTED, 0, PENDING, Same, "08 01 000003 AA*16 BB*16"),
    (IN_USE, 0, AWAITED, Same, "10 01 00000000"),
    (AWAITED, 0, IN_USE, Same, "10 00 00000000"),
    (IN_USE, 0, COMMANDED, Same, "20 01 06"),
    (COMMANDED, 0, IN_USE, Same, "20 00"),
    (IN_USE, 2, IN_USE, Leaves, "40 00"),
    (IN_USE, 16, IN_USE, Leaves, "40 00"),
    (
        IN_USE,
        0,
        OTHER_SESSION,
        Same,
        "03 01 0007 000003 01 000003 AA*16 BB*16 00000005 0000000000000003",
    ),
    (
        PENDING,
        0,
        PENDING_GONE,
        Same,
        "0C 00000006 0000000000000003 00",
    ),
    (PENDING, 0, PENDING_LOST, Same, "18 00 01 00000001"),
    (IN_USE, 0, AWAITED_COMMANDED, Same, "30 01 00000001 01 06"),
    (COMMANDED, 1, IN_USE, Leaves, "60 00 00"),
    (
        IN_USE,
        1,
        DOWNLINK,
        Leaves,
        "54 00000006 0000000000000004 01 00000000 00",
    ),
    (
        IN_USE,
        0,
        ALL,
        Added,
        "7B 01 0008 000004 01 000003 AA*16 BB*16 00000006 0000000000000004 \
         01 000004 AA*16 BB*16 01 00000001 01 06 01 00000009 07 00 01 AA",
    ),
];

// Appends the change in version 1, if that expresses the whole record.
fn put_old_change(before: &Device, after: &Device, out: &mut Vec<u8>) -> Result<(), Refusal>
    requires { MayBecome before.now after.now }
{
    if after.heard.get() == 0 && after.mac_queue.as_slice().len() <= 64 {
        write_change_v1(before, after, out)
    } else {
        Err(Refusal::Damaged)
    }
}

fn put_change(
    version: RecordVersion,
    before: &Device,
    after: &Device,
    out: &mut Vec<u8>,
) -> Result<(), Refusal>
    requires { MayBecome before.now after.now }
{
    match version {
        V1 => put_old_change(before, after, out),
        V2 => write_change(before, after, out),
    }
}

fn read(
    alloc: Global,
    version: RecordVersion,
    before: &Device,
    bytes: &[u8],
) -> Result<Device, Refusal> {
    match version {
        V1 => read_change_v1(alloc, before, bytes),
        V2 => read_change(alloc, before, bytes),
    }
}

// The bytes of the change, which is written after 9 and read back.
fn change_of(
    alloc: Global,
    version: RecordVersion,
    before: &Device,
    after: &Device,
) -> Option<Vec<u8>>
    requires { MayBecome before.now after.now }
{
    let mut out = [9].to_vec(alloc).ok()?;
    put_change(version, before, after, &mut out).ok()?;
    let bytes = out.as_slice().strip_prefix(&[9])?;
    if read(alloc, version, before, bytes).ok()? == *after {
        bytes.to_vec(alloc).ok()
    } else {
        None
    }
}

// The bytes of the change, which are the same in both versions.
fn change(alloc: Global, step: &Step) -> Option<Vec<u8>> {
    let (numbers, waiting, others, items, _) = step;
    let before = found(alloc, numbers, *waiting)?;
    let after = with_change(alloc, &before, others, items)?;
    let first = change_of(alloc, V1, &before, &after)?;
    let second = change_of(alloc, V2, &before, &after)?;
    if first == second { Some(second) } else { None }
}

// What is wrong in the table, one line for each row.
fn wrong_steps(alloc: Global) -> Result<String, Refusal> {
    let mut wrong = String::new(alloc);
    for (number, step) in STEPS.iter().enumerate() {
        let wanted = spelled(alloc, step.4).ok_or(Refusal::Damaged)?;
        let got = change(alloc, step).unwrap_or(Vec::new(alloc));
        if got != wanted {
            let (words, got) = (step.4, write_hex(alloc, &got)?);
            let line = format!(in alloc;
                "\nchange_tests.rt STEPS {number}: wanted {words}, got {got}"
            )?;
            wrong.push_str(&line)?;
        }
    }
    Ok(wrong)
}

#[test]
fn a_change_is_what_differs(rt: HostRuntime) {
    let wrong = wrong_steps(rt.alloc()).expect(&rt, "memory");
    assert!(rt; wrong.is_empty(), "{wrong}");
}

// Uplinks that are counted: a record with this count, the numbers after it, and the bytes of the
// change to those and one more uplink.
const COUNTED: &[(Numbers, u64, Numbers, &str)] = &[
    (IN_USE, 0, IN_USE, "80"),
    (IN_USE, 0, UPLINK, "84 00000006 0000000000000003"),
    (
        JOINED,
        4_294_967_296,
        FIRST_UPLINK,
        "8A 01 000001 AA*16 BB*16 00000000 0000000000000000 00",
    ),
    (
        IN_USE,
        9_223_372_036_854_775_806,
        UPLINK,
        "84 00000006 0000000000000003",
    ),
];

// Whether the change to these numbers and one more uplink has these bytes.
fn is_counted(alloc: Global, row: &(Numbers, u64, Numbers, &str)) -> Option<bool> {
    let (numbers, heard, others, words) = row;
    let mut before = found(alloc, numbers, 0)?;
    before.heard = UplinkCount::new(*heard)?;
    let after = with_one_more(alloc, &before, others)?;
    Some(change_of(alloc, V2, &before, &after)? == spelled(alloc, words)?)
}

#[test]
fn a_count_that_grows_is_bit_7(rt: HostRuntime) {
    for row in COUNTED {
        assert!(rt; is_counted(rt.alloc(), row) == Some(true), "{}", row.1);
    }
}

// A count at its end, which stays there: the change of an uplink, in version 2.
fn stays(alloc: Global) -> Option<bool> {
    let mut before = found(alloc, &IN_USE, 0)?;
    before.heard = UplinkCount::new(END)?;
    let after = with_change(alloc, &before, &UPLINK, &Same)?;
    let wanted = spelled(alloc, "04 00000006 0000000000000003")?;
    Some(change_of(alloc, V2, &before, &after)? == wanted)
}

#[test]
fn a_count_stays_at_its_end(rt: HostRuntime) {
    assert!(rt; stays(rt.alloc()) == Some(true));
}

const LONGEST_OF_1: Numbers = Numbers {
    commands: 64,
    ..ALL
};

const LONGEST_OF_2: Numbers = Numbers {
    commands: 128,
    ..ALL
};

// The length of the change to these numbers and an item of 242 bytes.
fn len_of(alloc: Global, version: RecordVersion, after: &Numbers) -> Option<usize> {
    let before = found(alloc, &IN_USE, 0)?;
    let after = with_change(alloc, &before, after, &AddedLong)?;
    Some(change_of(alloc, version, &before, &after)?.len())
}

#[test]
fn a_change_has_at_most_411_or_475_bytes(rt: HostRuntime) {
    assert!(rt; LONGEST_CHANGE == 475);
    assert!(rt; len_of(rt.alloc(), V1, &LONGEST_OF_1) == Some(411));
    assert!(rt; len_of(rt.alloc(), V2, &LONGEST_OF_1) == Some(411));
    assert!(rt; len_of(rt.alloc(), V2, &LONGEST_OF_2) == Some(475));
}

// The end of a count.
pub(crate) const END: u64 = 9_223_372_036_854_775_807;

// A record with this count, bytes of a change of it in a version, and the count after it or the
// refusal.
const READ: &[(RecordVersion, u64, &str, Result<u64, Refusal>)] = &[
    (V1, 0, "80", Err(Refusal::Damaged)),
    (V1, 5, "80", Err(Refusal::Damaged)),
    (V2, 0, "80", Ok(1)),
    (V2, END - 1, "80", Ok(END)),
    (V2, END, "80", Err(Refusal::Damaged)),
    (V2, END, "00", Ok(END)),
    (V1, 0, "20 40 06*64", Ok(0)),
    (V1, 0, "20 41 06*65", Err(Refusal::Damaged)),
    (V1, 0, "20 80 06*128", Err(Refusal::Damaged)),
    (V2, 0, "20 41 06*65", Ok(0)),
    (V2, 0, "20 80 06*128", Ok(0)),
    (V2, 0, "20 81 06*129", Err(Refusal::Damaged)),
];

// The count after a change of such a record.
fn count_after(
    alloc: Global,
    version: RecordVersion,
    heard: u64,
    words: &str,
) -> Option<Result<u64, Refusal>> {
    let mut before = found(alloc, &IN_USE, 0)?;
    before.heard = UplinkCount::new(heard)?;
    let bytes = spelled(alloc, words)?;
    match read(alloc, version, &before, bytes.as_slice()) {
        Ok(after) => Some(Ok(after.heard.get())),
        Err(refusal) => Some(Err(refusal)),
    }
}

#[test]
fn each_version_has_its_counts_and_queues(rt: HostRuntime) {
    for (version, heard, words, wanted) in READ {
        let after = count_after(rt.alloc(), *version, *heard, words);
        assert!(rt; after == Some(*wanted), "{version:?} {heard} {words}");
    }
}
