// Bytes that aren't a change of a record.
use crate::change_tests::{
    AWAITED_1, END, GRANTED, IN_USE, IN_USE_ON_EIGHT, NEW, Numbers, PENDING_ON_EIGHT, found,
    spelled,
};
use devices::UplinkCount;
use lw_types::Refusal;
use record_codec::{read_change, read_change_v1};
use std::alloc::Global;

// A record with this number of items, and bytes that aren't a change of it in either version. The
// count of uplinks is at its end, so bit 7 isn't allowed in version 2 either.
type Fault = (Numbers, u32, &'static str, &'static str);

const FAULTS: &[Fault] = &[
    (IN_USE, 0, "", "no byte"),
    (IN_USE, 0, "80", "bit 7"),
    (
        IN_USE,
        0,
        "84 00000006 0000000000000003",
        "bit 7 and counters",
    ),
    (IN_USE, 0, "00 00", "a byte left over"),
    (IN_USE, 0, "04 00000005 0000000000000003", "equal counters"),
    (IN_USE, 0, "04 00000006 00000000000000", "a byte less"),
    (IN_USE, 0, "04 00000006 0000000000000003 00", "a byte more"),
    (
        NEW,
        0,
        "04 00000006 0000000000000003",
        "counters without a session",
    ),
    (
        IN_USE,
        0,
        "04 00000006 0000000100000001",
        "a next counter out of range",
    ),
    (
        IN_USE,
        0,
        "06 00 00000006 0000000000000003",
        "no session, and counters",
    ),
    (
        GRANTED,
        0,
        "06 01 000003 AA*16 BB*16 00000006 0000000000000003 00000006 0000000000000004",
        "a session, and counters",
    ),
    (
        IN_USE,
        0,
        "02 01 000002 AA*16 BB*16 00000006 0000000000000003",
        "counters as a session",
    ),
    (
        IN_USE,
        0,
        "02 01 000002 AA*16 BB*16 00000005 0000000000000003",
        "an equal session",
    ),
    (NEW, 0, "02 00", "no session, as before"),
    (IN_USE, 0, "02 02", "a session of eight that is cut short"),
    (IN_USE, 0, "02 03", "channels of the session"),
    (
        IN_USE,
        0,
        "02 03 000002 AA*16 BB*16 00000005 0000000000000003",
        "channels of a whole session",
    ),
    (
        IN_USE_ON_EIGHT,
        0,
        "02 02 000002 AA*16 BB*16 00000005 0000000000000003",
        "an equal session of eight",
    ),
    (
        IN_USE,
        0,
        "02 01 000000 AA*16 BB*16 00000006 0000000000000003",
        "a session of no JoinNonce",
    ),
    (
        IN_USE,
        0,
        "02 01 000003 AA*16 BB*16 00000006 0000000000000003",
        "a session above the grant",
    ),
    (IN_USE, 0, "02", "no byte of the session"),
    (IN_USE, 0, "01 01 0007 000002", "equal nonces"),
    (IN_USE, 0, "01 02 0008 000002", "flag of the DevNonce"),
    (
        IN_USE,
        0,
        "01 00 0008 000002",
        "a DevNonce that is not there",
    ),
    (IN_USE, 0, "01 01 0008 000001", "a grant below the session"),
    (IN_USE, 0, "08 00", "no pending session, as before"),
    (
        IN_USE,
        0,
        "08 01 000003 AA*16 BB*16",
        "a pending session above the grant",
    ),
    (
        GRANTED,
        0,
        "08 01 000002 AA*16 BB*16",
        "a pending session not above the current one",
    ),
    (
        GRANTED,
        0,
        "08 01 000000 AA*16 BB*16",
        "a pending session of no JoinNonce",
    ),
    (
        IN_USE,
        0,
        "08 02",
        "a pending session of eight that is cut short",
    ),
    (IN_USE, 0, "08 03", "channels of the pending session"),
    (
        GRANTED,
        0,
        "08 03 000003 AA*16 BB*16",
        "channels of a whole pending session",
    ),
    (
        PENDING_ON_EIGHT,
        0,
        "08 02 000003 AA*16 BB*16",
        "an equal pending session of eight",
    ),
    (IN_USE, 0, "10 00 00000000", "no tag, as before"),
    (AWAITED_1, 0, "10 01 00000001", "an equal tag"),
    (IN_USE, 0, "10 00 00000001", "a tag that is not there"),
    (IN_USE, 0, "10 02 00000001", "flag of the tag"),
    (IN_USE, 0, "20 00", "an equal MAC queue"),
    (IN_USE, 0, "20 01 03", "a MAC command that is cut short"),
    (
        IN_USE,
        0,
        "20 01 02",
        "a MAC command that may not be queued",
    ),
    (IN_USE, 0, "20 02 06", "a MAC queue that is cut short"),
    (IN_USE, 0, "20 81 06*129", "129 bytes of MAC commands"),
    (IN_USE, 0, "40 00", "an item that leaves an empty queue"),
    (
        IN_USE,
        16,
        "40 01 00000009 07 00 01 AA",
        "an item for a full queue",
    ),
    (
        IN_USE,
        1,
        "40 02",
        "an item that neither leaves nor is added",
    ),
    (IN_USE, 1, "40 01 00000009 00 00 01 AA", "port 0"),
    (IN_USE, 1, "40 01 00000009 E0 00 01 AA", "port 224"),
    (IN_USE, 1, "40 01 00000009 07 02 01 AA", "flag of the item"),
    (
        IN_USE,
        1,
        "40 01 00000009 07 00 F3 AA*243",
        "a payload of 243 bytes",
    ),
    (
        IN_USE,
        1,
        "40 01 00000009 07 00 02 AA",
        "a payload that is cut short",
    ),
    (IN_USE, 1, "50 01 00000009", "no byte of the items"),
];

// The refusal of such bytes in version 1, and in version 2.
fn refused(alloc: Global, fault: &Fault) -> Option<(Refusal, Refusal)> {
    let (numbers, waiting, words, _) = fault;
    let mut before = found(alloc, numbers, *waiting)?;
    before.heard = UplinkCount::new(END)?;
    let bytes = spelled(alloc, words)?;
    let first = read_change_v1(alloc, &before, bytes.as_slice()).err()?;
    let second = read_change(alloc, &before, bytes.as_slice()).err()?;
    Some((first, second))
}

#[test]
fn what_is_no_change_of_the_record_is_damaged(rt: HostRuntime) {
    for fault in FAULTS {
        let refused = refused(rt.alloc(), fault);
        assert!(rt;
            refused == Some((Refusal::Damaged, Refusal::Damaged)),
            "{}",
            fault.3
        );
    }
}
