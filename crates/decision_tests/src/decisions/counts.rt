// How many uplinks of a device are counted. Frames were made by Python's `cryptography`.
use crate::decisions::records::{FIRST_SESSION, HEARD, IN_USE, SWITCHED, WAITING};
use crate::fixture::{JOINER, REQUEST_1};
use crate::network::{Comes, Row, State};

// The highest value of the count.
const END: u64 = 9_223_372_036_854_775_807;

// The uplink 0 of the pending session, and the uplink 1 of the current one.
const FIRST: &str = "4001000054000000017CC4C2F804";

const NEXT: &str = "4001000054000100445EC542";

// The last uplink of the current session, 0, comes again, confirmed.
const AGAIN: &str = "80010000540000001390E22F";

// Each new uplink is counted, over all sessions of a device, up to the highest value; nothing else
// is counted.
pub(super) const COUNTS: &[Row] = &[
    // the first of a device
    Row {
        before: State {
            in_use: None,
            heard: 0,
            ..WAITING
        },
        comes: Comes::Frame(FIRST),
        wanted: "up 1112131415161718 8193 0 1 AB 1 00000000000000B1 868100000 5 -20 -95",
        after: State {
            heard: 1,
            ..SWITCHED
        },
    },
    // the first of a further session
    Row {
        before: State {
            heard: 41,
            ..WAITING
        },
        comes: Comes::Frame(FIRST),
        wanted: "up 1112131415161718 8193 0 1 AB 1 00000000000000B1 868100000 5 -20 -95",
        after: State {
            heard: 42,
            ..SWITCHED
        },
    },
    // the next one
    Row {
        before: State {
            heard: 41,
            ..IN_USE
        },
        comes: Comes::Frame(NEXT),
        wanted: "",
        after: State { heard: 42, ..HEARD },
    },
    // one that comes again
    Row {
        before: State {
            heard: 41,
            ..IN_USE
        },
        comes: Comes::Frame(AGAIN),
        wanted: "00201100000000000000B10000C35033BE27A00501026001000054200000C46172EF",
        after: State {
            next_down: 1,
            heard: 41,
            ..IN_USE
        },
    },
    // a join
    Row {
        before: State {
            join_nonce: 0,
            in_use: None,
            heard: 41,
            ..IN_USE
        },
        comes: Comes::Frame(REQUEST_1),
        wanted: "00351100000000000000B10000C35033BE27A0050506\
            20964FABE971240AB8E37F72AEFDC360B6FD3C4BE3FB883149AF03F6CC89235E53",
        after: State {
            last_dev_nonce: Some(1),
            in_use: None,
            waiting: Some(FIRST_SESSION),
            heard: 41,
            ..IN_USE
        },
    },
    // MAC commands of an application
    Row {
        before: State {
            heard: 41,
            ..IN_USE
        },
        comes: Comes::Mac(3, JOINER, "06"),
        wanted: "macqueued 1112131415161718 06",
        after: State {
            mac_queue: Some("06"),
            heard: 41,
            ..IN_USE
        },
    },
    // up to the highest value
    Row {
        before: State {
            heard: END - 1,
            ..IN_USE
        },
        comes: Comes::Frame(NEXT),
        wanted: "",
        after: State {
            heard: END,
            ..HEARD
        },
    },
    // at the highest value
    Row {
        before: State {
            heard: END,
            ..IN_USE
        },
        comes: Comes::Frame(NEXT),
        wanted: "",
        after: State {
            heard: END,
            ..HEARD
        },
    },
    Row {
        before: State {
            heard: END,
            ..WAITING
        },
        comes: Comes::Frame(FIRST),
        wanted: "up 1112131415161718 8193 0 1 AB 1 00000000000000B1 868100000 5 -20 -95",
        after: State {
            heard: END,
            ..SWITCHED
        },
    },
];
