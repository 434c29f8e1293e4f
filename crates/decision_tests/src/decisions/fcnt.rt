// Counters of uplinks and downlinks. Frames were made by Python's `cryptography`.
use crate::decisions::records::{HEARD, IN_USE};
use crate::network::{Comes, Items, Row, State};

// Counters beyond 16 bits: of uplinks and of downlinks, the whole counter is in the MIC and in the
// keystream.
pub(super) const COUNTERS: &[Row] = &[
    Row {
        before: State {
            last_up: 65_535,
            ..IN_USE
        },
        comes: Comes::Frame("400100005400000001CB0EEBD1F4"),
        wanted: "up 1112131415161718 1 65536 1 AB 1 00000000000000B1 868100000 5 -20 -95",
        after: State {
            last_up: 65_536,
            heard: 2,
            ..IN_USE
        },
    },
    Row {
        before: State {
            last_up: 65_534,
            ..IN_USE
        },
        comes: Comes::Frame("400100005400FFFF017696F451D4"),
        wanted: "up 1112131415161718 1 65535 1 AB 1 00000000000000B1 868100000 5 -20 -95",
        after: State {
            last_up: 65_535,
            heard: 2,
            ..IN_USE
        },
    },
    Row {
        before: State {
            last_up: 4_294_967_294,
            ..IN_USE
        },
        comes: Comes::Frame("400100005400FFFF01F9F7036EF3"),
        wanted: "up 1112131415161718 1 4294967295 1 AB 1 00000000000000B1 868100000 5 -20 -95",
        after: State {
            last_up: 4_294_967_295,
            heard: 2,
            ..IN_USE
        },
    },
    Row {
        before: State {
            next_down: 65_535,
            ..IN_USE
        },
        comes: Comes::Frame("8001000054000100F640816E"),
        wanted: "00201100000000000000B10000C35033BE27A0050102600100005420FFFF41E1A4D2",
        after: State {
            next_down: 65_536,
            ..HEARD
        },
    },
    Row {
        before: State {
            next_down: 65_536,
            items: Items::One((9, 7, false, 3)),
            ..IN_USE
        },
        comes: Comes::Frame("4001000054000100445EC542"),
        wanted: "00241100000000000000B10000C35033BE27A0050102600100005400000007EC77BC34FA3DE6",
        after: State {
            next_down: 65_537,
            ..HEARD
        },
    },
    Row {
        before: State {
            next_down: 4_294_967_295,
            ..IN_USE
        },
        comes: Comes::Frame("8001000054000100F640816E"),
        wanted: "00201100000000000000B10000C35033BE27A0050102600100005420FFFF795401D5",
        after: State {
            next_down: 4_294_967_296,
            ..HEARD
        },
    },
    // no counter is left: nothing leaves a queue
    Row {
        before: State {
            next_down: 4_294_967_296,
            mac_queue: Some("06"),
            items: Items::One((9, 7, false, 3)),
            ..IN_USE
        },
        comes: Comes::Frame("8001000054000100012375FB0C64"),
        wanted: concat!(
            "up 1112131415161718 1 1 1 AB 1 00000000000000B1 868100000 5 -20 -95\n",
            "spent 1112131415161718 1",
        ),
        after: State {
            next_down: 4_294_967_296,
            mac_queue: Some("06"),
            items: Items::One((9, 7, false, 3)),
            ..HEARD
        },
    },
];

// A confirmed uplink that comes again is acknowledged under the next counter, and does nothing
// else.
pub(super) const REPEATS: &[Row] = &[
    Row {
        before: State {
            last_up: 5,
            next_down: 3,
            ..IN_USE
        },
        comes: Comes::Frame("800100005400050001031E6D84D3"),
        wanted: "00201100000000000000B10000C35033BE27A0050102600100005420030006120503",
        after: State {
            last_up: 5,
            next_down: 4,
            ..IN_USE
        },
    },
    Row {
        before: State {
            last_up: 5,
            awaited: Some(4),
            mac_queue: Some("06"),
            ..IN_USE
        },
        comes: Comes::Frame("8001000054010500022DCA0C2A"),
        wanted: "00201100000000000000B10000C35033BE27A00501026001000054300000DFAF0FBE",
        after: State {
            last_up: 5,
            next_down: 1,
            awaited: Some(4),
            mac_queue: Some("06"),
            ..IN_USE
        },
    },
    Row {
        before: State {
            last_up: 5,
            mac_queue: Some("06"),
            items: Items::One((9, 7, false, 3)),
            ..IN_USE
        },
        comes: Comes::Frame("8001000054000500756BBD85"),
        wanted: "00201100000000000000B10000C35033BE27A00501026001000054300000DFAF0FBE",
        after: State {
            last_up: 5,
            next_down: 1,
            mac_queue: Some("06"),
            items: Items::One((9, 7, false, 3)),
            ..IN_USE
        },
    },
    Row {
        before: State {
            last_up: 5,
            items: Items::One((9, 7, false, 3)),
            ..IN_USE
        },
        comes: Comes::Frame("8001000054000500756BBD85"),
        wanted: "00201100000000000000B10000C35033BE27A00501026001000054300000DFAF0FBE",
        after: State {
            last_up: 5,
            next_down: 1,
            items: Items::One((9, 7, false, 3)),
            ..IN_USE
        },
    },
    Row {
        before: State {
            last_up: 65_536,
            ..IN_USE
        },
        comes: Comes::Frame("800100005400000047FFC806"),
        wanted: "00201100000000000000B10000C35033BE27A00501026001000054200000C46172EF",
        after: State {
            last_up: 65_536,
            next_down: 1,
            ..IN_USE
        },
    },
    Row {
        before: State {
            last_up: 5,
            next_down: 4_294_967_296,
            items: Items::One((9, 7, false, 3)),
            ..IN_USE
        },
        comes: Comes::Frame("8001000054000500756BBD85"),
        wanted: "spent 1112131415161718 1",
        after: State {
            last_up: 5,
            next_down: 4_294_967_296,
            items: Items::One((9, 7, false, 3)),
            ..IN_USE
        },
    },
];
