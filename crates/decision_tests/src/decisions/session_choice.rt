// The session to which an uplink belongs. Frames were made by Python's `cryptography`.
use crate::decisions::records::{HEARD, IN_USE, SWITCHED, WAITING};
use crate::network::{Comes, Row, State};

// The pending session has the same address. It is tried first, and what was awaited in the session
// before is lost.
pub(super) const SESSIONS: &[Row] = &[
    Row {
        before: State {
            last_up: 7,
            next_down: 4,
            ..WAITING
        },
        comes: Comes::Frame("4001000054000000017CC4C2F804"),
        wanted: "up 1112131415161718 8193 0 1 AB 1 00000000000000B1 868100000 5 -20 -95",
        after: SWITCHED,
    },
    // its first counter is at most 16,383
    Row {
        before: State {
            last_up: 7,
            awaited: Some(6),
            ..WAITING
        },
        comes: Comes::Frame("400100005420FF3F01A320B6031B"),
        wanted: concat!(
            "lost 1112131415161718 6\n",
            "up 1112131415161718 8193 16383 1 AB 1 00000000000000B1 868100000 5 -20 -95",
        ),
        after: State {
            last_up: 16_383,
            ..SWITCHED
        },
    },
    // downlinks count from 0
    Row {
        before: State {
            last_up: 7,
            next_down: 4,
            ..WAITING
        },
        comes: Comes::Frame("8001000054000300FC9BB59E"),
        wanted: "00201100000000000000B10000C35033BE27A00501026001000054200000091C5972",
        after: State {
            last_up: 3,
            next_down: 1,
            ..SWITCHED
        },
    },
    // the MIC belongs to the current session
    Row {
        before: State {
            last_up: 7,
            next_down: 4,
            ..WAITING
        },
        comes: Comes::Frame("4001000054000800014C5B0EA5F9"),
        wanted: "up 1112131415161718 1 8 1 AB 1 00000000000000B1 868100000 5 -20 -95",
        after: State {
            last_up: 8,
            next_down: 4,
            heard: 2,
            ..WAITING
        },
    },
    // too far for the pending session
    Row {
        before: State {
            last_up: 19_999,
            ..WAITING
        },
        comes: Comes::Frame("400100005400204E01A0298DBA66"),
        wanted: "up 1112131415161718 1 20000 1 AB 1 00000000000000B1 868100000 5 -20 -95",
        after: State {
            last_up: 20_000,
            heard: 2,
            ..WAITING
        },
    },
];

// The ACK bit acknowledges what is awaited, and any other uplink loses it.
pub(super) const AWAITED: &[Row] = &[
    Row {
        before: State {
            awaited: Some(6),
            ..IN_USE
        },
        comes: Comes::Frame("4001000054200100066F61E7"),
        wanted: "acked 1112131415161718 6",
        after: HEARD,
    },
    Row {
        before: State {
            awaited: Some(6),
            ..IN_USE
        },
        comes: Comes::Frame("4001000054000100445EC542"),
        wanted: "lost 1112131415161718 6",
        after: HEARD,
    },
    Row {
        before: IN_USE,
        comes: Comes::Frame("4001000054200100066F61E7"),
        wanted: "",
        after: HEARD,
    },
];
