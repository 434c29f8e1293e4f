// What one device does, step by step: each row begins with the record that the row above left.
// Frames were made by Python's `cryptography`.
use crate::decisions::records::{ANSWERED, HEARD, IN_USE, SWITCHED, WAITING};
use crate::fixture::JOINER;
use crate::network::{Asked, Comes, Items, Row, State};

// An item of one byte for the device under test.
const ITEM: Asked = Asked {
    application: 3,
    dev_eui: JOINER,
    tag: 9,
    port: 7,
    confirmed: true,
    len: 1,
};

// The counter of no downlink.
const SPENT: u64 = 1 << 32;

// Three stories.
pub(super) const STORIES: &[Row] = &[
    // An item and MAC commands that are queued leave with the next downlink; the item is awaited
    // and acknowledged.
    Row {
        before: IN_USE,
        comes: Comes::Item(ITEM),
        wanted: "queued 1112131415161718 9",
        after: State {
            items: Items::One((9, 7, true, 1)),
            ..IN_USE
        },
    },
    Row {
        before: State {
            items: Items::One((9, 7, true, 1)),
            ..IN_USE
        },
        comes: Comes::Mac(3, JOINER, "06"),
        wanted: "macqueued 1112131415161718 06",
        after: State {
            items: Items::One((9, 7, true, 1)),
            mac_queue: Some("06"),
            ..IN_USE
        },
    },
    Row {
        before: State {
            items: Items::One((9, 7, true, 1)),
            mac_queue: Some("06"),
            ..IN_USE
        },
        comes: Comes::Frame("4001000054000100445EC542"),
        wanted: "00231100000000000000B10000C35033BE27A0050102A001000054010000060726BC000CF1",
        after: State {
            awaited: Some(9),
            ..ANSWERED
        },
    },
    Row {
        before: State {
            awaited: Some(9),
            ..ANSWERED
        },
        comes: Comes::Frame("80010000542002000DA24BCD"),
        wanted: concat!(
            "acked 1112131415161718 9\n",
            "00201100000000000000B10000C35033BE27A005010260010000542001005452B65D",
        ),
        after: State {
            last_up: 2,
            next_down: 2,
            heard: 3,
            ..IN_USE
        },
    },
    Row {
        before: State {
            last_up: 2,
            next_down: 2,
            heard: 3,
            ..IN_USE
        },
        comes: Comes::Frame("80010000542002000DA24BCD"),
        wanted: "00201100000000000000B10000C35033BE27A005010260010000542002007B5B3F2B",
        after: State {
            last_up: 2,
            next_down: 3,
            heard: 3,
            ..IN_USE
        },
    },
    Row {
        before: State {
            last_up: 2,
            next_down: 3,
            heard: 3,
            ..IN_USE
        },
        comes: Comes::Frame("400100005420030010A5798F"),
        wanted: "",
        after: State {
            last_up: 3,
            next_down: 3,
            heard: 4,
            ..IN_USE
        },
    },
    // The pending session becomes current with its first uplink, and that uplink may come again.
    Row {
        before: State {
            last_up: 7,
            ..WAITING
        },
        comes: Comes::Frame("8001000054000000D734A4B7"),
        wanted: "00201100000000000000B10000C35033BE27A00501026001000054200000091C5972",
        after: State {
            next_down: 1,
            ..SWITCHED
        },
    },
    Row {
        before: State {
            next_down: 1,
            ..SWITCHED
        },
        comes: Comes::Frame("8001000054000000D734A4B7"),
        wanted: "00201100000000000000B10000C35033BE27A00501026001000054200100B7BBE457",
        after: State {
            next_down: 2,
            ..SWITCHED
        },
    },
    Row {
        before: State {
            next_down: 2,
            ..SWITCHED
        },
        comes: Comes::Frame("4001000054000100011211C056C2"),
        wanted: "up 1112131415161718 8193 1 1 AB 1 00000000000000B1 868100000 5 -20 -95",
        after: State {
            last_up: 1,
            next_down: 2,
            heard: 3,
            ..SWITCHED
        },
    },
    // After the last downlink none is left.
    Row {
        before: State {
            next_down: 4_294_967_295,
            ..IN_USE
        },
        comes: Comes::Frame("8001000054000100F640816E"),
        wanted: "00201100000000000000B10000C35033BE27A0050102600100005420FFFF795401D5",
        after: State {
            next_down: SPENT,
            ..HEARD
        },
    },
    Row {
        before: State {
            next_down: SPENT,
            ..HEARD
        },
        comes: Comes::Frame("80010000540002008073840A"),
        wanted: "spent 1112131415161718 1",
        after: State {
            last_up: 2,
            next_down: SPENT,
            heard: 3,
            ..IN_USE
        },
    },
    Row {
        before: State {
            last_up: 2,
            next_down: SPENT,
            heard: 3,
            ..IN_USE
        },
        comes: Comes::Frame("80010000540002008073840A"),
        wanted: "spent 1112131415161718 1",
        after: State {
            last_up: 2,
            next_down: SPENT,
            heard: 3,
            ..IN_USE
        },
    },
    Row {
        before: State {
            last_up: 2,
            next_down: SPENT,
            heard: 3,
            ..IN_USE
        },
        comes: Comes::Frame("400100005400030001A2EBC83CA6"),
        wanted: "up 1112131415161718 1 3 1 AB 1 00000000000000B1 868100000 5 -20 -95",
        after: State {
            last_up: 3,
            next_down: SPENT,
            heard: 4,
            ..IN_USE
        },
    },
];
