// What a downlink carries. Frames were made by Python's `cryptography`.
use crate::decisions::records::{ANSWERED, HEARD, IN_USE};
use crate::network::{Comes, Items, Row, State};

// LinkCheckAns, whole MAC commands within 15 bytes, and the first item if it fits RX1.
pub(super) const LOADS: &[Row] = &[
    Row {
        before: State {
            mac_queue: Some("035007000103500700010350070001"),
            ..IN_USE
        },
        comes: Comes::Frame("400100005401010002BE3ACC5F"),
        wanted: concat!(
            "002D1100000000000000B10000C35033BE27A005010260010000541D0000020201035007000103500700",
            "01A1D4A753",
        ),
        after: State {
            mac_queue: Some("0350070001"),
            ..ANSWERED
        },
    },
    Row {
        before: State {
            mac_queue: Some("035007000103500700010350070001"),
            items: Items::One((9, 7, false, 38)),
            ..IN_USE
        },
        comes: Comes::At(0, "400100005401010002BE3ACC5F"),
        wanted: concat!(
            "00541100000000000000B10000C35033BE27A000010260010000541D0000020F01035007000103500700",
            "01072622A3A2570A2BEF0FAA0571AAB86025374475790E97B28960D2D55F94C47376179E90239AEC12DB",
            "B243",
        ),
        after: State {
            mac_queue: Some("0350070001"),
            ..ANSWERED
        },
    },
    Row {
        before: State {
            mac_queue: Some("035007000103500700010350070001"),
            items: Items::One((9, 7, false, 39)),
            ..IN_USE
        },
        comes: Comes::At(0, "400100005401010002BE3ACC5F"),
        wanted: concat!(
            "002D1100000000000000B10000C35033BE27A000010260010000541D0000020F01035007000103500700",
            "01B78A1D98",
        ),
        after: State {
            mac_queue: Some("0350070001"),
            items: Items::One((9, 7, false, 39)),
            ..ANSWERED
        },
    },
    Row {
        before: State {
            items: Items::One((9, 7, false, 100)),
            ..IN_USE
        },
        comes: Comes::At(0, "8001000054000100F640816E"),
        wanted: "00201100000000000000B10000C35033BE27A00001026001000054300000DFAF0FBE",
        after: State {
            items: Items::One((9, 7, false, 100)),
            ..ANSWERED
        },
    },
    Row {
        before: State {
            items: Items::One((9, 7, false, 100)),
            ..ANSWERED
        },
        comes: Comes::Frame("4001000054000200A283939C"),
        wanted: concat!(
            "00851100000000000000B10000C35033BE27A00501006001000054000100078E9727FD725857105E234D",
            "5BF57C0FB90BEED18CEE0BA992FF26AF661BBBDDFF19BFBE2B7660F378771278BF08360B3FA54F4E9FB5",
            "DB60DCA1C47A15796D94A802C5329AB203521783926C3CC62EA71CBC0BF3C508A906E570A8F1C676B542",
            "F5C0F1DEB803DE4E65",
        ),
        after: State {
            last_up: 2,
            next_down: 2,
            heard: 3,
            ..IN_USE
        },
    },
    // one answer to two questions
    Row {
        before: IN_USE,
        comes: Comes::Frame("4001000054020100020238045725"),
        wanted: "00231100000000000000B10000C35033BE27A00501026001000054030000020201BE5AFEAB",
        after: ANSWERED,
    },
    // 128 bytes wait
    Row {
        before: State {
            mac_queue: Some(concat!(
                "0350070001035007000103500700010350070001035007000103500700010350070001035007",
                "0001035007000103500700010350070001035007000103500700010350070001035007000103",
                "5007000103500700010350070001035007000103500700010350070001035007000103500700",
                "0103500700010350070001060606",
            )),
            ..IN_USE
        },
        comes: Comes::Frame("4001000054000100445EC542"),
        wanted: concat!(
            "002F1100000000000000B10000C35033BE27A005010260010000541F0000035007000103500700010350",
            "07000117D1C4C9",
        ),
        after: State {
            mac_queue: Some(concat!(
                "0350070001035007000103500700010350070001035007000103500700010350070001035007",
                "0001035007000103500700010350070001035007000103500700010350070001035007000103",
                "50070001035007000103500700010350070001035007000103500700010350070001060606",
            )),
            ..ANSWERED
        },
    },
    Row {
        before: State {
            mac_queue: Some("06"),
            ..IN_USE
        },
        comes: Comes::Frame("4001000054000100445EC542"),
        wanted: "00211100000000000000B10000C35033BE27A00501026001000054010000063004FE35",
        after: ANSWERED,
    },
    // ADRACKReq alone
    Row {
        before: IN_USE,
        comes: Comes::Frame("4001000054400100CB69B4A5"),
        wanted: "00201100000000000000B10000C35033BE27A005010260010000540000005DDC678C",
        after: ANSWERED,
    },
    // nothing is due
    Row {
        before: IN_USE,
        comes: Comes::Frame("4001000054000100445EC542"),
        wanted: "",
        after: HEARD,
    },
    // exactly the room
    Row {
        before: State {
            mac_queue: Some("035007000103500700010401040F06"),
            ..IN_USE
        },
        comes: Comes::Frame("400100005401010002BE3ACC5F"),
        wanted: concat!(
            "002F1100000000000000B10000C35033BE27A005010260010000541F0000020201035007000103500700",
            "01040177FC1527",
        ),
        after: State {
            mac_queue: Some("040F06"),
            ..ANSWERED
        },
    },
    Row {
        before: State {
            mac_queue: Some("035007000103500700010401040F06"),
            ..IN_USE
        },
        comes: Comes::Frame("4001000054000100445EC542"),
        wanted: concat!(
            "002F1100000000000000B10000C35033BE27A005010260010000540F0000035007000103500700010401",
            "040F06651C1664",
        ),
        after: ANSWERED,
    },
    // all effects, in order
    Row {
        before: State {
            awaited: Some(6),
            mac_queue: Some("06"),
            items: Items::One((9, 7, false, 3)),
            ..IN_USE
        },
        comes: Comes::Frame("800100005403010002030701236B8D5074"),
        wanted: concat!(
            "lost 1112131415161718 6\n",
            "mac 1112131415161718 1 0307\n",
            "up 1112131415161718 1 1 1 AB 1 00000000000000B1 868100000 5 -20 -95\n",
            "00281100000000000000B10000C35033BE27A0050102600100005424000002020106072622A38C99BC08",
        ),
        after: ANSWERED,
    },
    // DevAddr 54002001
    Row {
        before: State { slot: 1, ..IN_USE },
        comes: Comes::Frame("80012000540001008335A40D"),
        wanted: "00201100000000000000B10000C35033BE27A005010260012000542000004D579426",
        after: State {
            slot: 1,
            ..ANSWERED
        },
    },
];

// An item that fits exactly, and one byte more; a confirmed one is awaited; RX2 takes 59 bytes.
pub(super) const ITEMS: &[Row] = &[
    Row {
        before: State {
            items: Items::One((9, 7, false, 115)),
            ..IN_USE
        },
        comes: Comes::At(3, "4001000054000100445EC542"),
        wanted: concat!(
            "00941100000000000000B10000C35033BE27A00301006001000054000000072622A3A2570A2BEF0FAA05",
            "71AAB86025374475790E97B28960D2D55F94C47376179E90239AEC490FA73FA7933217FE89A73BDFAE5D",
            "A63AF215D48FA553543355423C1F4EFBE0CF15081E7C5FDB4779686822E4F636A1A95404B22C4C435086",
            "14D8FE6DB8090ABC813FB02BC7D37AB80CB0F316BE44B76E",
        ),
        after: ANSWERED,
    },
    Row {
        before: State {
            items: Items::One((9, 7, false, 116)),
            ..IN_USE
        },
        comes: Comes::At(3, "4001000054000100445EC542"),
        wanted: "",
        after: State {
            items: Items::One((9, 7, false, 116)),
            ..HEARD
        },
    },
    // the longest item
    Row {
        before: State {
            items: Items::One((9, 7, false, 242)),
            ..IN_USE
        },
        comes: Comes::Frame("4001000054000100445EC542"),
        wanted: concat!(
            "01131100000000000000B10000C35033BE27A00501006001000054000000072622A3A2570A2BEF0FAA05",
            "71AAB86025374475790E97B28960D2D55F94C47376179E90239AEC490FA73FA7933217FE89A73BDFAE5D",
            "A63AF215D48FA553543355423C1F4EFBE0CF15081E7C5FDB4779686822E4F636A1A95404B22C4C435086",
            "14D8FE6DB8090ABC813FB02BC7D37AB80CB0F316FC65E88E1C3EBD07C6AF17671925CDF8E77F88521D22",
            "810076B7C42046FD6120DBBDB8F003C0A6292421171942897D48C8DBE8BAA7728B72EE7D60C86F3A71D7",
            "BF25287813E9B4F248167B6DF0C088DBD36F65F8F49D30C73D2970881C28120D3F9A1CE4EEF16DF167FA",
            "BDE233D03BA5D718D2C290CE5533409C3E81F6FC42B4518E7A",
        ),
        after: ANSWERED,
    },
    Row {
        before: State {
            items: Items::One((9, 7, false, 51)),
            ..IN_USE
        },
        comes: Comes::Frame("4001000054000100445EC542"),
        wanted: concat!(
            "00541100000000000000B10000C35033BE27A00501026001000054000000072622A3A2570A2BEF0FAA05",
            "71AAB86025374475790E97B28960D2D55F94C47376179E90239AEC490FA73FA7933217FE89A73BDF571D",
            "1B93",
        ),
        after: ANSWERED,
    },
    Row {
        before: State {
            items: Items::One((9, 7, false, 52)),
            ..IN_USE
        },
        comes: Comes::Frame("4001000054000100445EC542"),
        wanted: concat!(
            "00551100000000000000B10000C35033BE27A00501006001000054000000072622A3A2570A2BEF0FAA05",
            "71AAB86025374475790E97B28960D2D55F94C47376179E90239AEC490FA73FA7933217FE89A73BDFAE96",
            "1543C4",
        ),
        after: ANSWERED,
    },
    // no byte
    Row {
        before: State {
            items: Items::One((9, 7, false, 0)),
            ..IN_USE
        },
        comes: Comes::Frame("4001000054000100445EC542"),
        wanted: "00211100000000000000B10000C35033BE27A005010260010000540000000734AC984F",
        after: ANSWERED,
    },
    Row {
        before: State {
            items: Items::Two((9, 7, true, 1), (10, 7, false, 2)),
            ..IN_USE
        },
        comes: Comes::Frame("4001000054000100445EC542"),
        wanted: "00221100000000000000B10000C35033BE27A0050102A0010000541000000726C88CE58D",
        after: State {
            awaited: Some(9),
            items: Items::One((10, 7, false, 2)),
            ..ANSWERED
        },
    },
];
