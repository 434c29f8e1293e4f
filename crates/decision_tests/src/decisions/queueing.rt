// Items and MAC commands that a table queues. Device 50 belongs to application 3 and is at slot 0.
use crate::network::{Asked, Comes, FRESH, Items, Refused, Row, State};
use lw_types::Refusal;

/// The device 50, for which nothing waits.
pub(super) const FIFTY: State = State {
    dev_eui: 50,
    ..FRESH
};

// The same, for which sixteen items wait.
const SIXTEEN: State = State {
    items: Items::Ports(16),
    ..FIFTY
};

// The same, for which a DevStatusReq waits.
const ASKED: State = State {
    mac_queue: Some("06"),
    ..FIFTY
};

/// A confirmed item of one byte under tag 9.
pub(super) const ITEM: Asked = Asked {
    application: 3,
    dev_eui: 50,
    tag: 9,
    port: 5,
    confirmed: true,
    len: 1,
};

// This number of DevStatusReq.
const SIXES_64: &str = concat!(
    "0606060606060606060606060606060606060606060606060606060606060606060606060606060606060606",
    "0606060606060606060606060606060606060606",
);

const SIXES_65: &str = concat!(
    "0606060606060606060606060606060606060606060606060606060606060606060606060606060606060606",
    "060606060606060606060606060606060606060606",
);

const SIXES_127: &str = concat!(
    "0606060606060606060606060606060606060606060606060606060606060606060606060606060606060606",
    "0606060606060606060606060606060606060606060606060606060606060606060606060606060606060606",
    "060606060606060606060606060606060606060606060606060606060606060606060606060606",
);

const SIXES_128: &str = concat!(
    "0606060606060606060606060606060606060606060606060606060606060606060606060606060606060606",
    "0606060606060606060606060606060606060606060606060606060606060606060606060606060606060606",
    "06060606060606060606060606060606060606060606060606060606060606060606060606060606",
);

const SIXES_129: &str = concat!(
    "0606060606060606060606060606060606060606060606060606060606060606060606060606060606060606",
    "0606060606060606060606060606060606060606060606060606060606060606060606060606060606060606",
    "0606060606060606060606060606060606060606060606060606060606060606060606060606060606",
);

const SIXES_300: &str = concat!(
    "0606060606060606060606060606060606060606060606060606060606060606060606060606060606060606",
    "0606060606060606060606060606060606060606060606060606060606060606060606060606060606060606",
    "0606060606060606060606060606060606060606060606060606060606060606060606060606060606060606",
    "0606060606060606060606060606060606060606060606060606060606060606060606060606060606060606",
    "0606060606060606060606060606060606060606060606060606060606060606060606060606060606060606",
    "0606060606060606060606060606060606060606060606060606060606060606060606060606060606060606",
    "060606060606060606060606060606060606060606060606060606060606060606060606",
);

// An item waits.
pub(super) const QUEUED: &[Row] = &[
    Row {
        before: FIFTY,
        comes: Comes::Item(Asked {
            port: 1,
            len: 0,
            ..ITEM
        }),
        wanted: "queued 0000000000000032 9",
        after: State {
            items: Items::One((9, 1, true, 0)),
            ..FIFTY
        },
    },
    Row {
        before: FIFTY,
        comes: Comes::Item(Asked {
            port: 5,
            len: 1,
            ..ITEM
        }),
        wanted: "queued 0000000000000032 9",
        after: State {
            items: Items::One((9, 5, true, 1)),
            ..FIFTY
        },
    },
    Row {
        before: FIFTY,
        comes: Comes::Item(Asked {
            port: 223,
            len: 242,
            ..ITEM
        }),
        wanted: "queued 0000000000000032 9",
        after: State {
            items: Items::One((9, 223, true, 242)),
            ..FIFTY
        },
    },
    // MAC commands wait after others
    Row {
        before: ASKED,
        comes: Comes::Mac(3, 50, "06"),
        wanted: "macqueued 0000000000000032 06",
        after: State {
            mac_queue: Some("0606"),
            ..FIFTY
        },
    },
    Row {
        before: ASKED,
        comes: Comes::Mac(3, 50, "040F"),
        wanted: "macqueued 0000000000000032 040F",
        after: State {
            mac_queue: Some("06040F"),
            ..FIFTY
        },
    },
    Row {
        before: ASKED,
        comes: Comes::Mac(3, 50, "0350070001"),
        wanted: "macqueued 0000000000000032 0350070001",
        after: State {
            mac_queue: Some("060350070001"),
            ..FIFTY
        },
    },
    Row {
        before: ASKED,
        comes: Comes::Mac(3, 50, "0350070001040F06"),
        wanted: "macqueued 0000000000000032 0350070001040F06",
        after: State {
            mac_queue: Some("060350070001040F06"),
            ..FIFTY
        },
    },
    // up to 128 bytes of them
    Row {
        before: State {
            mac_queue: Some(SIXES_64),
            ..FIFTY
        },
        comes: Comes::Mac(3, 50, "06"),
        wanted: "macqueued 0000000000000032 06",
        after: State {
            mac_queue: Some(SIXES_65),
            ..FIFTY
        },
    },
    Row {
        before: FIFTY,
        comes: Comes::Mac(3, 50, SIXES_128),
        wanted: concat!(
            "macqueued 0000000000000032 060606060606060606060606060606060606060606060606060606060",
            "606060606060606060606060606060606060606060606060606060606060606060606060606060606060",
            "606060606060606060606060606060606060606060606060606060606060606060606060606060606060",
            "6060606060606060606060606060606",
        ),
        after: State {
            mac_queue: Some(SIXES_128),
            ..FIFTY
        },
    },
    Row {
        before: State {
            mac_queue: Some(SIXES_127),
            ..FIFTY
        },
        comes: Comes::Mac(3, 50, "06"),
        wanted: "macqueued 0000000000000032 06",
        after: State {
            mac_queue: Some(SIXES_128),
            ..FIFTY
        },
    },
    Row {
        before: State {
            mac_queue: Some("06"),
            ..FIFTY
        },
        comes: Comes::Mac(3, 50, SIXES_127),
        wanted: concat!(
            "macqueued 0000000000000032 060606060606060606060606060606060606060606060606060606060",
            "606060606060606060606060606060606060606060606060606060606060606060606060606060606060",
            "606060606060606060606060606060606060606060606060606060606060606060606060606060606060",
            "60606060606060606060606060606",
        ),
        after: State {
            mac_queue: Some(SIXES_128),
            ..FIFTY
        },
    },
];

// Items for another device or application, or out of range.
pub(super) const REFUSALS: &[Refused] = &[
    (
        FIFTY,
        Comes::Item(Asked {
            dev_eui: 51,
            ..ITEM
        }),
        Refusal::UnknownDevEui,
    ),
    (
        FIFTY,
        Comes::Item(Asked {
            application: 4,
            ..ITEM
        }),
        Refusal::UnknownDevEui,
    ),
    (
        FIFTY,
        Comes::Item(Asked {
            application: 4,
            port: 0,
            len: 243,
            ..ITEM
        }),
        Refusal::UnknownDevEui,
    ),
    (
        FIFTY,
        Comes::Item(Asked { len: 243, ..ITEM }),
        Refusal::TooLong,
    ),
    (
        FIFTY,
        Comes::Item(Asked {
            port: 0,
            len: 243,
            ..ITEM
        }),
        Refusal::TooLong,
    ),
    (
        FIFTY,
        Comes::Item(Asked {
            port: 0,
            len: 242,
            ..ITEM
        }),
        Refusal::BadPort,
    ),
    (
        FIFTY,
        Comes::Item(Asked {
            port: 224,
            len: 0,
            ..ITEM
        }),
        Refusal::BadPort,
    ),
    (
        FIFTY,
        Comes::Item(Asked { port: 255, ..ITEM }),
        Refusal::BadPort,
    ),
    // if sixteen wait
    (
        SIXTEEN,
        Comes::Item(Asked { port: 17, ..ITEM }),
        Refusal::QueueFull,
    ),
    (
        SIXTEEN,
        Comes::Item(Asked { port: 0, ..ITEM }),
        Refusal::BadPort,
    ),
    (
        SIXTEEN,
        Comes::Item(Asked {
            port: 0,
            len: 243,
            ..ITEM
        }),
        Refusal::TooLong,
    ),
    // bytes that are refused as MAC commands for no device
    (FIFTY, Comes::Mac(3, 51, "06"), Refusal::UnknownDevEui),
    // for another application's device
    (FIFTY, Comes::Mac(4, 50, "06"), Refusal::UnknownDevEui),
    (FIFTY, Comes::Mac(4, 50, ""), Refusal::UnknownDevEui),
    // nothing
    (FIFTY, Comes::Mac(3, 50, ""), Refusal::BadMac),
    // a cut LinkADRReq
    (FIFTY, Comes::Mac(3, 50, "03500700"), Refusal::BadMac),
    // a cut DutyCycleReq
    (FIFTY, Comes::Mac(3, 50, "0604"), Refusal::BadMac),
    // a DevStatusReq with a byte after it
    (FIFTY, Comes::Mac(3, 50, "0600"), Refusal::BadMac),
    // an RXParamSetupReq
    (FIFTY, Comes::Mac(3, 50, "0500000000"), Refusal::BadMac),
    // a LinkCheckAns after a DevStatusReq
    (FIFTY, Comes::Mac(3, 50, "06020A01"), Refusal::BadMac),
    // at most 128 bytes of commands wait; bytes that are no commands are refused first
    (FIFTY, Comes::Mac(3, 50, SIXES_129), Refusal::MacQueueFull),
    (FIFTY, Comes::Mac(3, 50, SIXES_300), Refusal::MacQueueFull),
    (
        State {
            mac_queue: Some("06"),
            ..FIFTY
        },
        Comes::Mac(3, 50, SIXES_128),
        Refusal::MacQueueFull,
    ),
    (
        State {
            mac_queue: Some(SIXES_127),
            ..FIFTY
        },
        Comes::Mac(3, 50, "0606"),
        Refusal::MacQueueFull,
    ),
    (
        State {
            mac_queue: Some(SIXES_128),
            ..FIFTY
        },
        Comes::Mac(3, 50, "06"),
        Refusal::MacQueueFull,
    ),
    (
        State {
            mac_queue: Some(SIXES_128),
            ..FIFTY
        },
        Comes::Mac(3, 50, "02"),
        Refusal::BadMac,
    ),
];
