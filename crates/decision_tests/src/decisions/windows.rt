// How a downlink is sent. Frames were made by Python's `cryptography`.
use crate::decisions::records::{ANSWERED, IN_USE};
use crate::network::{Comes, Row};

// A confirmed uplink, and one with LinkCheckReq.
pub(super) const CONFIRMED: &str = "8001000054000100F640816E";

const LINK_CHECK: &str = "400100005401010002BE3ACC5F";

// The acknowledgement at the data rates of RX1 from 0 on.
pub(super) const ACKS: [&str; 6] = [
    "00201100000000000000B10000C35033BE27A00001026001000054200000C46172EF",
    "00201100000000000000B10000C35033BE27A00101026001000054200000C46172EF",
    "00201100000000000000B10000C35033BE27A00201026001000054200000C46172EF",
    "00201100000000000000B10000C35033BE27A00301026001000054200000C46172EF",
    "00201100000000000000B10000C35033BE27A00401026001000054200000C46172EF",
    "00201100000000000000B10000C35033BE27A00501026001000054200000C46172EF",
];

// For each RX1DROffset, the data rate of RX1 by that of the uplink: lower by the offset, and at
// least 0.
pub(super) const RX1_RATES: [[usize; 6]; 6] = [
    [0, 1, 2, 3, 4, 5],
    [0, 0, 1, 2, 3, 4],
    [0, 0, 0, 1, 2, 3],
    [0, 0, 0, 0, 1, 2],
    [0, 0, 0, 0, 0, 1],
    [0, 0, 0, 0, 0, 0],
];

// The margin is in whole dB above the floor of the data rate, from 0 to 254; then comes the number
// of gateways.
pub(super) const LINK_CHECKS: &[Row] = &[
    Row {
        before: IN_USE,
        comes: Comes::Alike(1, 5, -20, LINK_CHECK),
        wanted: "00231100000000000000B10000C35033BE27A00501026001000054030000020201BE5AFEAB",
        after: ANSWERED,
    },
    Row {
        before: IN_USE,
        comes: Comes::Alike(1, 0, -100, LINK_CHECK),
        wanted: "00231100000000000000B10000C35033BE27A00001026001000054030000020001BBDFE99C",
        after: ANSWERED,
    },
    Row {
        before: IN_USE,
        comes: Comes::Alike(2, 0, 32_767, LINK_CHECK),
        wanted: "00231100000000000000B10000C35033BE27A0000102600100005403000002FE02E2BABF85",
        after: ANSWERED,
    },
    Row {
        before: IN_USE,
        comes: Comes::Alike(32, 0, -20, LINK_CHECK),
        wanted: "00231100000000000000B10000C35033BE27A00001026001000054030000020F20F4D57FD4",
        after: ANSWERED,
    },
    Row {
        before: IN_USE,
        comes: Comes::Alike(1, 0, -81, LINK_CHECK),
        wanted: "00231100000000000000B10000C35033BE27A00001026001000054030000020001BBDFE99C",
        after: ANSWERED,
    },
    Row {
        before: IN_USE,
        comes: Comes::Alike(1, 0, -76, LINK_CHECK),
        wanted: "00231100000000000000B10000C35033BE27A00001026001000054030000020101136EB6A0",
        after: ANSWERED,
    },
];
