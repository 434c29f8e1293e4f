// Records of the device that joins, before and after uplinks, and how its gateway hears it. Keys
// were made by Python's `cryptography`.
use crate::network::{FRESH, Grant, HeardBy, State};

/// The session of the join with JoinNonce 1 and DevNonce 1.
pub(super) const FIRST_SESSION: Grant = (
    1,
    (
        0x38F19F1F_7C923B7B_392DFDBE_CE201B6B,
        0x65A2E3FC_3F681266_CA0F9088_A6AD5FE4,
    ),
);

// The session of the join with JoinNonce 8193 and DevNonce 2. It has the same address.
const SAME_ADDRESS: Grant = (
    8193,
    (
        0xBB364910_9CD135B4_93E74069_35FFEE62,
        0xDABBBAC8_56FA7E09_7BCC406C_1BB2E6A6,
    ),
);

/// The first session is current and has had its uplink 0, which is counted, and nothing waits.
pub(super) const IN_USE: State = State {
    join_nonce: 1,
    in_use: Some(FIRST_SESSION),
    heard: 1,
    ..FRESH
};

/// The same after the uplink 1.
pub(super) const HEARD: State = State {
    last_up: 1,
    heard: 2,
    ..IN_USE
};

/// The same after a downlink too.
pub(super) const ANSWERED: State = State {
    next_down: 1,
    ..HEARD
};

/// The first session is current, and the one with the same address is pending.
pub(super) const WAITING: State = State {
    join_nonce: 8193,
    waiting: Some(SAME_ADDRESS),
    ..IN_USE
};

/// The session that was pending is current after its uplink 0, which is counted too.
pub(super) const SWITCHED: State = State {
    join_nonce: 8193,
    in_use: Some(SAME_ADDRESS),
    heard: 2,
    ..FRESH
};
