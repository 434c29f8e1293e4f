// The channels on which frames are accepted. Frames, keys and MICs were made by Python's
// `cryptography`.
use crate::decisions::records::{ANSWERED, FIRST_SESSION, HEARD, IN_USE, SWITCHED, WAITING};
use crate::fixture::{REQUEST_1, REQUEST_2};
use crate::network::{Comes, FRESH, Grant, Refused, Row, State};
use devices::Channels;
use lw_types::Refusal;

/// The first channels and those that an accept adds, and their frequencies as they are in frames
/// for gateways.
pub(super) const FIRST: [(u32, &str); 3] = [
    (868_100_000, "33BE27A0"),
    (868_300_000, "33C134E0"),
    (868_500_000, "33C44220"),
];

pub(super) const LATER: [(u32, &str); 5] = [
    (867_100_000, "33AEE560"),
    (867_300_000, "33B1F2A0"),
    (867_500_000, "33B4FFE0"),
    (867_700_000, "33B80D20"),
    (867_900_000, "33BB1A60"),
];

// The uplink 1 of the first session: confirmed and empty, confirmed with AB on port 1, and
// unconfirmed with that.
pub(super) const CONFIRMED: &str = "8001000054000100F640816E";

const CONFIRMED_AB: &str = "8001000054000100012375FB0C64";

const UNCONFIRMED_AB: &str = "40010000540001000123FB060E95";

// Its uplink 0, empty: unconfirmed and confirmed.
const REPEAT: &str = "40010000540000001BF1C7F9";

const CONFIRMED_REPEAT: &str = "80010000540000001390E22F";

// The uplink 0 with AB on port 1, of the session with the same address, and of the one that the
// second join grants.
const OTHER_FIRST: &str = "4001000054000000017CC4C2F804";

const SECOND_FIRST: &str = "40020000540000000104F0470207";

// A session as it was stored before accepts named channels.
pub(super) const ON_THREE: State = State {
    channels: Channels::Three,
    ..IN_USE
};

const SECOND: Grant = (
    2,
    (
        0xB3F5B2E8_F6CE1BB7_981DC09A_05A84E06,
        0x55118CCB_D859392A_0EA1DE08_20BE9A90,
    ),
);

// The same, and the session of the second join is pending.
const JOINED_ANEW: State = State {
    last_dev_nonce: Some(2),
    join_nonce: 2,
    waiting: Some(SECOND),
    ..ON_THREE
};

pub(super) const CHANNELS: &[Row] = &[
    // an uplink on a later channel is handed on, and answered there
    Row {
        before: IN_USE,
        comes: Comes::On(867_100_000, 5, CONFIRMED_AB),
        wanted: "up 1112131415161718 1 1 1 AB 1 00000000000000B1 867100000 5 -20 -95\n\
            00201100000000000000B10000C35033AEE5600501026001000054200000C46172EF",
        after: ANSWERED,
    },
    // only the channel of the copy that was heard best counts
    Row {
        before: IN_USE,
        comes: Comes::Best(867_900_000, 868_100_000, UNCONFIRMED_AB),
        wanted: "up 1112131415161718 1 1 1 AB 3 00000000000000B1 867900000 5 -20 -95",
        after: HEARD,
    },
    Row {
        before: ON_THREE,
        comes: Comes::Best(868_500_000, 867_100_000, UNCONFIRMED_AB),
        wanted: "up 1112131415161718 1 1 1 AB 3 00000000000000B1 868500000 5 -20 -95",
        after: State {
            channels: Channels::Three,
            ..HEARD
        },
    },
    Row {
        before: FRESH,
        comes: Comes::Best(868_300_000, 867_100_000, REQUEST_1),
        wanted: "00351100000000000000B10000C35033C134E0050506\
            20964FABE971240AB8E37F72AEFDC360B6FD3C4BE3FB883149AF03F6CC89235E53",
        after: State {
            last_dev_nonce: Some(1),
            join_nonce: 1,
            waiting: Some(FIRST_SESSION),
            ..FRESH
        },
    },
    // a session of three channels continues on these
    Row {
        before: ON_THREE,
        comes: Comes::On(868_300_000, 5, CONFIRMED_REPEAT),
        wanted: "00201100000000000000B10000C35033C134E00501026001000054200000C46172EF",
        after: State {
            next_down: 1,
            ..ON_THREE
        },
    },
    // its device joins again: the pending session has eight
    Row {
        before: State {
            last_dev_nonce: Some(1),
            ..ON_THREE
        },
        comes: Comes::On(868_500_000, 0, REQUEST_2),
        wanted: "00351100000000000000B10000C35033C44220000506\
            20E9DCDB66A86D38997D48D88273C7ED8A8B605060BB9D8710FE91975410E47231",
        after: JOINED_ANEW,
    },
    Row {
        before: JOINED_ANEW,
        comes: Comes::On(867_500_000, 2, SECOND_FIRST),
        wanted: "up 1112131415161718 2 0 1 AB 1 00000000000000B1 867500000 2 -20 -95",
        after: State {
            last_dev_nonce: Some(2),
            join_nonce: 2,
            in_use: Some(SECOND),
            heard: 2,
            ..FRESH
        },
    },
    // of two sessions with one address, the channels of the one that fits count
    Row {
        before: State {
            channels: Channels::Three,
            ..WAITING
        },
        comes: Comes::On(867_700_000, 5, OTHER_FIRST),
        wanted: "up 1112131415161718 8193 0 1 AB 1 00000000000000B1 867700000 5 -20 -95",
        after: SWITCHED,
    },
    Row {
        before: State {
            waiting_channels: Channels::Three,
            ..WAITING
        },
        comes: Comes::On(867_700_000, 5, UNCONFIRMED_AB),
        wanted: "up 1112131415161718 1 1 1 AB 1 00000000000000B1 867700000 5 -20 -95",
        after: State {
            last_up: 1,
            waiting_channels: Channels::Three,
            heard: 2,
            ..WAITING
        },
    },
    Row {
        before: State {
            waiting_channels: Channels::Three,
            ..WAITING
        },
        comes: Comes::On(868_100_000, 5, OTHER_FIRST),
        wanted: "up 1112131415161718 8193 0 1 AB 1 00000000000000B1 868100000 5 -20 -95",
        after: State {
            channels: Channels::Three,
            ..SWITCHED
        },
    },
];

pub(super) const REFUSALS: &[Refused] = &[
    // an uplink of a session of three channels
    (
        ON_THREE,
        Comes::On(867_100_000, 5, CONFIRMED_AB),
        Refusal::UnknownChannel,
    ),
    (
        ON_THREE,
        Comes::Best(867_100_000, 868_100_000, UNCONFIRMED_AB),
        Refusal::UnknownChannel,
    ),
    (
        State {
            channels: Channels::Three,
            ..WAITING
        },
        Comes::On(867_700_000, 5, UNCONFIRMED_AB),
        Refusal::UnknownChannel,
    ),
    (
        State {
            waiting_channels: Channels::Three,
            ..WAITING
        },
        Comes::On(867_700_000, 5, OTHER_FIRST),
        Refusal::UnknownChannel,
    ),
    // before the test whether it comes again
    (
        ON_THREE,
        Comes::On(867_300_000, 5, REPEAT),
        Refusal::UnknownChannel,
    ),
    (
        ON_THREE,
        Comes::On(867_300_000, 5, CONFIRMED_REPEAT),
        Refusal::UnknownChannel,
    ),
    (ON_THREE, Comes::On(868_300_000, 5, REPEAT), Refusal::Repeat),
    (IN_USE, Comes::On(867_300_000, 5, REPEAT), Refusal::Repeat),
    // after its layout, its address, its counter and its MIC
    (
        ON_THREE,
        Comes::On(867_100_000, 5, "4001000054000100445EC5"),
        Refusal::Malformed,
    ),
    (
        ON_THREE,
        Comes::On(867_100_000, 5, "40010000540101000200F3329096B6"),
        Refusal::MacBoth,
    ),
    (
        ON_THREE,
        Comes::On(867_100_000, 5, "40020000540001005C6E2EB7"),
        Refusal::UnknownDevAddr,
    ),
    (
        ON_THREE,
        Comes::On(867_100_000, 5, "4001000054000140ACA26F2E"),
        Refusal::CounterGap,
    ),
    (
        ON_THREE,
        Comes::On(867_100_000, 5, "4001000054000100445EC543"),
        Refusal::BadMic,
    ),
    // a Join-Request
    (
        FRESH,
        Comes::Best(867_100_000, 868_100_000, REQUEST_1),
        Refusal::UnknownChannel,
    ),
    // after its layout, before its device, its server, its MIC and its nonces
    (
        FRESH,
        Comes::On(
            867_100_000,
            5,
            "000807060504030201181716151413121101009E7419",
        ),
        Refusal::Malformed,
    ),
    (
        FRESH,
        Comes::On(
            867_100_000,
            5,
            "C00807060504030201181716151413121101009E7419CE",
        ),
        Refusal::NotServed,
    ),
    (
        FRESH,
        Comes::On(
            867_100_000,
            5,
            "00080706050403020119171615141312110100B2193F70",
        ),
        Refusal::UnknownChannel,
    ),
    (
        FRESH,
        Comes::On(
            867_100_000,
            5,
            "00090706050403020118171615141312110100FD3D6E86",
        ),
        Refusal::UnknownChannel,
    ),
    (
        FRESH,
        Comes::On(
            867_100_000,
            5,
            "000807060504030201181716151413121101009E7419CF",
        ),
        Refusal::UnknownChannel,
    ),
    (
        State {
            last_dev_nonce: Some(1),
            join_nonce: 16_777_215,
            ..FRESH
        },
        Comes::On(867_100_000, 5, REQUEST_1),
        Refusal::UnknownChannel,
    ),
    (
        State {
            join_nonce: 16_777_215,
            ..FRESH
        },
        Comes::On(867_100_000, 5, REQUEST_1),
        Refusal::UnknownChannel,
    ),
];
