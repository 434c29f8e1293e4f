// Joins that a table decides. Frames, keys and MICs were made by Python's `cryptography`.
use crate::decisions::records::{FIRST_SESSION, IN_USE};
use crate::fixture::{REQUEST_0, REQUEST_1, REQUEST_2, REQUEST_3};
use crate::network::{Comes, FRESH, Grant, Refused, Row, State};
use lw_types::Refusal;

// Join-Requests with the DevNonces 8, 9, 10 and 65535.
const REQUEST_8: &str = "00080706050403020118171615141312110800F078C661";

const REQUEST_9: &str = "00080706050403020118171615141312110900C4137B0B";

const REQUEST_10: &str = "00080706050403020118171615141312110A009F3E5DD9";

const REQUEST_65535: &str = "0008070605040302011817161514131211FFFFC35BA690";

// With DevNonce 9 and a wrong MIC.
const REQUEST_9_UNSIGNED: &str = "00080706050403020118171615141312110900C4137B0A";

// With DevNonce 1, of JoinEUI 0102030405060709, with a right MIC and with a wrong one.
const OTHER_SERVER: &str = "00090706050403020118171615141312110100FD3D6E86";

const OTHER_SERVER_UNSIGNED: &str = "00090706050403020118171615141312110100FD3D6E87";

// With DevNonce 1, from DevEUI 1112131415161719.
const OTHER_DEVICE: &str = "00080706050403020119171615141312110100B2193F70";

// The second grant to the device at slot 0, by a request with DevNonce 2.
const SECOND: Grant = (
    2,
    (
        0xB3F5B2E8_F6CE1BB7_981DC09A_05A84E06,
        0x55118CCB_D859392A_0EA1DE08_20BE9A90,
    ),
);

const SECOND_ACCEPT: &str = concat!(
    "00351100000000000000B10000C35033BE27A005050620E9DCDB66A86D38997D48D88273C7ED8A8B605060BB",
    "9D8710FE91975410E47231",
);

// The device at slot 0 after its first join, with DevNonce 1.
const JOINED: State = State {
    last_dev_nonce: Some(1),
    join_nonce: 1,
    waiting: Some(FIRST_SESSION),
    ..FRESH
};

// The same, with the session current.
const IN_USE_7: State = State {
    last_dev_nonce: Some(1),
    last_up: 7,
    next_down: 4,
    ..IN_USE
};

// The device at slot 2 was granted the JoinNonce 5.
const AFTER_5: State = State {
    slot: 2,
    join_nonce: 5,
    ..FRESH
};

// Joins at slots, the second of a device with RX1DROffset 2: the accepts hold DevAddr 54000001 (two
// of them), 54002001, 54007FFF, 54006000, 54006001, 54001FFE and 54001FFF.
pub(super) const JOINS: &[Row] = &[
    Row {
        before: FRESH,
        comes: Comes::Frame(REQUEST_1),
        wanted: concat!(
            "00351100000000000000B10000C35033BE27A005050620964FABE971240AB8E37F72AEFDC360B6FD3C4B",
            "E3FB883149AF03F6CC89235E53",
        ),
        after: JOINED,
    },
    Row {
        before: State {
            rx1_offset: 2,
            ..FRESH
        },
        comes: Comes::Frame(REQUEST_1),
        wanted: concat!(
            "00351100000000000000B10000C35033BE27A005050620E30C11C6419D89BCC14B7880E38EBE84588DCF",
            "D542DC4AAC11633F17EAA0201D",
        ),
        after: State {
            rx1_offset: 2,
            ..JOINED
        },
    },
    Row {
        before: State { slot: 1, ..FRESH },
        comes: Comes::Frame(REQUEST_1),
        wanted: concat!(
            "00351100000000000000B10000C35033BE27A005050620CB96C89FFBCCFC048F8C7276F06BA23D0B7364",
            "F241C091C2947E0FD63FB1A48B",
        ),
        after: State { slot: 1, ..JOINED },
    },
    Row {
        before: State {
            slot: 3,
            join_nonce: 8190,
            ..FRESH
        },
        comes: Comes::Frame(REQUEST_1),
        wanted: concat!(
            "00351100000000000000B10000C35033BE27A0050506200B35879F5AB59C4326F8D581C77AFBCB7BA8E2",
            "D307B2507D232A78458990AA64",
        ),
        after: State {
            slot: 3,
            last_dev_nonce: Some(1),
            join_nonce: 8191,
            waiting: Some((
                8191,
                (
                    0x59F47A98_E1E008D3_68B042A5_1D90CF75,
                    0x015C5C36_2395DDA1_0BD2B7F8_8EE5C42E,
                ),
            )),
            ..FRESH
        },
    },
    Row {
        before: State {
            slot: 3,
            join_nonce: 8191,
            ..FRESH
        },
        comes: Comes::Frame(REQUEST_1),
        wanted: concat!(
            "00351100000000000000B10000C35033BE27A005050620762EF4215A440EF2208EE982183CDFA91CFFE3",
            "D3495387DFFAA04C6C9F35A2E6",
        ),
        after: State {
            slot: 3,
            last_dev_nonce: Some(1),
            join_nonce: 8192,
            waiting: Some((
                8192,
                (
                    0x5D4805B6_9AB01580_82582073_47F64768,
                    0x3D86124B_5B60C44D_205F51B4_05265FCF,
                ),
            )),
            ..FRESH
        },
    },
    Row {
        before: State {
            slot: 3,
            join_nonce: 8192,
            ..FRESH
        },
        comes: Comes::Frame(REQUEST_1),
        wanted: concat!(
            "00351100000000000000B10000C35033BE27A0050506202C270FD61072C4D5A9B2C32ECDF2AD907D935A",
            "954135AFE7D85090F72B762CFD",
        ),
        after: State {
            slot: 3,
            last_dev_nonce: Some(1),
            join_nonce: 8193,
            waiting: Some((
                8193,
                (
                    0x89BCC53E_33A004E8_F73CFC47_B8BA1AAB,
                    0xD7E2DF1F_ECC540BF_4D343B26_01E16DFE,
                ),
            )),
            ..FRESH
        },
    },
    Row {
        before: State {
            join_nonce: 16_777_213,
            ..FRESH
        },
        comes: Comes::Frame(REQUEST_1),
        wanted: concat!(
            "00351100000000000000B10000C35033BE27A0050506203366EB9D66F073C8776A9D3F1A97E52AFCCA0A",
            "A258421F0F1F536A5FE01DAD9B",
        ),
        after: State {
            last_dev_nonce: Some(1),
            join_nonce: 16_777_214,
            waiting: Some((
                16_777_214,
                (
                    0xCD75CF3A_68A93299_29C78B40_A1FCE4E0,
                    0xE15A3CA6_03A41117_C0E0B7F4_E3AC7C6A,
                ),
            )),
            ..FRESH
        },
    },
    Row {
        before: State {
            join_nonce: 16_777_214,
            ..FRESH
        },
        comes: Comes::Frame(REQUEST_1),
        wanted: concat!(
            "00351100000000000000B10000C35033BE27A005050620A8706ECC621E0BC6925731D114A455400EF92C",
            "F943EA4ABEF47B5F26B7CBEED7",
        ),
        after: State {
            last_dev_nonce: Some(1),
            join_nonce: 16_777_215,
            waiting: Some((
                16_777_215,
                (
                    0xD18AF941_59B77BEC_47166D7C_DD45DE94,
                    0x77815F93_33BBEEF4_E64044DF_8F8BDF7A,
                ),
            )),
            ..FRESH
        },
    },
    // a DevNonce is above the last
    Row {
        before: State {
            slot: 2,
            join_nonce: 5,
            ..FRESH
        },
        comes: Comes::Frame(REQUEST_0),
        wanted: concat!(
            "00351100000000000000B10000C35033BE27A00505062007E47E14B8B2B78253AD8E9E79EC1E7F2367E2",
            "D8E6D81813D32A56787A6A3828",
        ),
        after: State {
            slot: 2,
            last_dev_nonce: Some(0),
            join_nonce: 6,
            waiting: Some((
                6,
                (
                    0xB1AEF4E8_B1B7994D_B5328B95_7A0D7F70,
                    0x7D9E0A1B_BD5DE076_E09BE3BD_E5F4E43F,
                ),
            )),
            ..FRESH
        },
    },
    Row {
        before: State {
            slot: 2,
            join_nonce: 5,
            ..FRESH
        },
        comes: Comes::Frame(REQUEST_65535),
        wanted: concat!(
            "00351100000000000000B10000C35033BE27A00505062007E47E14B8B2B78253AD8E9E79EC1E7F2367E2",
            "D8E6D81813D32A56787A6A3828",
        ),
        after: State {
            slot: 2,
            last_dev_nonce: Some(65_535),
            join_nonce: 6,
            waiting: Some((
                6,
                (
                    0xEEDC2DE3_F1BDBB44_FB1C26D2_6C0F914C,
                    0x22D7D58D_C47873C7_0FBDA307_87862291,
                ),
            )),
            ..FRESH
        },
    },
    Row {
        before: State {
            last_dev_nonce: Some(0),
            slot: 2,
            join_nonce: 5,
            ..FRESH
        },
        comes: Comes::Frame(REQUEST_1),
        wanted: concat!(
            "00351100000000000000B10000C35033BE27A00505062007E47E14B8B2B78253AD8E9E79EC1E7F2367E2",
            "D8E6D81813D32A56787A6A3828",
        ),
        after: State {
            slot: 2,
            last_dev_nonce: Some(1),
            join_nonce: 6,
            waiting: Some((
                6,
                (
                    0xB53B370A_FEC006F5_8DF87DCD_384307FB,
                    0xBFDD2C76_84E04013_CABBD2DA_E1A234A8,
                ),
            )),
            ..FRESH
        },
    },
    Row {
        before: State {
            last_dev_nonce: Some(9),
            slot: 2,
            join_nonce: 5,
            ..FRESH
        },
        comes: Comes::Frame(REQUEST_10),
        wanted: concat!(
            "00351100000000000000B10000C35033BE27A00505062007E47E14B8B2B78253AD8E9E79EC1E7F2367E2",
            "D8E6D81813D32A56787A6A3828",
        ),
        after: State {
            slot: 2,
            last_dev_nonce: Some(10),
            join_nonce: 6,
            waiting: Some((
                6,
                (
                    0xC30F5A58_D2F8EEA0_096ECD43_97BBCD8D,
                    0x3184EE49_8F6B3D9B_7E261D99_63585AC7,
                ),
            )),
            ..FRESH
        },
    },
    Row {
        before: State {
            last_dev_nonce: Some(65_534),
            slot: 2,
            join_nonce: 5,
            ..FRESH
        },
        comes: Comes::Frame(REQUEST_65535),
        wanted: concat!(
            "00351100000000000000B10000C35033BE27A00505062007E47E14B8B2B78253AD8E9E79EC1E7F2367E2",
            "D8E6D81813D32A56787A6A3828",
        ),
        after: State {
            slot: 2,
            last_dev_nonce: Some(65_535),
            join_nonce: 6,
            waiting: Some((
                6,
                (
                    0xEEDC2DE3_F1BDBB44_FB1C26D2_6C0F914C,
                    0x22D7D58D_C47873C7_0FBDA307_87862291,
                ),
            )),
            ..FRESH
        },
    },
    // a pending session is replaced, and the current one stays
    Row {
        before: IN_USE_7,
        comes: Comes::Frame(REQUEST_2),
        wanted: SECOND_ACCEPT,
        after: State {
            last_dev_nonce: Some(2),
            join_nonce: 2,
            waiting: Some(SECOND),
            ..IN_USE_7
        },
    },
    Row {
        before: State {
            last_dev_nonce: Some(2),
            join_nonce: 2,
            waiting: Some(SECOND),
            ..IN_USE_7
        },
        comes: Comes::Frame(REQUEST_3),
        wanted: concat!(
            "00351100000000000000B10000C35033BE27A0050506209BCDDAD6414BDE650355FD82918AA76CA06928",
            "6400973AA76A74E26C2373177B",
        ),
        after: State {
            last_dev_nonce: Some(3),
            join_nonce: 3,
            waiting: Some((
                3,
                (
                    0x3E976657_77D9B634_042140CC_84CAD5AA,
                    0xD4C57878_42467841_84564033_E36C909B,
                ),
            )),
            ..IN_USE_7
        },
    },
    // a refused join leaves what was granted (`REFUSALS`)
    Row {
        before: State {
            last_dev_nonce: Some(1),
            join_nonce: 1,
            ..FRESH
        },
        comes: Comes::Frame(REQUEST_2),
        wanted: SECOND_ACCEPT,
        after: State {
            last_dev_nonce: Some(2),
            join_nonce: 2,
            waiting: Some(SECOND),
            ..FRESH
        },
    },
    // the accept leaves by the gateway that heard the request best: the greatest SNR is, then the
    // greatest RSSI, then the smallest EUI
    // B1
    Row {
        before: FRESH,
        comes: Comes::Three(
            (2, 2, -20, -95),
            (1, 1, -20, -95),
            (3, 3, -20, -95),
            REQUEST_1,
        ),
        wanted: concat!(
            "00351100000000000000B10000C35033BE27A001050620964FABE971240AB8E37F72AEFDC360B6FD3C4B",
            "E3FB883149AF03F6CC89235E53",
        ),
        after: JOINED,
    },
    // B2
    Row {
        before: FRESH,
        comes: Comes::Three(
            (2, 2, -20, -95),
            (1, 1, -20, -96),
            (3, 3, -21, -90),
            REQUEST_1,
        ),
        wanted: concat!(
            "00351100000000000000B2000186A033C134E002050620964FABE971240AB8E37F72AEFDC360B6FD3C4B",
            "E3FB883149AF03F6CC89235E53",
        ),
        after: JOINED,
    },
    // B3
    Row {
        before: FRESH,
        comes: Comes::Three(
            (1, 1, -20, -20),
            (2, 2, 5, -120),
            (3, 3, 6, -130),
            REQUEST_1,
        ),
        wanted: concat!(
            "00351100000000000000B3000249F033C4422003050620964FABE971240AB8E37F72AEFDC360B6FD3C4B",
            "E3FB883149AF03F6CC89235E53",
        ),
        after: JOINED,
    },
    // B4
    Row {
        before: FRESH,
        comes: Comes::Three(
            (5, 5, -20, -95),
            (4, 4, -20, -95),
            (0, 0, -20, -97),
            REQUEST_1,
        ),
        wanted: concat!(
            "00351100000000000000B400030D4033BE27A004050620964FABE971240AB8E37F72AEFDC360B6FD3C4B",
            "E3FB883149AF03F6CC89235E53",
        ),
        after: JOINED,
    },
];

// A DevNonce is not above the last.
pub(super) const REFUSALS: &[Refused] = &[
    (
        State {
            last_dev_nonce: Some(0),
            ..AFTER_5
        },
        Comes::Frame(REQUEST_0),
        Refusal::DevNonceUsed,
    ),
    (
        State {
            last_dev_nonce: Some(9),
            ..AFTER_5
        },
        Comes::Frame(REQUEST_8),
        Refusal::DevNonceUsed,
    ),
    (
        State {
            last_dev_nonce: Some(9),
            ..AFTER_5
        },
        Comes::Frame(REQUEST_9),
        Refusal::DevNonceUsed,
    ),
    (
        State {
            last_dev_nonce: Some(65_535),
            ..AFTER_5
        },
        Comes::Frame(REQUEST_65535),
        Refusal::DevNonceUsed,
    ),
    // bytes that are no join
    (AFTER_5, Comes::Frame(""), Refusal::Malformed),
    (
        AFTER_5,
        Comes::Frame("000807060504030201181716151413121101009E7419"),
        Refusal::Malformed,
    ),
    (
        AFTER_5,
        Comes::Frame("000807060504030201181716151413121101009E7419CE00"),
        Refusal::Malformed,
    ),
    (
        AFTER_5,
        Comes::Frame("010807060504030201181716151413121101009E7419CE"),
        Refusal::Malformed,
    ),
    (
        AFTER_5,
        Comes::Frame("40F17DBE4900020001954378762B11FF0D"),
        Refusal::UnknownDevAddr,
    ),
    (
        AFTER_5,
        Comes::Frame("20964FABE971240AB8E37F72AEFDC360B6FD3C4BE3FB883149AF03F6CC89235E53"),
        Refusal::NotServed,
    ),
    (
        AFTER_5,
        Comes::Frame("C00807060504030201181716151413121101009E7419CE"),
        Refusal::NotServed,
    ),
    (AFTER_5, Comes::Frame(OTHER_DEVICE), Refusal::UnknownDevEui),
    (AFTER_5, Comes::Frame(OTHER_SERVER), Refusal::WrongJoinEui),
    (AFTER_5, Comes::Frame(REQUEST_9_UNSIGNED), Refusal::BadMic),
    // of two causes the first is returned
    (
        AFTER_5,
        Comes::Frame(OTHER_SERVER_UNSIGNED),
        Refusal::WrongJoinEui,
    ),
    (
        State {
            last_dev_nonce: Some(9),
            ..AFTER_5
        },
        Comes::Frame(REQUEST_9_UNSIGNED),
        Refusal::BadMic,
    ),
    (
        State {
            last_dev_nonce: Some(9),
            join_nonce: 16_777_215,
            ..AFTER_5
        },
        Comes::Frame(REQUEST_9),
        Refusal::DevNonceUsed,
    ),
    (
        State {
            last_dev_nonce: Some(9),
            join_nonce: 16_777_215,
            ..AFTER_5
        },
        Comes::Frame(REQUEST_10),
        Refusal::JoinNonceSpent,
    ),
    (
        State {
            join_nonce: 16_777_215,
            ..AFTER_5
        },
        Comes::Frame(REQUEST_0),
        Refusal::JoinNonceSpent,
    ),
    // a join that is refused grants nothing
    (
        State {
            last_dev_nonce: Some(1),
            join_nonce: 1,
            ..FRESH
        },
        Comes::Frame(REQUEST_1),
        Refusal::DevNonceUsed,
    ),
    (
        State {
            last_dev_nonce: Some(1),
            join_nonce: 1,
            ..FRESH
        },
        Comes::Frame(REQUEST_9_UNSIGNED),
        Refusal::BadMic,
    ),
    (
        State {
            last_dev_nonce: Some(1),
            join_nonce: 1,
            ..FRESH
        },
        Comes::Frame(OTHER_SERVER),
        Refusal::WrongJoinEui,
    ),
];
