// Commands that come to a core, also at a moment at which a window is due, and the decisions that
// are taken. The last decision before has the number 6.
use crate::fixture::{JOINER, REQUEST_0, REQUEST_1, REQUEST_2};
use crate::network::{Asked, Comes};
use crate::session_core_tests::core_script::{Event, Step};
use lw_types::Refusal;
use session_core::Outcome;

// A confirmed item of one byte under tag 9.
const ITEM: Asked = Asked {
    application: 3,
    dev_eui: 50,
    tag: 9,
    port: 5,
    confirmed: true,
    len: 1,
};

// The gateway B1 hears a frame of no device.
const B1_HEARS: Event = Event::Copy(0xB1, 868_100_000, 5);

// Each command has its turn and its outcome; out of memory has no outcome.
pub(super) const TURNS: &[Step] = &[
    Step::Core(8, 6),
    Step::At(0, Event::Ask(Comes::Device(50)), (0, 1, None), 0),
    Step::At(
        0,
        Event::Ask(Comes::Device(50)),
        (1, 1, Some(Refusal::DevEuiTaken)),
        0,
    ),
    Step::At(
        0,
        Event::Ask(Comes::Item(Asked {
            dev_eui: 51,
            ..ITEM
        })),
        (1, 1, Some(Refusal::UnknownDevEui)),
        0,
    ),
    Step::At(
        0,
        Event::Ask(Comes::Mac(3, 50, "02")),
        (1, 1, Some(Refusal::BadMac)),
        0,
    ),
    Step::At(
        0,
        Event::Ask(Comes::Item(Asked {
            dev_eui: 50,
            ..ITEM
        })),
        (1, 2, None),
        0,
    ),
    Step::At(0, Event::Ask(Comes::Mac(3, 50, "06")), (2, 3, None), 0),
    Step::At(
        0,
        Event::Starve(Comes::Device(50)),
        (3, 3, Some(Refusal::DevEuiTaken)),
        0,
    ),
    Step::At(
        0,
        Event::Starve(Comes::Device(51)),
        (3, 3, Some(Refusal::OutOfMemory)),
        0,
    ),
    Step::At(0, Event::Miss, (3, 3, Some(Refusal::OutOfMemory)), 0),
    Step::Outcome(0, Outcome::Decided(7)),
    Step::Outcome(1, Outcome::Refused(Refusal::DevEuiTaken)),
    Step::Outcome(2, Outcome::Refused(Refusal::UnknownDevEui)),
    Step::Outcome(3, Outcome::Refused(Refusal::BadMac)),
    Step::Outcome(4, Outcome::Decided(8)),
    Step::Outcome(5, Outcome::Decided(9)),
    Step::Outcome(6, Outcome::Refused(Refusal::DevEuiTaken)),
    Step::Outcomes(7),
];

// A frame of no device is due at 200 ms, and has its outcome before that of what comes then.
pub(super) const DUE: &[Step] = &[
    Step::Core(8, 6),
    Step::At(0, Event::Ask(Comes::Device(50)), (0, 1, None), 0),
    Step::At(0, B1_HEARS, (1, 1, None), 0),
    Step::At(200, Event::Ask(Comes::Device(51)), (1, 2, None), 1),
    Step::Outcome(1, Outcome::Refused(Refusal::UnknownDevAddr)),
    Step::Outcome(2, Outcome::Decided(8)),
    Step::Outcomes(3),
    Step::Core(8, 6),
    Step::At(0, Event::Ask(Comes::Device(50)), (0, 1, None), 0),
    Step::At(0, B1_HEARS, (1, 1, None), 0),
    Step::At(
        200,
        Event::Ask(Comes::Item(Asked {
            dev_eui: 50,
            ..ITEM
        })),
        (1, 2, None),
        1,
    ),
    Step::Outcome(1, Outcome::Refused(Refusal::UnknownDevAddr)),
    Step::Outcome(2, Outcome::Decided(8)),
    Step::Outcomes(3),
    Step::Core(8, 6),
    Step::At(0, Event::Ask(Comes::Device(50)), (0, 1, None), 0),
    Step::At(0, B1_HEARS, (1, 1, None), 0),
    Step::At(
        200,
        Event::Ask(Comes::Mac(3, 50, "02")),
        (1, 1, Some(Refusal::BadMac)),
        1,
    ),
    Step::Outcome(1, Outcome::Refused(Refusal::UnknownDevAddr)),
    Step::Outcome(2, Outcome::Refused(Refusal::BadMac)),
    Step::Outcomes(3),
    Step::Core(8, 6),
    Step::At(0, Event::Ask(Comes::Device(50)), (0, 1, None), 0),
    Step::At(0, B1_HEARS, (1, 1, None), 0),
    Step::At(
        200,
        Event::Starve(Comes::Device(50)),
        (1, 1, Some(Refusal::DevEuiTaken)),
        1,
    ),
    Step::Outcome(1, Outcome::Refused(Refusal::UnknownDevAddr)),
    Step::Outcome(2, Outcome::Refused(Refusal::DevEuiTaken)),
    Step::Outcomes(3),
    Step::Core(8, 6),
    Step::At(0, Event::Ask(Comes::Device(50)), (0, 1, None), 0),
    Step::At(0, B1_HEARS, (1, 1, None), 0),
    Step::At(
        200,
        Event::Starve(Comes::Device(51)),
        (1, 1, Some(Refusal::OutOfMemory)),
        1,
    ),
    Step::Outcome(1, Outcome::Refused(Refusal::UnknownDevAddr)),
    Step::Outcomes(2),
    Step::Core(8, 6),
    Step::At(0, Event::Ask(Comes::Device(50)), (0, 1, None), 0),
    Step::At(0, B1_HEARS, (1, 1, None), 0),
    Step::At(200, Event::Miss, (1, 1, Some(Refusal::OutOfMemory)), 1),
    Step::Outcome(1, Outcome::Refused(Refusal::UnknownDevAddr)),
    Step::Outcomes(2),
];

// Decisions are made and taken in order.
pub(super) const TAKEN: &[Step] = &[
    Step::Core(8, 6),
    Step::At(0, Event::Ask(Comes::Device(50)), (0, 1, None), 0),
    Step::At(
        0,
        Event::Ask(Comes::Device(50)),
        (1, 1, Some(Refusal::DevEuiTaken)),
        0,
    ),
    Step::At(0, Event::Ask(Comes::Device(40)), (1, 2, None), 0),
    Step::At(0, Event::Ask(Comes::Device(30)), (2, 3, None), 0),
    Step::Counts(3, 9, 3, 3),
    Step::Take(2, 7, 9),
    Step::Take(64, 9, 10),
    Step::Take(1, 10, 10),
    // a device joins after its provisioning
    Step::Core(8, 6),
    Step::At(
        0,
        Event::Ask(Comes::Frame(REQUEST_1)),
        (0, 0, Some(Refusal::UnknownDevEui)),
        0,
    ),
    Step::DevNonce(None),
    Step::At(0, Event::Ask(Comes::Device(50)), (0, 1, None), 0),
    Step::DevNonce(None),
    Step::At(0, Event::Ask(Comes::Device(JOINER)), (1, 2, None), 0),
    Step::DevNonce(None),
    Step::At(0, Event::Ask(Comes::Frame(REQUEST_1)), (2, 3, None), 0),
    Step::DevNonce(Some(1)),
    Step::At(
        0,
        Event::Ask(Comes::Frame(REQUEST_1)),
        (3, 3, Some(Refusal::DevNonceUsed)),
        0,
    ),
    Step::DevNonce(Some(1)),
    Step::At(0, Event::Ask(Comes::Frame(REQUEST_2)), (3, 4, None), 0),
    Step::DevNonce(Some(2)),
    Step::Take(64, 7, 11),
    // the copies of a Join-Request make one decision
    Step::Core(8, 6),
    Step::At(0, Event::Ask(Comes::Device(JOINER)), (0, 1, None), 0),
    Step::At(10, Event::Request(0xB1), (1, 1, None), 0),
    Step::At(20, Event::Request(0xB2), (1, 1, None), 0),
    Step::At(
        210,
        Event::Ask(Comes::Item(Asked {
            dev_eui: JOINER,
            ..ITEM
        })),
        (1, 3, None),
        1,
    ),
    Step::Outcome(0, Outcome::Decided(7)),
    Step::Outcome(1, Outcome::Decided(8)),
    Step::Outcome(2, Outcome::Decided(9)),
    Step::Outcomes(3),
    Step::TakeJoin,
    // the copies of an uplink that come within 200 ms make one decision, and a later one makes a
    // repeat
    Step::Core(8, 6),
    Step::At(0, Event::Ask(Comes::Device(JOINER)), (0, 1, None), 0),
    Step::At(0, Event::Ask(Comes::Frame(REQUEST_0)), (1, 2, None), 0),
    Step::At(0, Event::Uplink(0xB1), (2, 2, None), 0),
    Step::At(199, Event::Uplink(0xB2), (2, 2, None), 0),
    Step::At(200, Event::Uplink(0xB3), (2, 3, None), 1),
    Step::At(400, Event::Time, (3, 3, None), 1),
    Step::Outcome(2, Outcome::Decided(9)),
    Step::Outcome(3, Outcome::Refused(Refusal::Repeat)),
    Step::Outcomes(4),
    Step::TakeUplink,
];
