// The limits of a core: kept outcomes, open windows, gathered copies, and waiting decisions.
use crate::fixture::REQUEST_1;
use crate::network::{Asked, Comes};
use crate::session_core_tests::core_script::{Event, Step};
use lw_types::Refusal;
use session_core::Outcome;

// An item of one byte for the device 0.
const ITEM: Asked = Asked {
    application: 3,
    dev_eui: 0,
    tag: 9,
    port: 5,
    confirmed: true,
    len: 1,
};

// The gateway B1 hears a frame of no device, which is among those of a crowd.
const B1_HEARS: Event = Event::Copy(0xB1, 868_100_000, 5);

// The last 64 outcomes are kept.
pub(super) const OUTCOMES: &[Step] = &[
    Step::Core(8, 0),
    Step::At(0, Event::Ask(Comes::Device(50)), (0, 1, None), 0),
    Step::Outcome(0, Outcome::Decided(1)),
    Step::Outcomes(1),
    Step::Again(
        63,
        Event::Ask(Comes::Device(50)),
        (1, 1, Some(Refusal::DevEuiTaken)),
    ),
    Step::Outcome(0, Outcome::Decided(1)),
    Step::Outcomes(64),
    Step::At(
        0,
        Event::Ask(Comes::Device(50)),
        (1, 1, Some(Refusal::DevEuiTaken)),
        0,
    ),
    Step::Outcome(0, Outcome::Refused(Refusal::DevEuiTaken)),
    Step::Outcomes(64),
    Step::At(
        0,
        Event::Ask(Comes::Device(50)),
        (1, 1, Some(Refusal::DevEuiTaken)),
        0,
    ),
    Step::Outcome(0, Outcome::Refused(Refusal::DevEuiTaken)),
    Step::Outcomes(64),
];

// The 1,025th window doesn't open.
pub(super) const WINDOWS: &[Step] = &[
    Step::Core(8, 0),
    Step::Crowd(1023, 1, None),
    Step::At(200, Event::Time, (0, 0, None), 1023),
    Step::Core(8, 0),
    Step::Crowd(1024, 1, None),
    Step::At(200, Event::Time, (0, 0, None), 1024),
    Step::Core(8, 0),
    Step::Crowd(1025, 1, Some(Refusal::WindowsFull)),
    Step::At(200, Event::Time, (0, 0, None), 1024),
    // a copy of a frame whose window is open is taken; a new frame is taken after the windows are
    // closed
    Step::Core(8, 0),
    Step::Crowd(1025, 1, Some(Refusal::WindowsFull)),
    Step::At(0, B1_HEARS, (0, 0, None), 0),
    Step::At(
        199,
        Event::Uplink(0xB1),
        (0, 0, Some(Refusal::WindowsFull)),
        0,
    ),
    Step::At(200, Event::Uplink(0xB1), (0, 0, None), 1024),
    Step::At(400, Event::Time, (0, 0, None), 1),
    // the 33rd copy of a frame is refused
    Step::Core(8, 0),
    Step::Crowd(1, 32, None),
    Step::Core(8, 0),
    Step::Crowd(1, 33, Some(Refusal::CopiesFull)),
];

// Decisions wait up to the limit. After that a provisioning, a join, an item, a command without
// memory and the frame of a window that is due are all refused.
pub(super) const WAITING: &[Step] = &[
    Step::Core(4096, 0),
    Step::Fill(4096),
    Step::Counts(4096, 4096, 4096, 4096),
    Step::At(
        0,
        Event::Ask(Comes::Device(5000)),
        (4096, 4096, Some(Refusal::Backlog)),
        0,
    ),
    Step::At(
        0,
        Event::Ask(Comes::Frame(REQUEST_1)),
        (4096, 4096, Some(Refusal::Backlog)),
        0,
    ),
    Step::DevNonce(None),
    Step::At(
        0,
        Event::Ask(Comes::Item(ITEM)),
        (4096, 4096, Some(Refusal::Backlog)),
        0,
    ),
    Step::At(
        0,
        Event::Starve(Comes::Device(5000)),
        (4096, 4096, Some(Refusal::Backlog)),
        0,
    ),
    Step::Empty(64),
    Step::Counts(4096, 4096, 0, 4096),
    Step::At(
        0,
        Event::Ask(Comes::Device(5000)),
        (4096, 4096, Some(Refusal::TableFull)),
        0,
    ),
    Step::Core(4096, 0),
    Step::Fill(4096),
    Step::At(0, B1_HEARS, (4096, 4096, None), 0),
    Step::Counts(4096, 4096, 4096, 4096),
    Step::At(
        200,
        Event::Ask(Comes::Mac(3, 0, "06")),
        (4096, 4096, Some(Refusal::Backlog)),
        1,
    ),
    Step::Outcome(61, Outcome::Decided(4096)),
    Step::Outcome(62, Outcome::Refused(Refusal::Backlog)),
    Step::Outcome(63, Outcome::Refused(Refusal::Backlog)),
    Step::Outcomes(64),
    Step::Take(64, 1, 65),
    Step::At(
        200,
        Event::Ask(Comes::Mac(3, 0, "06")),
        (4096, 4097, None),
        0,
    ),
    Step::Counts(4097, 4097, 4033, 4096),
];

// A refusal is returned without memory too.
pub(super) const NUMBERS: &[Step] = &[
    Step::Core(1, 0),
    Step::At(0, Event::Ask(Comes::Device(50)), (0, 1, None), 0),
    Step::At(
        0,
        Event::Starve(Comes::Device(50)),
        (1, 1, Some(Refusal::DevEuiTaken)),
        0,
    ),
    Step::At(
        0,
        Event::Starve(Comes::Device(40)),
        (1, 1, Some(Refusal::TableFull)),
        0,
    ),
    // so is that of a Join-Request if no device has its DevEUI, also when its window closes
    Step::At(
        0,
        Event::Starve(Comes::Frame(REQUEST_1)),
        (1, 1, Some(Refusal::UnknownDevEui)),
        0,
    ),
    Step::At(0, Event::Request(0xB1), (1, 1, None), 0),
    Step::At(200, Event::Time, (1, 1, None), 1),
    Step::Outcome(4, Outcome::Refused(Refusal::UnknownDevEui)),
    Step::Outcomes(5),
    // one number is left
    Step::Core(8, (1 << 63) - 2),
    Step::At(
        0,
        Event::Starve(Comes::Device(50)),
        (0, 0, Some(Refusal::OutOfMemory)),
        0,
    ),
    Step::At(0, Event::Ask(Comes::Device(50)), (0, 1, None), 0),
    Step::At(
        0,
        Event::Ask(Comes::Device(40)),
        (1, 1, Some(Refusal::Backlog)),
        0,
    ),
    Step::At(
        0,
        Event::Starve(Comes::Device(40)),
        (1, 1, Some(Refusal::Backlog)),
        0,
    ),
    // no number is left
    Step::Core(8, u64::MAX),
    Step::At(
        0,
        Event::Ask(Comes::Device(50)),
        (0, 0, Some(Refusal::Backlog)),
        0,
    ),
];
