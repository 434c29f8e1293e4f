// Copies of a frame of no device and moments, as they come to a core without devices.
use crate::session_core_tests::core_script::{Event, Step};
use lw_types::Refusal;
use session_core::{LAST_MOMENT, Outcome};

// The outcome of the frame.
const UNKNOWN: Outcome = Outcome::Refused(Refusal::UnknownDevAddr);

// Copies gather for 200 ms.
pub(super) const MOMENTS: &[Step] = &[
    Step::Core(8, 0),
    Step::At(0, Event::Copy(0xB1, 868_100_000, 5), (0, 0, None), 0),
    Step::At(199, Event::Copy(0xB2, 868_100_000, 5), (0, 0, None), 0),
    Step::At(
        199,
        Event::Copy(0xB1, 868_100_000, 5),
        (0, 0, Some(Refusal::SameGateway)),
        0,
    ),
    Step::At(100, Event::Copy(0xB3, 868_100_000, 5), (0, 0, None), 0),
    Step::At(
        200,
        Event::Copy(0xB1, 868_200_000, 5),
        (0, 0, Some(Refusal::UnknownChannel)),
        1,
    ),
    Step::At(200, Event::Copy(0xB1, 868_100_000, 5), (0, 0, None), 0),
    Step::At(399, Event::Time, (0, 0, None), 0),
    Step::At(400, Event::Time, (0, 0, None), 1),
    Step::At(
        400,
        Event::Copy(0xB1, 868_100_000, 6),
        (0, 0, Some(Refusal::UnknownChannel)),
        0,
    ),
    Step::At(600, Event::Time, (0, 0, None), 0),
    Step::Outcome(0, UNKNOWN),
    Step::Outcome(1, UNKNOWN),
    Step::Outcomes(2),
    // an event with an earlier moment comes at the latest moment so far
    Step::Core(8, 0),
    Step::At(199, Event::Time, (0, 0, None), 0),
    Step::At(100, Event::Copy(0xB1, 868_100_000, 5), (0, 0, None), 0),
    Step::At(300, Event::Copy(0xB2, 868_100_000, 5), (0, 0, None), 0),
    Step::At(398, Event::Time, (0, 0, None), 0),
    Step::At(
        0,
        Event::Copy(0xB1, 868_100_000, 5),
        (0, 0, Some(Refusal::SameGateway)),
        0,
    ),
    Step::At(399, Event::Copy(0xB1, 868_300_000, 0), (0, 0, None), 1),
    Step::At(598, Event::Time, (0, 0, None), 0),
    Step::At(599, Event::Time, (0, 0, None), 1),
    Step::At(0, Event::Time, (0, 0, None), 0),
    Step::Outcome(0, UNKNOWN),
    Step::Outcome(1, UNKNOWN),
    Step::Outcomes(2),
    // a window that opens less than 200 ms before the last moment is never due
    Step::Core(8, 0),
    Step::At(
        LAST_MOMENT - 200,
        Event::Copy(0xB1, 868_100_000, 5),
        (0, 0, None),
        0,
    ),
    Step::At(LAST_MOMENT - 1, Event::Time, (0, 0, None), 0),
    Step::At(
        LAST_MOMENT,
        Event::Copy(0xB1, 868_100_000, 5),
        (0, 0, None),
        1,
    ),
    Step::At(LAST_MOMENT, Event::Time, (0, 0, None), 0),
    Step::At(0, Event::Copy(0xB2, 868_100_000, 5), (0, 0, None), 0),
    Step::Outcome(0, UNKNOWN),
    Step::Outcomes(1),
];
