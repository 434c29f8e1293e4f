// What a measurement returns, or why nothing was measured.
use lw_types::Refusal;
use std::fmt;
use std::rt::Clock;

/// Why nothing was measured.
#[derive(Clone, Copy)]
pub enum Unmeasured {
    /// A table was not made, or an event was refused.
    Refused(Refusal),
    /// The clock can't be read.
    NoClock,
    /// The clock stands still or jumps.
    OddClock,
}

impl From<Refusal> for Unmeasured {
    ghost from_gives = { λ _ _. Unit {0} };

    fn from(refusal: Refusal) -> Self {
        Unmeasured::Refused(refusal)
    }
}

impl fmt::Display for Unmeasured {
    fn fmt<W: fmt::Write>(&self, f: &mut fmt::Formatter<W>) -> fmt::Result {
        match *self {
            Unmeasured::Refused(refusal) => {
                write!(f, "not measured, as it was refused: {refusal}")
            }
            Unmeasured::NoClock => f.write_str("not measured, as the clock can't be read"),
            Unmeasured::OddClock => f.write_str("not measured, as the clock stands still or leaps"),
        }
    }
}

/// The nanoseconds on the clock.
pub fn clock_nanos(rt: &impl Clock) -> Result<u128, Unmeasured> {
    match rt.monotonic() {
        Ok(since_start) => Ok(since_start.as_nanos()),
        Err(_) => Err(Unmeasured::NoClock),
    }
}

/// The nanoseconds since the clock was read, if it was.
pub fn nanos_since(rt: &impl Clock, start: Result<u128, Unmeasured>) -> Result<u128, Unmeasured> {
    Ok(clock_nanos(rt)?.saturating_sub(start?))
}

/// The nanoseconds of one of this number of events, which took this time together. On any machine
/// of today that is more than 0 and less than seconds.
pub fn nanos_of_one(spent: u128, events: u128) -> Result<u32, Unmeasured> {
    match u32::try_from(spent.checked_div(events).unwrap_or(0)) {
        Ok(nanos) if nanos > 0 => Ok(nanos),
        _ => Err(Unmeasured::OddClock),
    }
}
