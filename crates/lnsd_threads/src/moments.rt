// The source of moments.
ghost use Rattle.std.specs.Prelude.{◌≡◌, ◌<◌, ◌+◌, ◌^◌};

use session_core::{LAST_MOMENT, Moment};
use std::sync::Wait;
use std::thread::Parker;
use std::time::{Duration, Instant};
use std::{io, time};

/// The moments of one life, and waits for them.
pub trait LifeClock {
    /// The current moment. It may stand still or go back: the core's effective time is the latest
    /// moment that it has been given.
    fn now(&self) -> Moment;

    /// Waits until this moment or until the bell rings, or for a shorter time.
    fn wait<R: Wait>(&self, rt: &R, bell: &Parker, until: Moment);
}

/// The time since a life began, by the system's monotonic clock.
#[derive(Drop)]
pub struct Monotonic<C: time::Clock> {
    clock: C,
    start: Instant,
}

impl<C: time::Clock> Monotonic<C> {
    /// A clock that begins at 0 now. Fails if the system's clock can't be read.
    pub fn start(clock: C) -> io::Result<Self>
    where
        C: Drop,
    {
        let start = Instant::now(&clock)?;
        Ok(Monotonic { clock, start })
    }

    // The time since the beginning; 0 if the clock can no longer be read.
    fn elapsed(&self) -> Duration {
        match self.start.elapsed(&self.clock) {
            Ok(elapsed) => elapsed,
            Err(_) => Duration::ZERO,
        }
    }
}

impl<C: time::Clock> LifeClock for Monotonic<C> {
    fn now(&self) -> Moment {
        let millis = u64::try_from(self.elapsed().as_millis()).unwrap_or(LAST_MOMENT);
        moment_of(millis)
    }

    fn wait<R: Wait>(&self, rt: &R, bell: &Parker, until: Moment) {
        let left = Duration::from_millis(until.get()).saturating_sub(self.elapsed());
        if !left.is_zero() {
            bell.park_timeout(rt, left);
        }
    }
}

/// The moment of this number of milliseconds, or the last moment.
pub fn moment_of(millis: u64) -> Moment
    ensures { millis < 2 ^ 63 → result ≡ millis }
{
    Moment::new(millis.min(LAST_MOMENT)).unwrap()
}

/// The moment this number of milliseconds later, or the last moment.
pub fn moved_on(moment: Moment, millis: u64) -> Moment
    ensures { moment + millis < 2 ^ 63 → result ≡ moment + millis }
{
    moment_of(moment.get().saturating_add(millis))
}
