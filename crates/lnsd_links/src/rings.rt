// The rings from which links are written.
ghost use Rattle.std.specs.Prelude.{◌≡◌};

use crate::gathering::drop_all;
use outbox::Inlet;
use std::sync::{Mutex, Wait};

/// The places of each of the two rings of a link.
pub const PLACES: usize = 1024;

/// The end of an application's ring from which its lines come, and the application's number.
#[derive(Drop)]
pub struct OwnRing {
    pub application: usize,
    pub inlet: Inlet,
}

/// The lines that wait for an application. The sender of its link holds the end of its ring while
/// there is one.
#[derive(Drop)]
pub struct WaitingLines {
    application: usize,
    lines: Mutex<Option<Inlet>>,
}

impl WaitingLines {
    /// These lines, which no sender holds yet.
    pub fn new(ring: OwnRing) -> Self
        ensures { result.application ≡ ring.application }
    {
        WaitingLines {
            application: ring.application,
            lines: Mutex::new(Some(ring.inlet)),
        }
    }

    /// The end of the ring, if no sender holds it.
    pub(crate) fn take<R: Wait>(&self, rt: &R) -> Option<Inlet> {
        self.lines.lock(rt).take()
    }

    /// Takes the end of the ring back.
    pub(crate) fn give_back<R: Wait>(&self, rt: &R, inlet: Inlet) {
        *self.lines.lock(rt) = Some(inlet);
    }

    /// Drops the lines, if no sender holds them. Returns their number.
    pub fn drop_all<R: Wait>(&self, rt: &R) -> u64 {
        match self.lines.lock(rt).as_mut() {
            Some(inlet) => drop_all(inlet),
            None => 0,
        }
    }
}
