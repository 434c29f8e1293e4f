// The closer, which closes the windows that are due.
ghost use Rattle.std.specs.Prelude.{◌≡◌, ◌↔◌, IsTrue, None};
ghost use Rattle.session_core.specs.Seats.{HasMade};
ghost use Rattle.session_core.specs.declared.event.CallKind.TheVariants.{Ticked};
ghost use Rattle.session_core.specs.declared.turn.Turn.{Turn};

use crate::context::Context;
use crate::server::LiveServer;
use crate::{Gate, LifeClock, moment_of, moved_on};
use dedup::WAIT;
use session_core::{Books, Event, Moment, Seat, Sessions};
use std::sync::Wait;

// The pause before memory is asked for again, in milliseconds.
const PAUSE: u64 = 10;

// How often memory is asked for at the end: for a second in all.
const LAST_TRIES: u64 = 100;

// The least time between two turns, in milliseconds. While many frames come, those that are decided
// in this time are committed and sent together.
const GATHER: u64 = 2;

/// The closer.
#[derive(Drop)]
pub struct Closer<'x, B: Books, R: Wait, G: Gate, C: LifeClock> {
    pub context: &'x Context<'x, R, G, C>,
    pub server: &'x LiveServer<B>,
    pub seat: Seat<B>,
}

impl<'x, B: Books, R: Wait, G: Gate, C: LifeClock> Closer<'x, B, R, G, C> {
    /// Closes windows until no link hands in anything more, and then all that are left. Returns the
    /// seat.
    pub fn run(self) -> Seat<B> {
        let mut closer = self;
        let mut next = moment_of(0);
        for _ in closer.context.rt.forever() {
            if closer.server.signals.is_over() {
                break;
            }
            closer.wait_for_window(next);
            let now = closer.context.clock.now();
            next = moved_on(now, GATHER);
            if !closer.tick(now) {
                closer.pause();
            }
        }
        if !closer.server.signals.is_stopped() {
            closer.close_all();
        }
        closer.server.signals.tell_ticked();
        closer.seat
    }

    // Waits until the oldest window is due and `next` has come. If there is no window, waits until
    // one opens or until another thread decides a frame. The flag is set before the checks, so a
    // thread that opens a window or decides a frame after a check finds the flag set, and rings.
    fn wait_for_window(&self, next: Moment) {
        let signals = &self.server.signals;
        signals.set_idle();
        let due = self.server.sessions.next_due(self.context.rt);
        if due.is_none() && !signals.has_frames() {
            signals.opened.park(self.context.rt);
        }
        signals.clear_idle();
        if let Some(due) = due {
            self.context
                .clock
                .wait(self.context.rt, &signals.opened, due.max(next));
        }
    }

    // Closes all windows that are left. If memory runs out, it tries again; windows for which there
    // is no memory in time are given up.
    fn close_all(&mut self) {
        let last = self.server.sessions.effective_time(self.context.rt);
        for _ in 0..LAST_TRIES {
            if self.tick(moved_on(last, WAIT)) {
                break;
            }
            self.pause();
        }
    }

    // Waits until memory is to be asked for again.
    fn pause(&self) {
        let until = moved_on(self.context.clock.now(), PAUSE);
        self.context
            .clock
            .wait(self.context.rt, &self.server.signals.opened, until);
    }

    // Whether all windows that were due are closed; if memory ran out, some aren't.
    fn tick(&mut self, moment: Moment) -> bool
        ensures ticked { (turn : Turn) × (HasMade self.old.seat self.new.seat moment Ticked turn
            × (IsTrue result ↔ (turn.refused ≡ None))) }
        ensures same { self.new ≡ record self.old { seat = self.new.seat } }
    {
        let rt = self.context.rt;
        let turn = self.server.handle(rt, &mut self.seat, moment, Event::Tick);
        if turn.from < turn.to {
            self.server.signals.tell_frames();
        }
        self.server.signals.ring_for_frames();
        turn.refused.is_none()
    }
}
