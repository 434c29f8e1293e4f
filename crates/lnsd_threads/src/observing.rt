// The life's calls of its sessions, and what operators see of them.
ghost use Rattle.std.specs.Prelude.{◌≡◌, IsSome, IsTrue, option_map};
ghost use Rattle.std.specs.Option.{option_copied};
ghost use Rattle.session_core.specs.Calls.{call_kind_of};
ghost use Rattle.session_core.specs.Seats.{HasMade};

use crate::server::LiveServer;
use lnsd_operator::{Sight, Watch};
use session_core::{Books, ClosedFrame, Event, Handled, Moment, Seat, Sessions, Turn};
use std::sync::Wait;

impl<B: Books> LiveServer<B> {
    /// The places for operators who watch, in a life with operators.
    pub fn watch(&self) -> Option<&Watch>
        ensures { option_copied result ≡ option_map (λ control. control.watch) self.now.control }
    {
        Some(&self.control.as_ref()?.watch)
    }

    /// Whether an operator watches.
    pub fn is_watched(&self) -> bool
        ensures { IsTrue result → IsSome self.now.control }
    {
        self.watch().is_some_and(|watch| watch.is_watched())
    }

    /// Sends an event to the operators who watch.
    pub fn tell<R: Wait>(&self, rt: &R, sight: Sight) {
        if let Some(watch) = self.watch() {
            watch.tell(rt, sight);
        }
    }

    /// An event comes. Operators are sent the frames whose windows it closed.
    pub(crate) fn handle<R: Wait>(
        &self,
        rt: &R,
        seat: &mut Seat<B>,
        moment: Moment,
        event: Event,
    ) -> Turn
        ensures share { HasMade seat.old seat.new moment (call_kind_of event) result }
    {
        let Handled {
            turn,
            closed,
            lacks_frames,
            ..
        } = self.sessions.handle(rt, seat, moment, event);
        self.tell_closed(rt, moment, closed, lacks_frames);
        turn
    }

    // Notes frames whose windows were closed at this moment: the last uplinks of their devices, and
    // the refused ones. If memory ran out for a frame, operators hear that something is left out.
    fn tell_closed<R: Wait>(
        &self,
        rt: &R,
        moment: Moment,
        closed: Vec<ClosedFrame>,
        lacks_frames: bool,
    ) {
        let Some(control) = &self.control else {
            return;
        };
        if lacks_frames {
            control.watch.leave_out(rt);
        }
        if closed.is_empty() {
            return;
        }
        let mut last_uplinks = control.last_uplinks.lock(rt);
        for frame in &closed {
            last_uplinks.note(frame, moment);
        }
        drop(last_uplinks);
        if !control.watch.is_watched() {
            return;
        }
        for frame in &closed {
            if let Some(sight) = Sight::of_closed(frame) {
                control.watch.tell(rt, sight);
            }
        }
    }
}
