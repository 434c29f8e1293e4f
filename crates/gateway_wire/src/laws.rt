//! Laws of the frames of the wire. Each is the contract of a function that does nothing.
ghost use Rattle.std.specs.Prelude.{◌≡◌};

use crate::answer::{ANSWER, LONGEST_ANSWER, LONGEST_ANSWER_FRAME};
use crate::downlink::{DOWNLINK, LONGEST_WIRE_FRAME};

/// The first bytes of the content of a downlink and of an answer to an application; the most bytes
/// of such an answer's line; and the most bytes of either frame, with the two bytes of its length.
pub fn limits_are_these()
    ensures downlink { DOWNLINK ≡ 17 }
    ensures answer { ANSWER ≡ 19 }
    ensures longest { LONGEST_ANSWER ≡ 699 }
    ensures answer_frame { LONGEST_ANSWER_FRAME ≡ 702 }
    ensures wire_frame { LONGEST_WIRE_FRAME ≡ 277 }
{}
