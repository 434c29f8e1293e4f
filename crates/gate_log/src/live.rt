// Finds out which of two areas is the live one.
ghost use Rattle.std.specs.Prelude.{◌≡◌, ◌<◌, ◌≤◌, ◌+◌, ℕ, List, MatchOption};
ghost use Rattle.gate_log.specs.declared.layout.TheConstants.{EMPTY_AREA_LEN};
ghost use Rattle.gate_log.specs.Areas.{AreOf, HasHeader, IsClosedArea, NoLiveArea};

use crate::layout::{Area, Areas, Header};

/// Which of a disk's areas is the live one, that area's header, and whether the other one's gate is
/// open.
#[derive(Clone, Copy, PartialEq, Eq)]
pub struct Live {
    pub areas: Areas,
    pub header: Header,
    pub other_open: bool,
}

impl Live {
    ghost use Rattle.gate_log.specs.Live.{IsLiveAs};

    /// Returns which of two areas is live, from the headers of those that are open: the open one of
    /// the greater generation. Returns `None` if both are closed, or both open with the same
    /// generation.
    pub(crate) fn of(
        a: Area,
        header_a: Option<Header>,
        b: Area,
        header_b: Option<Header>,
    ) -> Option<Live>
        requires room_a { a.start + EMPTY_AREA_LEN ≤ a.end }
        requires room_b { b.start + EMPTY_AREA_LEN ≤ b.end }
        ensures live { (disk : List ℕ)
            → MatchOption header_a (IsClosedArea a disk) (λ h. HasHeader a h disk)
            → MatchOption header_b (IsClosedArea b disk) (λ h. HasHeader b h disk)
            → MatchOption result (NoLiveArea a b disk) (λ live. IsLiveAs live disk) }
        ensures areas { MatchOption result (Unit {0}) (λ live. AreOf a b live.areas) }
    {
        let first = Areas { live: a, other: b };
        let second = Areas { live: b, other: a };
        match (header_a, header_b) {
            (None, None) => None,
            (Some(header), None) => Some(Live::beside_closed(a, header, b)),
            (None, Some(header)) => Some(Live::beside_closed(b, header, a)),
            (Some(h), Some(k)) => {
                if h.generation > k.generation {
                    Some(Live::new(first, h, true))
                } else if k.generation > h.generation {
                    Some(Live::new(second, k, true))
                } else {
                    None
                }
            }
        }
    }

    // The area with this header as the live one, when the other one's gate is closed.
    fn beside_closed(area: Area, header: Header, closed: Area) -> Self
        requires { closed.start < closed.end }
        ensures live { (disk : List ℕ) → HasHeader area header disk → IsClosedArea closed disk
            → IsLiveAs result disk }
        ensures areas { result.areas ≡ record { live = area; other = closed } }
    {
        let areas = Areas {
            live: area,
            other: closed,
        };
        Live::new(areas, header, false)
    }

    fn new(areas: Areas, header: Header, other_open: bool) -> Self
        ensures { result ≡ record { areas = areas; header = header; other_open = other_open } }
    {
        Live {
            areas,
            header,
            other_open,
        }
    }
}
