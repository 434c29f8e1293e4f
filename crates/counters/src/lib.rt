//! The 32-bit frame counter that an uplink's 16 bits stand for (TS001-1.0.4 §4.3.1.5).
#![tactic(auto)]

ghost use Rattle.std.specs.Prelude.{◌≡◌, ◌↔◌, ◌<◌, ◌≤◌, ℕ, ◌%◌, ◌^◌};
ghost use Rattle.counters.specs.Counter.{IsRepeat, IsLeast, distance};
ghost use Rattle.counters.specs.FirstFrom.{FirstFrom};
ghost use Rattle.counters.specs.Rebuilt.{if_near, least_from, rebuilt_counter};

pub mod laws;

/// What the low bits of a counter mean.
#[derive(Clone, Copy, PartialEq, Eq)]
pub enum Rebuilt {
    /// A new frame with this counter.
    New(u32),
    /// The last frame again.
    Repeat,
    /// No counter up to [`MAX_GAP`] above the last one has these low bits.
    Gap,
}

/// How far a new counter may be above the last one.
pub const MAX_GAP: u64 = 16_384;

/// The whole counter of a frame with this FCnt, after the last one that was accepted: the least
/// counter above it with these low bits, if it is at most [`MAX_GAP`] above. Before the first frame
/// the last counter is taken as -1. Takes no memory.
pub fn rebuild(last: Option<u32>, low: u16) -> Rebuilt
    ensures repeat { (result ≡ Rebuilt.Repeat) ↔ IsRepeat last low }
    ensures new { (n : ℕ) → (result ≡ Rebuilt.New n)
        ↔ (¬ IsRepeat last low × IsLeast last low n × (distance last n ≤ MAX_GAP)) }
    ensures gap { (result ≡ Rebuilt.Gap)
        ↔ (¬ IsRepeat last low × ((n : ℕ) → IsLeast last low n → MAX_GAP < distance last n)) }
    ensures value { result ≡ rebuilt_counter last low }
{
    match last {
        Some(last) if low_bits(last) == low => Rebuilt::Repeat,
        Some(last) => from(u64::from(last) + 1, low),
        None => from(0, low),
    }
}

// The low 16 bits of a counter.
fn low_bits(counter: u32) -> u16
    ensures { result ≡ counter % 2 ^ 16 }
{
    (counter % (1 << 16)) as u16
}

// The least counter from `first` on with these low bits, if it is below `first + MAX_GAP`.
fn from(first: u64, low: u16) -> Rebuilt
    requires { first ≤ 2 ^ 32 }
    ensures first { FirstFrom first low result }
    ensures value { result ≡ if_near first (least_from first low) }
{
    let above = (u64::from(low) + (1 << 16) - first % (1 << 16)) % (1 << 16);
    let counter = first + above;
    if above < MAX_GAP && counter < 1 << 32 {
        Rebuilt::New(counter as u32)
    } else {
        Rebuilt::Gap
    }
}
