//! What follows from a disk's definitions alone. These functions do nothing: their contracts are
//! the laws.
ghost use Rattle.std.specs.Prelude.{◌≡◌, ◌≤◌, ◌+◌, ℕ, List, length};
ghost use Rattle.disk.specs.State.{State, NothingOpen, EveryImage, IsPermitted, IsSettledAt};
ghost use Rattle.disk.specs.State.{IsTorn, IsWrite};

/// If nothing is open, a crash leaves the content.
pub fn settled_disk_keeps_its_content()
    ensures { (state : State) → NothingOpen state
        → EveryImage state (λ image. image ≡ state.content) }
{}

/// If nothing was open before one write, a crash leaves the content from before it, torn in the
/// write's range.
pub fn one_write_tears_its_range()
    ensures { (at n : ℕ) (before after : State) → NothingOpen before → IsWrite at n before after
        → EveryImage after (IsTorn at n before.content) }
{}

/// What a crash may leave after a write is what it might have left before, torn in the write's
/// range. So if something holds for every image before, and survives such a tear, it holds for
/// every image after. This is so even if earlier writes are open.
pub fn a_write_tears_an_image()
    ensures { (at n : ℕ) (before after : State) → at + n ≤ length before.content
        → IsWrite at n before after
        → EveryImage after (λ image. (was : List ℕ) × IsPermitted before was
        × IsTorn at n was image) }
{}

/// A crash in the middle of a call leaves what a crash may leave if that call fails: before or
/// after a write, or before a sync. So what holds for every image after a failed call holds for
/// what is left at any moment during it.
pub fn a_cut_is_a_failed_call()
    ensures before { (at n : ℕ) (before failed : State) → IsWrite at n before failed
        → EveryImage before (IsPermitted failed) }
    ensures behind { (at n : ℕ) (before after failed : State) → IsWrite at n before after
        → IsWrite at n before failed → EveryImage after (IsPermitted failed) }
    ensures synced { (before after : State) → IsSettledAt before.content after
        → EveryImage after (IsPermitted before) }
{}
