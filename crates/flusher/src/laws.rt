//! What follows from the definitions of several lives alone. These functions do nothing: their
//! contracts are the laws.
ghost use Rattle.std.specs.Prelude.{◌≡◌, ℕ, Bool, List};
ghost use Rattle.disk.specs.State.{EveryImage, IsPermitted, State};
ghost use Rattle.flusher.specs.Lived.{AreOnDisk, HaveLed};
ghost use Rattle.flusher.specs.Lives.{LifeEvent, Lives, no_lives, lives_after, lives_of};
ghost use Rattle.lw_types.specs.declared.refusal.Refusal.{Refusal};
ghost use Rattle.sessions.specs.Marks.{AreOnce, IsSound, IsSubsequence};
ghost use Rattle.sessions.specs.Table.{TableState, effects_of, empty_table};
ghost use Rattle.store.specs.Faults.{IsFault};
ghost use Rattle.store.specs.Image.{HoldsTable};
ghost use Rattle.store.specs.State.{StoreState, HoldsOn, IsOpened, IsSettled};

use crate::MOST_EFFECTS;

/// The number of effects of the largest batch.
pub fn limits_are_these()
    ensures { MOST_EFFECTS ≡ 256 }
{}

/// Lives begin with a store on which nothing is under way, for example one that was formatted or
/// opened. They continue when an image is opened that a crash may have left of its disk
/// ([`store::open`]). The content is such an image, so the same holds for an opening without a
/// crash. The same holds for a disk alone, which a store leaves when it is closed. If the opening
/// is refused, the lives are on the disk that is then returned, as [`store::open_back`] says of it.
/// It is refused only because memory ran out or by the device, never because no store exists
/// (`no_fault`).
pub fn lives_go_on()
    ensures begun { (s : StoreState) → IsSettled s → HaveLed no_lives s.table s.seq s }
    ensures opened { (lives : Lives) (t : TableState) (number : ℕ) (s opened : StoreState)
        (left : List ℕ) → HaveLed lives t number s → IsPermitted s.log.disk left
        → IsOpened left opened
        → (found : Bool) × HaveLed (lives_after t lives (LifeEvent.Opened found)) t number opened }
    ensures begun_on { (t : TableState) (number : ℕ) (disk : State)
        → EveryImage disk (HoldsTable t number) → AreOnDisk no_lives t number disk }
    ensures closed { (lives : Lives) (t : TableState) (number : ℕ) (s : StoreState)
        → HaveLed lives t number s → AreOnDisk lives t number s.log.disk }
    ensures opened_from { (lives : Lives) (t : TableState) (number : ℕ) (disk : State)
        (opened : StoreState) (left : List ℕ) → AreOnDisk lives t number disk
        → IsPermitted disk left → IsOpened left opened
        → (found : Bool) × HaveLed (lives_after t lives (LifeEvent.Opened found)) t number opened }
    ensures refused { (lives : Lives) (t : TableState) (number : ℕ) (disk back : State)
        → AreOnDisk lives t number disk → HoldsOn disk back → AreOnDisk lives t number back }
    ensures no_fault { (lives : Lives) (t : TableState) (number : ℕ) (disk : State)
        (left : List ℕ) (e : Refusal) → AreOnDisk lives t number disk → IsPermitted disk left
        → ¬ (IsFault left e) }
{
    sessions::laws::composing();
    store::laws::a_settled_store_is_on_its_disk();
}

/// No mark leaves twice, over any chains, crashes and openings. What has left is part of the
/// effects of the commands that the store has, from its beginning on.
///
/// [`crate::chain`] continues these lives (`lives`) by an event for each of its batches, and
/// [`lives_go_on`] by an event for each opening. `flusher_lives::flush_over_lives`, a function of
/// the crate above, has both in one theorem.
pub fn no_mark_leaves_twice()
    ensures part { (t : TableState) (events : List LifeEvent)
        → IsSubsequence (lives_of t events).left (effects_of t (lives_of t events).durable) }
    ensures once { (t : TableState) (events : List LifeEvent) → IsSound t
        → AreOnce (lives_of t events).left }
    ensures from_empty { (net_id slots : ℕ) (events : List LifeEvent)
        → AreOnce (lives_of (empty_table net_id slots) events).left }
{
    sessions::laws::composing();
    sessions::laws::parts_of_longer_lists();
    sessions::laws::no_mark_stands_twice();
}
