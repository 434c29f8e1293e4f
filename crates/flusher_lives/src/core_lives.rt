// A flusher over several lives of its store, each with a core of its own, on a simulated disk.
ghost use Rattle.std.specs.Prelude.{List, ℕ};
ghost use Rattle.disk.specs.State.{EveryImage, IsPermitted};
ghost use Rattle.flusher.specs.Released.{effects_given, given_to};
ghost use Rattle.flusher_lives.specs.CoreLives.{AreCoreLives, DecidesUpTo, IsCoreLife};
ghost use Rattle.flusher_lives.specs.Deciding.{CommitsInLife, EachHolds, HaveDecided};
ghost use Rattle.flusher_lives.specs.Deciding.{KeepsDecided, LeaveInAll, NumberedTable};
ghost use Rattle.store.specs.Image.{HoldsTable};
ghost use Rattle.store.specs.State.{store_state};

use crate::over_lives::reopen;
use crate::{CallNumber, Coming, CoreFeed, chain_of_core};
use disk::{Disk, Image, Sim};
use flusher::{ChainLength, Released};
use lw_types::Refusal;
use session_core::Core;
use std::alloc::Global;
use std::collections::VecDeque;
use store::Store;

/// A life of a server's store. The store is opened, after a crash or without one. A core begins
/// with what it has and decides what comes. A flusher commits these decisions, until the power
/// fails or it ends.
#[derive(Drop)]
pub struct CoreLife {
    /// What a crash before this life left of the disk. If there was no crash, the disk is as it
    /// was.
    pub crash: Option<Image>,
    /// The call of the disk that fails, if any, counted from the opening's first one.
    pub failing: Option<CallNumber>,
    /// What comes to the core before each take.
    pub coming: VecDeque<Coming>,
    /// The number of chains that are made if none is refused.
    pub chains: u64,
    /// The greatest number of batches of each chain.
    pub most: ChainLength,
}

/// Lives of a store, one after another, on this disk. Each begins with an opening, as those of
/// [`flush_over_lives`](crate::flush_over_lives) do. In each a new core decides what comes to it,
/// and chains commit that. If there is no memory for a core, the life makes no chain; if the
/// opening is refused, it has no core. The next life begins with the disk that this one leaves. The
/// last disk is returned.
///
/// The premise: each image that a crash may leave of the disk holds one table and number. Then each
/// image that a crash may leave at the end holds that table after some commands: of each life, in
/// order, the first ones that its core decided. That core began with the table and number that the
/// life found, and decided what came to it. Among these commands are all that were committed, whose
/// effects were given to `out`, complete and in order. If the power failed, the next ones may be
/// among them too. So over all lives `out` got no mark twice, and none that was used up before, if
/// the first table covers those; and the last table covers them all.
pub fn decide_over_lives<D: Sim, C: FnMut(Vec<Released>)>(
    alloc: Global,
    disk: D,
    lives: Vec<CoreLife>,
    out: &mut C,
) -> D
    requires { C.IsAlwaysCallable out.old }
    ensures callable { C.IsAlwaysCallable out.new }

    // Each life, in order, from what was handed in to what is left.
    ensures course { AreCoreLives D.Disk effects_given (given_to C.step)
        lives.items disk result out.old out.new }
    ensures decided { (first : NumberedTable)
        → EveryImage (D.state disk) (HoldsTable first.table first.seq)
        → EachHolds (D.state result) (λ last. HaveDecided effects_given (given_to C.step)
        lives.items first last out.old out.new) }
    ensures left { (first : NumberedTable)
        → EveryImage (D.state disk) (HoldsTable first.table first.seq)
        → EachHolds (D.state result) (λ last. LeaveInAll effects_given (given_to C.step)
        first last out.old out.new) }
{
    sessions::laws::folding();
    sessions::laws::joining();
    sessions::laws::composing();
    sessions::laws::parts_of_longer_lists();
    sessions::laws::no_mark_stands_twice();
    let mut disk = disk;
    for life in lives {
        disk = live(alloc, disk, life, out);
    }
    disk
}

// One life.
fn live<D: Sim, C: FnMut(Vec<Released>)>(alloc: Global, disk: D, life: CoreLife, out: &mut C) -> D
    requires { C.IsAlwaysCallable out.old }
    ensures callable { C.IsAlwaysCallable out.new }
    ensures course { IsCoreLife D.Disk effects_given (given_to C.step)
        life disk result out.old out.new }
    ensures kept { EveryImage (D.state result)
        (λ image. (left : List ℕ) × (IsPermitted (D.state disk) left
        × ((found : NumberedTable) → HoldsTable found.table found.seq left
        → (last : NumberedTable) × (HoldsTable last.table last.seq image
        × KeepsDecided effects_given (given_to C.step) life.coming.items
        found last out.old out.new)))) }
{
    let CoreLife {
        crash,
        failing,
        coming,
        chains,
        most,
    } = life;
    sessions::laws::folding();
    sessions::laws::joining();
    sessions::laws::composing();
    match reopen(alloc, disk, &crash, failing) {
        Ok(store) => {
            let mut store = store;
            let _ = decide(alloc, &mut store, coming, most, chains, out);
            store.close()
        }
        Err((disk, _)) => disk,
    }
}

// Makes this number of chains of what a new core decides, or fewer if one is refused.
fn decide<D: Disk, C: FnMut(Vec<Released>)>(
    alloc: Global,
    store: &mut Store<D>,
    coming: VecDeque<Coming>,
    most: ChainLength,
    chains: u64,
    out: &mut C,
) -> Result<(), Refusal>
    requires out { C.IsAlwaysCallable out.old }
    ensures callable { C.IsAlwaysCallable out.new }
    ensures course { DecidesUpTo D.Disk effects_given (given_to C.step)
        coming.items most chains store.old store.new out.old out.new result }
    ensures decided { CommitsInLife D.honest effects_given (given_to C.step) coming.items
        (store_state D.state store.old) (store_state D.state store.new) out.old out.new }
{
    sessions::laws::folding();
    sessions::laws::joining();
    sessions::laws::composing();
    store::laws::a_settled_store_is_on_its_disk();
    let core = Core::new(alloc, store.table(), store.seq())?;
    let mut feed = CoreFeed::new(core, coming);
    for _ in 0..chains {
        chain_of_core(store, &mut feed, alloc, most, out)?;
    }
    Ok(())
}
