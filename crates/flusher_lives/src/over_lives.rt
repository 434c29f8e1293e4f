// A flusher over several lives of its store, on a simulated disk.
ghost use Rattle.std.specs.Prelude.{◌≡◌, ◌≢◌, ◌+◌, ℕ, List, [], All, IfErr, IfOk, MatchOption, Ok};
ghost use Rattle.std.specs.Prelude.{OnErr, length};
ghost use Rattle.devices.specs.declared.mark.Mark.{Mark};
ghost use Rattle.disk.specs.State.{EveryImage, NothingOpen};
ghost use Rattle.flusher.specs.Lived.{AreOnDisk, GoOnFrom, LeadOn};
ghost use Rattle.flusher.specs.Released.{effects_given, given_to};
ghost use Rattle.flusher_lives.specs.OverLives.{AreFlusherLives, IsFlusherLife, IsLeftBy};
ghost use Rattle.flusher_lives.specs.OverLives.{IsReopened, LeaveOnce, MakeUpTo};
ghost use Rattle.lw_types.specs.declared.refusal.Refusal.{Refusal};
ghost use Rattle.lw_types.specs.declared.refusal.Refusal.TheVariants.{DeviceFailed};
ghost use Rattle.sessions.specs.Marks.{AreDistinct, Covers};
ghost use Rattle.sessions.specs.Table.{TableState, empty_table};
ghost use Rattle.store.specs.Faults.{IsFormatRefusal};
ghost use Rattle.store.specs.Formatting.{IsFormatImage};
ghost use Rattle.store.specs.Image.{HoldsTable};
ghost use Rattle.store.specs.Made.{IsFormatAnswer};
ghost use Rattle.store.specs.State.{disk_of, store_state};

use disk::{Image, Sim};
use flusher::{ChainLength, Feed, Released, chain, laws};
use lw_types::{NetId, Ranged, Refusal};
use std::alloc::Global;
use store::Store;

/// The number of a call of a disk, counted from the first one.
pub type CallNumber = Ranged<1, { u64::MAX }>;

/// One life of a flusher: its store is opened, after a crash or without one, and it makes chains,
/// until the power fails or the flusher ends.
#[derive(Drop)]
pub struct FlusherLife {
    /// What a crash before this life left of the disk. If there was no crash, the disk is as it
    /// was.
    pub crash: Option<Image>,
    /// The call of the disk that fails, if any, counted from the opening's first one.
    pub failing: Option<CallNumber>,
    /// The number of chains that it makes if none is refused.
    pub chains: u64,
    /// The greatest number of batches of each chain.
    pub most: ChainLength,
}

/// Lives of a flusher, one after another, on this disk and with this feed. Each begins with an
/// opening, after a crash or without one, and chains follow. If a chain is refused, the life makes
/// no other; if the opening is refused, it makes none. The next life begins with the disk that this
/// one leaves, and the last disk is returned. So an opening that was refused is made again, with
/// the power on or after a crash.
///
/// The premise: each image that a crash may leave of the disk holds one table and number, and the
/// marks that were used up before are distinct and covered by that table. Then what is given to
/// `out` over all lives is, in order and complete, the effects of each batch that was released, and
/// part of those of the durable commands. No mark is twice among those that were used up before and
/// those of what was given. Each image that a crash may leave at the end holds a table to which
/// these lives lead and which covers all these marks. So other lives may follow.
///
/// The power may be cut during any call of the disk: what it leaves is what a crash may leave if
/// that call fails ([`disk::laws::a_cut_is_a_failed_call`]).
pub fn flush_over_lives<D: Sim, F: Feed, C: FnMut(Vec<Released>)>(
    alloc: Global,
    disk: D,
    feed: &mut F,
    lives: &[FlusherLife],
    out: &mut C,
) -> D
    requires { C.IsAlwaysCallable out.old }
    ensures callable { C.IsAlwaysCallable out.new }

    // Each life, in order, from what was handed in to what is left.
    ensures course { AreFlusherLives D.Disk F.gives effects_given (given_to C.step)
        lives.now disk result feed.old feed.new out.old out.new }

    // The lives that are on the disk continue, and what left in addition was given to `out`, in
    // order.
    ensures lives { GoOnFrom effects_given (given_to C.step)
        (λ lives t number. AreOnDisk lives t number (D.state disk))
        (λ lives t number. AreOnDisk lives t number (D.state result)) out.old out.new }
    ensures once { (t : TableState) (number : ℕ) (marks : List Mark)
        → EveryImage (D.state disk) (HoldsTable t number)
        → All (λ m. Covers t m) marks → AreDistinct marks
        → LeaveOnce effects_given (given_to C.step) t number marks
        (D.state result) out.old out.new }
{
    laws::lives_go_on();
    laws::no_mark_leaves_twice();
    sessions::laws::no_mark_stands_twice();
    store::laws::what_is_held_is_sound();
    let mut disk = disk;
    for life in lives {
        disk = live(alloc, disk, feed, life, out);
    }
    disk
}

/// Makes a store without devices on this disk, and lives of a flusher on it, as
/// [`flush_over_lives`] does: no mark was used up before. Refused as [`store::format_back`] is,
/// before the first life. Then the disk is returned, and nothing was taken or given.
pub fn flush_new_store<D: Sim, F: Feed, C: FnMut(Vec<Released>)>(
    alloc: Global,
    disk: D,
    net_id: NetId,
    slots: u64,
    feed: &mut F,
    lives: &[FlusherLife],
    out: &mut C,
) -> Result<D, (D, Refusal)>
    requires { C.IsAlwaysCallable out.old }
    ensures callable { C.IsAlwaysCallable out.new }
    ensures course { IfOk result (λ last. (store : _)
        × (IsFormatAnswer D.Disk disk net_id slots (λ (refusal : Refusal). refusal) (Ok store)
        × AreFlusherLives D.Disk F.gives effects_given (given_to C.step)
        lives.now (disk_of store) last feed.old feed.new out.old out.new)) }
    ensures once { IfOk result (λ last. LeaveOnce effects_given (given_to C.step)
        (empty_table net_id slots) 0 [] (D.state last) out.old out.new) }
    ensures refused { IfErr result
        (λ e. IsFormatRefusal slots (length (D.state disk).content) e.1) }
    ensures device { IfErr result (λ e. (e.1 ≡ DeviceFailed → D.failures e.0 ≡ D.failures disk + 1)
        × (e.1 ≢ DeviceFailed → e.0 ≡ disk)) }
    ensures images { NothingOpen (D.state disk) → IfErr result
        (λ e. EveryImage (D.state e.0) (IsFormatImage net_id slots (D.state disk).content)) }
    ensures untouched { OnErr result ((feed.new ≡ feed.old) × (out.new ≡ out.old)) }
{
    sessions::laws::no_mark_stands_twice();
    store::laws::a_settled_store_is_on_its_disk();
    match store::format_back(alloc, disk, net_id, slots) {
        Ok(store) => Ok(flush_over_lives(alloc, store.close(), feed, lives, out)),
        Err(refused) => Err(refused),
    }
}

// One life.
fn live<D: Sim, F: Feed, C: FnMut(Vec<Released>)>(
    alloc: Global,
    disk: D,
    feed: &mut F,
    life: &FlusherLife,
    out: &mut C,
) -> D
    requires { C.IsAlwaysCallable out.old }
    ensures callable { C.IsAlwaysCallable out.new }
    ensures course { IsFlusherLife D.Disk F.gives effects_given (given_to C.step)
        life.now disk result feed.old feed.new out.old out.new }
    ensures lives { GoOnFrom effects_given (given_to C.step)
        (λ lives t number. AreOnDisk lives t number (D.state disk))
        (λ lives t number. AreOnDisk lives t number (D.state result)) out.old out.new }
{
    laws::lives_go_on();
    match reopen(alloc, disk, &life.crash, life.failing) {
        Ok(store) => {
            let mut store = store;
            let _ = flush_life(alloc, &mut store, feed, life.most, life.chains, out);
            store.close()
        }
        Err((disk, _)) => disk,
    }
}

// Makes the disk crash if it is to, makes this call of it fail, and opens the store.
pub(crate) fn reopen<D: Sim>(
    alloc: Global,
    disk: D,
    crash: &Option<Image>,
    failing: Option<CallNumber>,
) -> Result<Store<D>, (D, Refusal)>
    ensures { IsReopened D.Disk crash.now failing disk result }
{
    let mut disk = disk;
    crash_to(&mut disk, crash);
    if let Some(n) = failing {
        disk.arm(n.get());
    }
    store::open_back(alloc, disk)
}

// Makes the disk crash to this image, if there is one.
fn crash_to<D: Sim>(disk: &mut D, crash: &Option<Image>)
    ensures left { MatchOption crash.now (D.state disk.new ≡ D.state disk.old)
        (λ image. IsLeftBy image (D.state disk.old) (D.state disk.new)) }
    ensures failures { D.failures disk.new ≡ D.failures disk.old }
    ensures outlook { D.outlook disk.new ≡ D.outlook disk.old }
{
    if let Some(image) = crash {
        disk.crash(image);
    }
}

// Makes this number of chains, or fewer if one is refused.
fn flush_life<D: Sim, F: Feed, C: FnMut(Vec<Released>)>(
    alloc: Global,
    store: &mut Store<D>,
    feed: &mut F,
    most: ChainLength,
    chains: u64,
    out: &mut C,
) -> Result<(), Refusal>
    requires { C.IsAlwaysCallable out.old }
    ensures callable { C.IsAlwaysCallable out.new }
    ensures course { MakeUpTo D.Disk F.gives effects_given (given_to C.step) most chains
        store.old store.new feed.old feed.new out.old out.new result }
    ensures lives { LeadOn effects_given (given_to C.step)
        (store_state D.state store.old) (store_state D.state store.new) out.old out.new }
{
    for _ in 0..chains {
        chain(store, feed, alloc, most, out)?;
    }
    Ok(())
}
