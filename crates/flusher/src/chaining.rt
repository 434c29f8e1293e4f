// Chains of commits: each batch's gate shares its sync with the next one's body.
ghost use Rattle.std.specs.Prelude.{◌≡◌, ◌<◌, ◌≤◌, ◌+◌, ◌∷◌, [], true, false, OnOk, Ok};
ghost use Rattle.std.specs.Prelude.{MatchOption, MatchResult, length};
ghost use Rattle.flusher.specs.Calls.{IsUntouched};
ghost use Rattle.flusher.specs.Chain.{FollowsOpened, GivesAll, IsChain, IsChainOfSome};
ghost use Rattle.flusher.specs.Chain.{IsFollowRefusal, NoneFollows};
ghost use Rattle.flusher.specs.Cycle.{ChecksWhereFull, IsReady};
ghost use Rattle.flusher.specs.Lived.{LeadOn};
ghost use Rattle.flusher.specs.Released.{effects_given, effects_of_all, given_to};
ghost use Rattle.sessions.specs.Decision.{effects_in};
ghost use Rattle.sessions.specs.declared.batch.TheConstants.Batch.{MOST};
ghost use Rattle.store.specs.Commit.{IsUnderWay};
ghost use Rattle.store.specs.Phases.{IsBegunOn, begun_sequel, begun_size, gate_written_sequel};
ghost use Rattle.store.specs.Phases.{durable_decisions, gate_written_size};
ghost use Rattle.store.specs.State.{store_state, IsRoomy, IsSettled};
ghost use Rattle.store.specs.declared.under_way.UnderWay.TheVariants.{Following};

use crate::checkpointing::make_room;
use crate::{Durable, Feed, Most, Released, Room};
use disk::Disk;
use lw_types::{Ranged, Refusal};
use sessions::Batch;
use std::alloc::Global;
use store::{Begun, Called, GateWritten, Store, UnderWay};

/// The greatest number of batches of a chain.
pub type ChainLength = Ranged<1, 4096>;

/// A chain of a flusher's commits, on a store with nothing under way. It takes batches from the
/// feed, commits them, and gives the effects of each batch to `out` as soon as the batch is
/// durable: once, all together, and in the order of the batches. A batch's gate and the body of the
/// next one share a sync, so n batches take 3n + 1 calls of the disk. Returns the number of
/// decisions of these batches. The chain ends after `most` batches, if the feed gives an empty
/// batch, or if the journal doesn't have room for the largest one. If it doesn't have that room at
/// the beginning, a checkpoint is written first, by four calls or six.
///
/// A refusal is as [`cycle`](crate::cycle) says for the batch at which it comes. The batches before
/// it are durable and their effects have left; none of its own has. If the batch after the one
/// under way is refused, the one under way is synced alone, and its effects leave before the
/// refusal is returned. If this sync fails, `DeviceFailed` is returned. Then it is unknown for at
/// most one batch whether the disk has it. A batch that was taken and refused is given up, and so
/// is the one after it.
///
/// The cost grows with the batches, and with the whole table if a checkpoint is written.
pub fn chain<D: Disk, F: Feed, C: FnMut(Vec<Released>)>(
    store: &mut Store<D>,
    feed: &mut F,
    alloc: Global,
    most: ChainLength,
    out: &mut C,
) -> Result<usize, Refusal>
    requires { C.IsAlwaysCallable out.old }
    ensures chain { IsChain D.Disk F.gives effects_given (given_to C.step) most
        store.old store.new feed.old feed.new out.old out.new result }
    ensures ready { OnOk result (IsReady (store_state D.state store.old)) }

    // A checkpoint was written exactly if the largest batch had no room.
    ensures checkpoint { D.honest → IsSettled (store_state D.state store.old) → OnOk result
        (ChecksWhereFull (store_state D.state store.old) (store_state D.state store.new)) }

    // A store that has failed isn't touched.
    ensures closed { (store_state D.state store.old).failed ≡ true
        → IsUntouched D.state store.old store.new }

    // The lives that led the store here continue, and what left in addition was given to `out`, in
    // order.
    ensures lives { D.honest → LeadOn effects_given (given_to C.step)
        (store_state D.state store.old) (store_state D.state store.new) out.old out.new }
{
    sessions::laws::composing();
    store::laws::a_settled_store_is_on_its_disk();
    let room = Room::new(alloc)?;
    make_room(alloc, store)?;
    let batch = take(feed)?;
    if batch.is_empty() {
        return Ok(0);
    }
    let begun = store.begin(alloc, batch)?;
    follow(begun, room, store, feed, alloc, most.get() - 1, out)
}

// Commits a batch that is begun, and at most `more` batches after it.
fn follow<D: Disk, F: Feed, C: FnMut(Vec<Released>)>(
    begun: Begun,
    room: Room,
    store: &mut Store<D>,
    feed: &mut F,
    alloc: Global,
    more: u64,
    out: &mut C,
) -> Result<usize, Refusal>
    requires out { C.IsAlwaysCallable out.old }
    requires few { more < 4096 }
    requires roomy { IsRoomy (store_state D.state store.old) }
    requires alive { (store_state D.state store.old).failed ≡ false }
    requires way { IsUnderWay (store_state D.state store.old) (begun_sequel begun)
        (begun_size begun) }
    requires begun { IsSettled (store_state D.state store.old)
        → IsBegunOn (store_state D.state store.old) begun }
    ensures chain { (before : F) → GivesAll F.gives before ((begun_sequel begun).decisions ∷ [])
        feed.old → IsChainOfSome D.Disk F.gives effects_given (given_to C.step) (more + 1)
        store.old store.new before feed.new out.old out.new result }
    ensures generation { D.honest → IsSettled (store_state D.state store.old) → OnOk result
        ((store_state D.state store.new).log.generation
        ≡ (store_state D.state store.old).log.generation) }
{
    sessions::laws::folding();
    sessions::laws::joining();
    sessions::laws::composing();
    store::laws::a_settled_store_is_on_its_disk();
    let mut under_way = UnderWay::Begun(begun, room);
    let mut more = more;
    let mut count = 0;
    let mut end = Ok(());
    'calls: loop {
        match under_way.call(store)? {
            Called::UnderWay(next) => match next {
                UnderWay::GateWritten(opened, room) => {
                    match begin_following(&opened, store, feed, alloc, more) {
                        Ok(Some((following, behind))) => {
                            more -= 1;
                            under_way = followed(opened, room, following, behind);
                        }
                        Ok(None) => under_way = UnderWay::GateWritten(opened, room),
                        Err(refusal) => {
                            end = Err(refusal);
                            under_way = UnderWay::GateWritten(opened, room);
                        }
                    }
                }
                next => under_way = next,
            },
            Called::Durable(durable, room, behind) => {
                count += release(durable, room, out);
                match behind {
                    Some(next) => under_way = next,
                    None => {
                        end?;
                        return Ok(count);
                    }
                }
            }
            Called::Published => unreachable!(),
        }
    }
}

// Begins the commit of the batch after the one under way, with room for its effects. Returns `None`
// if `more` is 0, the journal has no room after the one under way, or the feed gives an empty
// batch.
fn begin_following<D: Disk, F: Feed>(
    under_way: &GateWritten,
    store: &Store<D>,
    feed: &mut F,
    alloc: Global,
    more: u64,
) -> Result<Option<(Begun, Room)>, Refusal>
    requires way { IsUnderWay (store_state D.state store.now)
        (gate_written_sequel under_way.now) (gate_written_size under_way.now) }
    requires alive { (store_state D.state store.now).failed ≡ false }
    ensures { MatchResult result
        (λ answer. MatchOption answer
        (NoneFollows F.gives more (store_state D.state store.now) under_way.now feed.old feed.new)
        (λ both. FollowsOpened F.gives more (store_state D.state store.now) under_way.now feed.old
        feed.new both.0))
        (λ e. IsFollowRefusal F.gives more (store_state D.state store.now) under_way.now feed.old
        feed.new e) }
{
    if more == 0 || !store.roomy_next(under_way) {
        return Ok(None);
    }
    let room = Room::new(alloc)?;
    let batch = take(feed)?;
    if batch.is_empty() {
        return Ok(None);
    }
    let begun = store.begin_next(alloc, under_way, batch)?;
    Ok(Some((begun, room)))
}

// What writes the batch that is begun after one whose gate is written.
fn followed(opened: GateWritten, along: Room, following: Begun, behind: Room) -> UnderWay<Room>
    ensures { result ≡ Following opened along following behind }
{
    UnderWay::Following {
        opened,
        along,
        following,
        behind,
    }
}

// The feed's next batch, which is asked for the number of decisions of the largest one.
fn take<F: Feed>(feed: &mut F) -> Result<Batch, Refusal>
    ensures { F.gives feed.old MOST result feed.new }
{
    feed.next(largest())
}

// Gives the effects of a durable batch to `out`, and returns the number of its decisions.
fn release<C: FnMut(Vec<Released>)>(durable: store::Durable, room: Room, out: &mut C) -> usize
    requires { C.IsAlwaysCallable out.old }
    ensures count { result ≡ length (durable_decisions durable) }
    ensures few { result ≤ MOST }
    ensures released { (released : _) × ((effects_of_all released.items
        ≡ effects_in (durable_decisions durable))
        × C.step out.old released tt out.new) }
{
    let batch = Durable::new(durable, room);
    let count = batch.len();
    let released = batch.release();
    out(released);
    count
}

// The number of decisions of the largest batch.
fn largest() -> Most
    ensures { result ≡ MOST }
{
    Most::new(Batch::MOST as u64).unwrap()
}
