//! What may be concluded about whole runs, in terms of their lists of steps alone.
#![tactic(auto)]

ghost use Rattle.std.specs.Prelude.{◌≡◌, ◌≢◌, ◌⊎◌, ◌++◌, ℕ, List, All, IfOk, IfErr, IsErrAnd, None};
ghost use Rattle.std.specs.Prelude.{length};
ghost use Rattle.devices.specs.declared.mark.Mark.{Mark};
ghost use Rattle.disk.specs.Outlook.Outlook.{AllSucceed, FailsAfter};
ghost use Rattle.flusher.specs.Released.{effects_of_all};
ghost use Rattle.lw_types.specs.declared.refusal.Refusal.TheVariants.{DeviceFailed, OutOfMemory};
ghost use Rattle.lw_types.specs.declared.refusal.Refusal.TheVariants.{JoinNonceSpent, WrongSize};
ghost use Rattle.sessions.specs.Marks.{AreDistinct, Covers, HasUsedUp, marks_of};
ghost use Rattle.sessions.specs.Restored.{raised_by_all, restored_table, spent_device};
ghost use Rattle.sessions.specs.Restored.{IsSinceRecord};
ghost use Rattle.sessions.specs.Table.{TableState};
ghost use Rattle.store_layout.specs.Superblock.{disk_len};
ghost use Rattle.store.specs.Faults.{IsFault, IsFormatRefusal};
ghost use Rattle.store.specs.Image.{HoldsTable};
ghost use Rattle.store.specs.State.{store_state};
ghost use Rattle.world.specs.Answers.{AreRight};
ghost use Rattle.world.specs.Calls.{AreCallsAt, AreForetold, CallRecord, outlook_after_opening};
ghost use Rattle.world.specs.Course.{Course, Origin, adopted_store, beginning, course_of};
ghost use Rattle.world.specs.Course.{new_store};
ghost use Rattle.world.specs.Follows.{Follows};
ghost use Rattle.world.specs.Sound.{HasDisk, IsSoundWorld};
ghost use Rattle.headline.specs.Crash.{IsOpenedAfterCrash, IsOpenedOf};
ghost use Rattle.headline.specs.Failing.{ArmsNothing};
ghost use Rattle.headline.specs.Recovers.{NoMarkTwice, Recovers};
ghost use Rattle.headline.specs.Restoring.{restored_store};

use devices::{GrantsSince, SessionName};
use disk::{Image, Sim};
use flusher::Released;
use lw_types::{NetId, Refusal};
use sessions::Table;
use std::alloc::Global;
use store::{Store, establish_back};
use world::{Answer, Step, World, run};

/// Takes the steps, which may include crashes, on a world with a new store on this disk. At the end
/// makes the disk crash to this image, and opens the store. With [`Image::Bytes`] each image that
/// the disk permits can be given. A refusal is `OutOfMemory`, `DeviceFailed`, or that of
/// [`World::format`] for such slots or such a disk. So what a crash leaves is never refused because
/// it holds no store. `DeviceFailed` is never returned if all calls of the disk were to succeed and
/// no step arms a failure.
///
/// If it isn't refused, each answer is right, and a failed call of the disk comes when it is due.
/// The store was opened from this image of the disk that the steps left. It has the table and the
/// number that the first n decided commands leave, for some n, and every command of which an effect
/// has left is among these. Each image that a crash could have left of that disk holds such a table
/// and number. Over all lives no mark was used up twice by what has left: no JoinNonce of a device
/// stands in two accepts. The table covers these marks, so a world may adopt this store with them.
pub fn crash_after<D: Sim + Drop>(
    alloc: Global,
    disk: D,
    net_id: NetId,
    slots: u64,
    steps: &[Step],
    image: &Image,
) -> Result<(Vec<Answer>, Store<D>), Refusal>
    ensures answers { IfOk result (λ found. AreRight (new_store net_id slots)
        (beginning (new_store net_id slots)) steps.now found.0.items) }
    ensures calls { IfOk result (λ found. AreForetold
        (record { failed = D.failures disk; coming = outlook_after_opening (D.outlook disk) })
        steps.now found.0.items) }
    ensures crash { IfOk result (λ found. IsOpenedAfterCrash D.Disk (new_store net_id slots)
        steps.now found.0.items image.now (store_state D.state found.1)) }
    ensures recovers { IfOk result (λ found. Recovers (new_store net_id slots)
        (course_of (new_store net_id slots) (beginning (new_store net_id slots)) steps.now
        found.0.items)
        (store_state D.state found.1).table (store_state D.state found.1).seq) }
    ensures refused { IfErr result (λ e. e ≢ DeviceFailed → e ≢ OutOfMemory
        → IsFormatRefusal slots (length (D.state disk).content) e) }
    ensures unarmed { D.outlook disk ≡ AllSucceed → ArmsNothing steps.now
        → IfErr result (λ e. e ≢ DeviceFailed) }
    ensures once { IfOk result (λ found. NoMarkTwice (new_store net_id slots)
        (course_of (new_store net_id slots) (beginning (new_store net_id slots)) steps.now
        found.0.items)) }
    ensures covered { IfOk result (λ found. HasUsedUp (store_state D.state found.1).table
        (marks_of (course_of (new_store net_id slots) (beginning (new_store net_id slots)) steps.now
        found.0.items).left)) }
{
    sessions::laws::no_mark_stands_twice();
    let world = World::format(alloc, disk, net_id, slots)?;
    crash_from(alloc, world, steps, image)
}

/// The same for a world that begins with the store on this disk, in records of any version. A
/// refusal is `OutOfMemory`, `DeviceFailed`, or that of [`World::adopt`] for what the disk holds.
///
/// If it isn't refused, the disk held a table and a number, and each clause of [`crash_after`]
/// holds for a course that begins with them. If the marks that were used up before are distinct and
/// that table covers them, then no mark is twice among these and those of what has left since, and
/// the recovered table covers them all. So one adoption may follow another.
pub fn crash_after_adoption<D: Sim + Drop>(
    alloc: Global,
    disk: D,
    steps: &[Step],
    image: &Image,
) -> Result<(Vec<Answer>, Store<D>), Refusal>
    ensures holds { IfOk result (λ _. (t : TableState) × ((seq : ℕ)
        × HoldsTable t seq (D.state disk).content)) }
    ensures answers { IfOk result (λ found. (t : TableState) (seq : ℕ) (marks : List Mark)
        → HoldsTable t seq (D.state disk).content
        → AreRight (adopted_store t seq marks) (beginning (adopted_store t seq marks)) steps.now
        found.0.items) }
    ensures calls { IfOk result (λ found. AreForetold
        (record { failed = D.failures disk; coming = outlook_after_opening (D.outlook disk) })
        steps.now found.0.items) }
    ensures crash { IfOk result (λ found. (t : TableState) (seq : ℕ) (marks : List Mark)
        → HoldsTable t seq (D.state disk).content
        → IsOpenedAfterCrash D.Disk (adopted_store t seq marks) steps.now found.0.items image.now
        (store_state D.state found.1)) }
    ensures recovers { IfOk result (λ found. (t : TableState) (seq : ℕ) (marks : List Mark)
        → HoldsTable t seq (D.state disk).content
        → Recovers (adopted_store t seq marks)
        (course_of (adopted_store t seq marks) (beginning (adopted_store t seq marks)) steps.now
        found.0.items) (store_state D.state found.1).table (store_state D.state found.1).seq) }
    ensures refused { IfErr result (λ e. e ≢ DeviceFailed → e ≢ OutOfMemory
        → IsFault (D.state disk).content e) }
    ensures unarmed { D.outlook disk ≡ AllSucceed → ArmsNothing steps.now
        → IfErr result (λ e. e ≢ DeviceFailed) }
    ensures once { IfOk result (λ found. (t : TableState) (seq : ℕ) (marks : List Mark)
        → HoldsTable t seq (D.state disk).content
        → All (λ m. Covers t m) marks → AreDistinct marks
        → NoMarkTwice (adopted_store t seq marks)
        (course_of (adopted_store t seq marks) (beginning (adopted_store t seq marks)) steps.now
        found.0.items)) }
    ensures covered { IfOk result (λ found. (t : TableState) (seq : ℕ) (marks : List Mark)
        → HoldsTable t seq (D.state disk).content
        → All (λ m. Covers t m) marks → AreDistinct marks
        → HasUsedUp (store_state D.state found.1).table (marks ++ marks_of
        (course_of (adopted_store t seq marks) (beginning (adopted_store t seq marks)) steps.now
        found.0.items).left)) }
{
    store::laws::what_is_held_is_sound();
    match World::adopt(alloc, disk) {
        Ok(world) => crash_from(alloc, world, steps, image),
        Err((_, refusal)) => Err(refusal),
    }
}

/// The same for a network that lost its disk and continues with an older copy of its store. The
/// copy's table is restored: the sessions on record count as granted, and each device continues as
/// if N more of its JoinNonces had been used, where `since` is N. A store of that table and of the
/// copy's number is made on this disk, and a world adopts it. A refusal is `OutOfMemory`,
/// `DeviceFailed`, `JoinNonceSpent` if a device has fewer than N JoinNonces left, or `WrongSize` if
/// the disk doesn't have the length of such a store. `DeviceFailed` is never returned if all calls
/// of the disk were to succeed and no step arms a failure.
///
/// If it isn't refused, the clauses `answers`, `calls`, `crash` and `recovers` of
/// [`crash_after_adoption`] hold for a course that begins with the restored table and the copy's
/// number.
///
/// This is assumed of the marks that were used up before: they are those of devices that the copy
/// has, and they are distinct. The JoinNonce of each one's session is at most N above the last one
/// that the copy has for the device, or above one on record. Then no mark is twice among these and
/// those of what has left since, and the recovered table covers them all. So N counts JoinNonces,
/// and not joins: an earlier restore also used up its own N, unless the JoinNonce from which it
/// continued is on record. Nothing is said of other devices.
pub fn crash_after_restoring<D: Sim + Drop>(
    alloc: Global,
    older: Table,
    seq: u64,
    recorded: &[SessionName],
    since: GrantsSince,
    disk: D,
    steps: &[Step],
    image: &Image,
) -> Result<(Vec<Answer>, Store<D>), Refusal>
    ensures answers { IfOk result (λ found. (marks : List Mark) →
        AreRight (restored_store since recorded.now older seq marks)
        (beginning (restored_store since recorded.now older seq marks)) steps.now found.0.items) }
    ensures calls { IfOk result (λ found. AreForetold
        (record { failed = D.failures disk; coming = outlook_after_opening (D.outlook disk) })
        steps.now found.0.items) }
    ensures crash { IfOk result (λ found. (marks : List Mark) →
        IsOpenedAfterCrash D.Disk (restored_store since recorded.now older seq marks) steps.now
        found.0.items image.now (store_state D.state found.1)) }
    ensures recovers { IfOk result (λ found. (marks : List Mark) →
        Recovers (restored_store since recorded.now older seq marks)
        (course_of (restored_store since recorded.now older seq marks)
        (beginning (restored_store since recorded.now older seq marks)) steps.now found.0.items)
        (store_state D.state found.1).table (store_state D.state found.1).seq) }
    ensures unarmed { D.outlook disk ≡ AllSucceed → ArmsNothing steps.now
        → IfErr result (λ e. e ≢ DeviceFailed) }
    ensures once { IfOk result (λ found. (marks : List Mark)
        → All (λ m. IsSinceRecord since recorded.now older m) marks → AreDistinct marks
        → NoMarkTwice (restored_store since recorded.now older seq marks)
        (course_of (restored_store since recorded.now older seq marks)
        (beginning (restored_store since recorded.now older seq marks)) steps.now
        found.0.items)) }
    ensures covered { IfOk result (λ found. (marks : List Mark)
        → All (λ m. IsSinceRecord since recorded.now older m) marks → AreDistinct marks
        → HasUsedUp (store_state D.state found.1).table (marks ++ marks_of
        (course_of (restored_store since recorded.now older seq marks)
        (beginning (restored_store since recorded.now older seq marks)) steps.now
        found.0.items).left)) }
    ensures refused { IfErr result (λ e. e ≢ DeviceFailed → e ≢ OutOfMemory
        → ((e ≡ JoinNonceSpent) × (spent_device since (raised_by_all recorded.now older) ≢ None))
        ⊎ ((e ≡ WrongSize) × (length (D.state disk).content ≢ disk_len older.slots))) }
{
    sessions::laws::a_record_raises_a_copy();
    sessions::laws::a_restored_table_covers();
    let mut table = older;
    table.raise_all(recorded);
    match table.restore(since) {
        Ok(()) => crash_from_table(alloc, table, seq, disk, steps, image),
        Err(_) => Err(Refusal::JoinNonceSpent),
    }
}

// The same for a table and a number, of which a store is made on this disk.
fn crash_from_table<D: Sim + Drop>(
    alloc: Global,
    table: Table,
    seq: u64,
    disk: D,
    steps: &[Step],
    image: &Image,
) -> Result<(Vec<Answer>, Store<D>), Refusal>
    ensures answers { IfOk result (λ found. (marks : List Mark) →
        AreRight (adopted_store table seq marks) (beginning (adopted_store table seq marks))
        steps.now found.0.items) }
    ensures calls { IfOk result (λ found. AreForetold
        (record { failed = D.failures disk; coming = outlook_after_opening (D.outlook disk) })
        steps.now found.0.items) }
    ensures crash { IfOk result (λ found. (marks : List Mark) →
        IsOpenedAfterCrash D.Disk (adopted_store table seq marks) steps.now found.0.items image.now
        (store_state D.state found.1)) }
    ensures recovers { IfOk result (λ found. (marks : List Mark) →
        Recovers (adopted_store table seq marks)
        (course_of (adopted_store table seq marks) (beginning (adopted_store table seq marks))
        steps.now found.0.items)
        (store_state D.state found.1).table (store_state D.state found.1).seq) }
    ensures unarmed { D.outlook disk ≡ AllSucceed → ArmsNothing steps.now
        → IfErr result (λ e. e ≢ DeviceFailed) }
    ensures once { IfOk result (λ found. (marks : List Mark)
        → All (λ m. Covers table m) marks → AreDistinct marks
        → NoMarkTwice (adopted_store table seq marks)
        (course_of (adopted_store table seq marks) (beginning (adopted_store table seq marks))
        steps.now found.0.items)) }
    ensures covered { IfOk result (λ found. (marks : List Mark)
        → All (λ m. Covers table m) marks → AreDistinct marks
        → HasUsedUp (store_state D.state found.1).table (marks ++ marks_of
        (course_of (adopted_store table seq marks) (beginning (adopted_store table seq marks))
        steps.now found.0.items).left)) }
    ensures refused { IfErr result (λ e. e ≢ DeviceFailed → e ≢ OutOfMemory
        → (e ≡ WrongSize) × (length (D.state disk).content ≢ disk_len table.slots)) }
{
    match establish_back(alloc, disk, table, seq) {
        Ok(store) => crash_after_adoption(alloc, store.close(), steps, image),
        Err((_disk, refusal)) => Err(refusal),
    }
}

/// Ends a world: makes its disk crash to this image, and opens the store from what is left. Returns
/// the store, and the effects that were released over all lives, in order. A refusal is
/// `OutOfMemory` or `DeviceFailed`, and then everything is dropped. `DeviceFailed` is never
/// returned if all calls of the disk were to succeed, and always if the next one was to fail.
///
/// For each course that the world has followed, the returned effects are those that have left in
/// it. The store has the table and the number that the first n of its decided commands leave, for
/// some n, and every command whose batch was released is among these. If the marks that were used
/// up before are distinct, and the sound table with which the course began covers them, then no
/// mark is twice among these and those of what has left, and the opened table covers them all.
pub fn open_after<D: Sim + Drop>(
    alloc: Global,
    world: World<D>,
    image: &Image,
) -> Result<(Vec<Released>, Store<D>), Refusal>
    requires { IsSoundWorld D.state world }
    ensures released { IfOk result (λ found. found.0 ≡ world.released) }
    ensures crash { (before : D) → HasDisk world.condition before → IfOk result
        (λ found. IsOpenedOf image.now (D.state before) (store_state D.state found.1)) }
    ensures recovers { (origin : Origin) (c : Course) → Follows D.state origin c world → IfOk result
        (λ found. (c.left ≡ effects_of_all found.0.items) × Recovers origin c
        (store_state D.state found.1).table (store_state D.state found.1).seq) }
    ensures used { (origin : Origin) (c : Course) → Follows D.state origin c world
        → HasUsedUp origin.table origin.marks → IfOk result
        (λ found. HasUsedUp (store_state D.state found.1).table
        (origin.marks ++ marks_of (effects_of_all found.0.items))) }
    ensures refused { (origin : Origin) (c : Course) → Follows D.state origin c world
        → IfErr result (λ e. (e ≡ OutOfMemory) ⊎ (e ≡ DeviceFailed)) }
    ensures unarmed { (before : D) → HasDisk world.condition before → D.outlook before ≡ AllSucceed
        → IfErr result (λ e. e ≢ DeviceFailed) }
    ensures fails { (before : D) → HasDisk world.condition before → D.outlook before ≡ FailsAfter 0
        → IsErrAnd result (λ e. e ≡ DeviceFailed) }
{
    world::laws::what_a_crash_leaves();
    sessions::laws::no_mark_stands_twice();
    let (mut disk, released) = world.close();
    disk.crash(image);
    let store = store::open(alloc, disk)?;
    Ok((released, store))
}

// Takes the steps on a world, makes its disk crash to this image at the end, and opens the store.
// The clauses hold for each place where the course may have begun.
fn crash_from<D: Sim + Drop>(
    alloc: Global,
    mut world: World<D>,
    steps: &[Step],
    image: &Image,
) -> Result<(Vec<Answer>, Store<D>), Refusal>
    requires { IsSoundWorld D.state world }
    ensures answers { IfOk result (λ found. (origin : Origin)
        → Follows D.state origin (beginning origin) world
        → AreRight origin (beginning origin) steps.now found.0.items) }
    ensures calls { IfOk result (λ found. (calls : CallRecord)
        → AreCallsAt D.failures D.outlook calls world.condition
        → AreForetold calls steps.now found.0.items) }
    ensures crash { IfOk result (λ found. (origin : Origin)
        → Follows D.state origin (beginning origin) world
        → IsOpenedAfterCrash D.Disk origin steps.now found.0.items image.now
        (store_state D.state found.1)) }
    ensures recovers { IfOk result (λ found. (origin : Origin)
        → Follows D.state origin (beginning origin) world
        → Recovers origin (course_of origin (beginning origin) steps.now found.0.items)
        (store_state D.state found.1).table (store_state D.state found.1).seq) }
    ensures used { IfOk result (λ found. (origin : Origin)
        → Follows D.state origin (beginning origin) world
        → HasUsedUp origin.table origin.marks
        → HasUsedUp (store_state D.state found.1).table (origin.marks ++ marks_of
        (course_of origin (beginning origin) steps.now found.0.items).left)) }
    ensures refused { IfErr result (λ e. (origin : Origin)
        → Follows D.state origin (beginning origin) world
        → e ≢ DeviceFailed → e ≢ OutOfMemory → ⊥) }
    ensures unarmed { IfErr result (λ e. (calls : CallRecord)
        → AreCallsAt D.failures D.outlook calls world.condition → calls.coming ≡ AllSucceed
        → ArmsNothing steps.now → e ≢ DeviceFailed) }
{
    match run(&mut world, alloc, steps) {
        Ok(answers) => match open_after(alloc, world, image) {
            Ok((_, store)) => Ok((answers, store)),
            Err(refusal) => Err(refusal),
        },
        Err(refusal) => {
            let _ = world.close();
            Err(refusal)
        }
    }
}
