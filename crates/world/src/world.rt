// The world.
ghost use Rattle.std.specs.Prelude.{◌≡◌};

use crate::condition::Condition;
use crate::life::Life;
use crate::{Answer, Step, laws};
use disk::{Image, Sim};
use flusher::Released;
use gateway_wire::Emission;
use lw_types::{NetId, Refusal};
use std::alloc::Global;
use std::mem;
use store::Store;

/// A simulated network server over all its lives: a store on a disk, the core that decides on its
/// table, what is begun, and the effects that were released.
pub struct World<D: Sim> {
    pub(crate) condition: Condition<D>,
    /// The effects released over all lives, in order.
    pub(crate) released: Vec<Released>,
    /// The number of them that were emitted, or lost at a crash.
    pub(crate) emitted: usize,
}

impl<D: Sim + Drop> World<D> {
    ghost use Rattle.std.specs.Prelude.{◌≢◌, ◌+◌, ℕ, List, false, IfOk, IfErr, IsErrAnd};
    ghost use Rattle.std.specs.Prelude.{MatchResult, length};
    ghost use Rattle.lw_types.specs.declared.refusal.Refusal.TheVariants.{DeviceFailed};
    ghost use Rattle.lw_types.specs.declared.refusal.Refusal.TheVariants.{OutOfMemory};
    ghost use Rattle.devices.specs.declared.mark.Mark.{Mark};
    ghost use Rattle.disk.specs.Outlook.{IsArmed};
    ghost use Rattle.disk.specs.Outlook.Outlook.{AllSucceed, FailsAfter};
    ghost use Rattle.flusher.specs.Released.{effects_of_all};
    ghost use Rattle.sessions.specs.Table.{TableState};
    ghost use Rattle.store.specs.Faults.{IsFault, IsFormatRefusal};
    ghost use Rattle.store.specs.Image.{HoldsTable};
    ghost use Rattle.store.specs.State.{store_state, disk_of, HoldsOn, IsOld, IsSettled};
    ghost use Rattle.world.specs.declared.step.Step.TheVariants as steps;
    ghost use Rattle.world.specs.Calls.{AreCallsAt, ForetellsAt, outlook_after_opening};
    ghost use Rattle.world.specs.Tells.{ConditionTellsRoom, CrashesTo, LeavesImage};
    ghost use Rattle.world.specs.Course.{Origin, Course, adopted_store, beginning, new_store};
    ghost use Rattle.world.specs.Course.{effects_from};
    ghost use Rattle.sessions.specs.Marks.{IsSubsequence};
    ghost use Rattle.world.specs.Follows.{Follows, Moves, Survives};
    ghost use Rattle.world.specs.Sound.{IsSoundWorld, HasDisk};

    /// A world with a new store on this disk. Refused as [`store::format`] is, and with
    /// `OutOfMemory`.
    pub fn format(alloc: Global, disk: D, net_id: NetId, slots: u64) -> Result<Self, Refusal>
        ensures sound { IfOk result (IsSoundWorld D.state) }
        ensures course { IfOk result
            (Follows D.state (new_store net_id slots) (beginning (new_store net_id slots))) }
        ensures calls { IfOk result (λ world. AreCallsAt D.failures D.outlook
            (record { failed = D.failures disk; coming = outlook_after_opening (D.outlook disk) })
            world.condition) }
        ensures unarmed { D.outlook disk ≡ AllSucceed → IfErr result (λ e. e ≢ DeviceFailed) }
        ensures refused { IfErr result (IsFormatRefusal slots (length (D.state disk).content)) }
    {
        let store = store::format(alloc, disk, net_id, slots)?;
        match World::of_store(alloc, store) {
            Ok(world) => Ok(world),
            Err((_, refusal)) => Err(refusal),
        }
    }

    /// A world with the store that this disk holds, in records of any version. Its course begins
    /// with the table and the number that are held, and with any marks that were used up before.
    /// Refused as [`store::open_back`] is, and with `OutOfMemory`. Then the disk is returned, and
    /// each image that a crash may leave of it holds the tables of some image that a crash might
    /// have left of the disk before.
    pub fn adopt(alloc: Global, disk: D) -> Result<Self, (D, Refusal)>
        ensures sound { IfOk result (IsSoundWorld D.state) }
        ensures holds { IfOk result (λ _. (t : TableState) × ((seq : ℕ)
            × HoldsTable t seq (D.state disk).content)) }
        ensures course { IfOk result (λ world. (t : TableState) (seq : ℕ) (marks : List Mark)
            → HoldsTable t seq (D.state disk).content
            → Follows D.state (adopted_store t seq marks)
            (beginning (adopted_store t seq marks)) world) }
        ensures calls { IfOk result (λ world. AreCallsAt D.failures D.outlook
            (record { failed = D.failures disk; coming = outlook_after_opening (D.outlook disk) })
            world.condition) }
        ensures refused { IfErr result (λ e. e.1 ≢ DeviceFailed → e.1 ≢ OutOfMemory
            → IsFault (D.state disk).content e.1) }
        ensures device { IfErr result (λ e. (e.1 ≡ DeviceFailed
            → D.failures e.0 ≡ D.failures disk + 1)
            × (e.1 ≢ DeviceFailed → D.failures e.0 ≡ D.failures disk)) }
        ensures unarmed { D.outlook disk ≡ AllSucceed
            → IfErr result (λ e. (e.1 ≢ DeviceFailed) × (D.outlook e.0 ≡ AllSucceed)) }
        ensures fails { D.outlook disk ≡ FailsAfter 0 → IsErrAnd result
            (λ e. (e.1 ≡ DeviceFailed) × (D.outlook e.0 ≡ AllSucceed)) }
        ensures armed { IsArmed (D.outlook disk) → MatchResult result
            (λ world. (now : D) → HasDisk world.condition now → IsArmed (D.outlook now))
            (λ e. (e.1 ≡ DeviceFailed → D.outlook e.0 ≡ AllSucceed)
            × (e.1 ≢ DeviceFailed → IsArmed (D.outlook e.0))) }
        ensures kept { IfErr result (λ e. HoldsOn (D.state disk) (D.state e.0)) }
        ensures same { ¬ (IsOld (D.state disk).content)
            → IfErr result (λ e. (D.state e.0).content ≡ (D.state disk).content) }
    {
        store::laws::a_settled_store_is_on_its_disk();
        match store::open_back(alloc, disk) {
            Ok(store) => World::of_store(alloc, store),
            Err(refused) => Err(refused),
        }
    }

    // A world that begins with this store.
    fn of_store(alloc: Global, store: Store<D>) -> Result<Self, (D, Refusal)>
        ensures sound { IfOk result (IsSoundWorld D.state) }
        ensures course { (store_state D.state store).failed ≡ false
            → IsSettled (store_state D.state store)
            → IfOk result (λ world. (origin : Origin)
            → (store_state D.state store).table ≡ origin.table
            → (store_state D.state store).seq ≡ origin.number
            → Follows D.state origin (beginning origin) world) }
        ensures same { IfOk result
            (λ world. (now : D) → HasDisk world.condition now → now ≡ disk_of store) }
        ensures refused { IfErr result (λ e. (e.0 ≡ disk_of store) × (e.1 ≡ OutOfMemory)) }
    {
        store::laws::a_settled_store_is_on_its_disk();
        dedup::laws::no_copies_no_windows();
        match Life::new(alloc, store) {
            Ok(life) => Ok(World {
                condition: Condition::Open(life),
                released: Vec::new(alloc),
                emitted: 0,
            }),
            Err(refused) => Err(refused),
        }
    }

    /// Takes one step, and returns its answer. Whatever course the world has followed, the answer
    /// is right in it, and the world goes on following it (`course`). A call of the disk fails if
    /// that is due, and at no other time (`calls`). `Full` is returned only if the journal has no
    /// room for the largest batch, and a batch is taken only if it has. A checkpoint has the number
    /// of calls that the state of the other area's gate requires, and is refused as `Damaged`
    /// exactly at the last generation (`room_told`). A crash leaves the image that it names
    /// (`crashed`). A step is never refused as a whole: if its answer is `OutOfMemory`, it did what
    /// the course says of that answer.
    pub fn step(&mut self, alloc: Global, step: &Step) -> Answer
        requires { IsSoundWorld D.state self.old }
        ensures sound { IsSoundWorld D.state self.new }
        ensures course { Moves D.state self.old step.now result self.new }
        ensures calls { ForetellsAt D.failures D.outlook self.old.condition step.now result
            self.new.condition }
        ensures room_told { ConditionTellsRoom D.state self.old.condition step.now result }
        ensures crashed { LeavesImage D.state self.old.condition step.now self.new.condition }
    {
        laws::of_runs();
        match step {
            Step::Crash(image) => self.crash(alloc, image),
            Step::Emit => self.emit(alloc),
            _ => match &mut self.condition {
                Condition::Open(life) => life.step(alloc, step, &mut self.released),
                Condition::Closed(_) | Condition::Crashing => Answer::Idle,
            },
        }
    }

    // The oldest released effect leaves.
    fn emit(&mut self, alloc: Global) -> Answer
        requires { IsSoundWorld D.state self.old }
        ensures sound { IsSoundWorld D.state self.new }
        ensures course { Moves D.state self.old steps.Emit result self.new }
        ensures calls { ForetellsAt D.failures D.outlook self.old.condition steps.Emit result
            self.new.condition }
    {
        match self.released.get(self.emitted) {
            None => Answer::Idle,
            Some(released) => match Emission::of(alloc, released.effect()) {
                Ok(emission) => {
                    self.emitted += 1;
                    Answer::Emitted(emission)
                }
                Err(refusal) => Answer::Refused(refusal),
            },
        }
    }

    // The disk crashes to this image, and the store is opened again. Effects that were released and
    // not emitted are lost.
    fn crash(&mut self, alloc: Global, image: &Image) -> Answer
        requires { IsSoundWorld D.state self.old }
        ensures sound { IsSoundWorld D.state self.new }
        ensures course { Moves D.state self.old (steps.Crash image.now) result self.new }
        ensures calls { ForetellsAt D.failures D.outlook self.old.condition
            (steps.Crash image.now) result self.new.condition }
        ensures crashed { CrashesTo D.state image.now self.old.condition self.new.condition }
    {
        laws::of_runs();
        self.emitted = self.released.len();
        let mut disk = mem::replace(&mut self.condition, Condition::Crashing).end();
        disk.crash(image);
        disk::laws::settled_disk_keeps_its_content();
        let (condition, answer) = Condition::reopen(alloc, disk);
        self.put(condition);
        answer
    }

    fn put(&mut self, condition: Condition<D>)
        ensures condition { self.new.condition ≡ condition }
        ensures released { self.new.released ≡ self.old.released }
        ensures emitted { self.new.emitted ≡ self.old.emitted }
    {
        match mem::replace(&mut self.condition, condition) {
            Condition::Open(life) => {
                let _ = life.end();
            }
            Condition::Closed(_) | Condition::Crashing => {}
        }
    }

    /// Ends the world: what is under way is lost. Returns the disk, with the effects that were
    /// released over all lives, in order. Each image that a crash may leave of that disk holds the
    /// fold of the first n decided commands, for some n, and every command of which an effect has
    /// left is among these.
    pub fn close(self) -> (D, Vec<Released>)
        requires { IsSoundWorld D.state self }
        ensures disk { HasDisk self.condition result.0 }
        ensures released { result.1 ≡ self.released }
        ensures course { (origin : Origin) (c : Course) → Follows D.state origin c self
            → Survives origin c (D.state result.0)
            × ((c.left ≡ effects_of_all result.1.items)
            × IsSubsequence c.left (effects_from origin c.settled)) }
    {
        let World {
            condition,
            released,
            emitted: _,
        } = self;
        (condition.end(), released)
    }
}
