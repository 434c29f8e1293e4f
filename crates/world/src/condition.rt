// Where the disk of a world is.
use crate::Answer;
use crate::life::Life;
use disk::Sim;
use lw_types::Refusal;
use std::alloc::Global;
use store::Store;

/// Where the disk of a world is.
pub(crate) enum Condition<D: Sim> {
    /// In a store that is open.
    Open(Life<D>),
    /// Outside of any store, since the last opening was refused.
    Closed(D),
    /// Inside a crash, outside of the store. This state is never seen from outside.
    Crashing,
}

impl<D: Sim> Condition<D> {
    ghost use Rattle.std.specs.Prelude.{◌≡◌, ℕ, false};
    ghost use Rattle.store.specs.State.{store_state, disk_of, IsSettled};
    ghost use Rattle.world.specs.Calls.{ForetellsOpening, IsNoFailure};
    ghost use Rattle.world.specs.Follows.{Reopens, IsBegunCondition};
    ghost use Rattle.world.specs.Sound.{IsSomewhere, HasDisk, IsSoundCondition};
    ghost use Rattle.world.specs.Tells.{IsOpenedFrom};
    ghost use Rattle.disk.specs.State.{NothingOpen};

    /// The store on a disk that crashed is opened, and a life begins with it.
    pub(crate) fn reopen(alloc: Global, disk: D) -> (Self, Answer)
        ensures sound { (there fit : ℕ) → IsSoundCondition D.state result.0 there fit }
        ensures course { Reopens D.state disk result.1 result.0 }
        ensures calls { ForetellsOpening D.failures D.outlook disk result.1 result.0 }
        ensures from { NothingOpen (D.state disk) → (now : D) → HasDisk result.0 now
            → IsOpenedFrom (D.state disk).content (D.state now) }
    {
        store::laws::a_settled_store_is_on_its_disk();
        disk::laws::settled_disk_keeps_its_content();
        match store::open_back(alloc, disk) {
            Ok(store) => Condition::begin(alloc, store),
            Err((disk, refusal)) => (Condition::Closed(disk), Answer::Refused(refusal)),
        }
    }

    // A life begins with a store that was opened.
    fn begin(alloc: Global, store: Store<D>) -> (Self, Answer)
        ensures sound { (there fit : ℕ) → IsSoundCondition D.state result.0 there fit }
        ensures course { (store_state D.state store).failed ≡ false
            → IsSettled (store_state D.state store)
            → IsBegunCondition D.state store result.1 result.0 }
        ensures calls { IsNoFailure result.1 }
        ensures same { (now : D) → HasDisk result.0 now → now ≡ disk_of store }
    {
        store::laws::a_settled_store_is_on_its_disk();
        dedup::laws::no_copies_no_windows();
        let devices = store.table().devices().len();
        let seq = store.seq();
        match Life::new(alloc, store) {
            Ok(life) => (Condition::Open(life), Answer::Opened { devices, seq }),
            Err((disk, refusal)) => (Condition::Closed(disk), Answer::Refused(refusal)),
        }
    }

    /// Ends what exists, and returns the disk.
    pub(crate) fn end(self) -> D
        requires { IsSomewhere self }
        ensures { HasDisk self result }
    {
        match self {
            Condition::Open(life) => life.end(),
            Condition::Closed(disk) => disk,
            Condition::Crashing => unreachable!(),
        }
    }
}
