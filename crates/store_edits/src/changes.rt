// Changing the devices of a store.
ghost use Rattle.std.specs.Prelude.{IfErr, IfOk};
ghost use Rattle.store.specs.Formatting.{IsShut};
ghost use Rattle.store.specs.State.{IsSettled, disk_of, store_state};
ghost use Rattle.store_edits.specs.Changes.{HasChanges, HoldsOldOrChanged, HoldsOldOrNone};
ghost use Rattle.store_edits.specs.Changes.{IsMadeOf, IsNotClosedAfter, IsNotMadeWith, IsRefusal};
ghost use Rattle.store_edits.specs.Changes.{disk_left, old_disk};

use device_changes::{Change, Refused, changed_table};
use disk::Disk;
use lw_types::Refusal;
use sessions::Table;
use std::alloc::Global;
use store::{Store, establish_back};

/// Why changes weren't made, with the disk of the store.
#[derive(Drop)]
pub enum NotChanged<D> {
    /// Some rows are faulty, or memory ran out. Nothing was written.
    Rows(D, Refused),
    /// The store refused.
    Store(D, Refusal),
}

/// Makes every change in a store's table, or none. The new table replaces the old one on the disk
/// in one step: after a crash at any moment the disk holds one of the two.
pub fn store_with_changes<D: Disk + Drop>(
    alloc: Global,
    store: Store<D>,
    rows: &[Change],
) -> Result<Store<D>, NotChanged<D>>
    ensures changed { IfOk result (λ s.
        HasChanges rows.now (store_state D.state store) (store_state D.state s)) }
    ensures settled { D.honest → IsSettled (store_state D.state store)
        → IfOk result (λ s. IsSettled (store_state D.state s)) }
    ensures images { D.honest → IsSettled (store_state D.state store)
        → IfErr result (λ e. HoldsOldOrChanged rows.now (store_state D.state store)
        (D.state (disk_left e))) }
    ensures refused { IfErr result
        (IsRefusal rows.now (store_state D.state store) (disk_of store)) }
{
    store::laws::a_settled_store_is_on_its_disk();
    match changed_table(alloc, store.table(), rows) {
        Ok(table) => match store.replace(alloc, table) {
            Ok(store) => Ok(store),
            Err((disk, refusal)) => Err(NotChanged::Store(disk, refusal)),
        },
        Err(refused) => Err(NotChanged::Rows(store.close(), refused)),
    }
}

/// Why a store wasn't replaced by a larger one.
#[derive(Drop)]
pub enum NotGrown<D, E: Disk> {
    /// The new one wasn't made. The old disk is as it was.
    NotMade {
        old: D,
        disk: E,
        refusal: Refusal,
    },
    /// The new one was made. The old one may not be closed.
    NotClosed {
        old: D,
        new: Store<E>,
        refusal: Refusal,
    },
}

/// Makes a store with this table, and the old one's number, on another disk. After that closes the
/// old one: its disk holds no store. After a crash at any moment the old disk holds the old store,
/// or the new disk holds the new one, and the old disk is closed only after the new one is synced.
pub fn grow_into<D: Disk + Drop, E: Disk + Drop>(
    alloc: Global,
    old: Store<D>,
    table: Table,
    disk: E,
) -> Result<(D, Store<E>), NotGrown<D, E>>
    ensures made { IfOk result (λ r. IsMadeOf table (store_state D.state old)
        (store_state E.state r.1)) }
    ensures settled { E.honest → IfOk result (λ r. IsSettled (store_state E.state r.1)) }
    ensures closed { D.honest → IfOk result (λ r. IsShut (D.state r.0)) }
    ensures not_made { IfErr result (λ e. IsNotMadeWith (disk_of old) e) }
    ensures not_closed { E.honest → IfErr result
        (IsNotClosedAfter E.state table (store_state D.state old)) }
    ensures images { D.honest → IsSettled (store_state D.state old) → IfErr result
        (λ e. HoldsOldOrNone (store_state D.state old) (D.state (old_disk e))) }
{
    store::laws::a_settled_store_is_on_its_disk();
    let seq = old.seq();
    match establish_back(alloc, disk, table, seq) {
        Err((disk, refusal)) => Err(NotGrown::NotMade {
            old: old.close(),
            disk,
            refusal,
        }),
        Ok(new) => match old.shut() {
            Ok(old) => Ok((old, new)),
            Err((old, refusal)) => Err(NotGrown::NotClosed { old, new, refusal }),
        },
    }
}
