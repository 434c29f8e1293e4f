// Puts another table in place of a store's own, and closes a store's superblock.
ghost use Rattle.std.specs.Prelude.{◌≡◌, ◌≢◌, ◌⊎◌, ◌<◌, ◌≤◌, ◌+◌, false, true, Err, length};
ghost use Rattle.std.specs.Prelude.{slice_index, IfErr, IfOk, MatchResult};
ghost use Rattle.lw_types.specs.declared.refusal.Refusal.TheVariants.{Damaged, DeviceFailed};
ghost use Rattle.lw_types.specs.declared.refusal.Refusal.TheVariants.{Failed, OutOfMemory};
ghost use Rattle.disk.specs.Outlook.Outlook.{AllSucceed};
ghost use Rattle.disk.specs.State.{EveryImage};
ghost use Rattle.gate_log.specs.declared.layout.TheConstants.{OPEN};
ghost use Rattle.store.specs.Formatting.{IsShut};
ghost use Rattle.store.specs.Image.{HoldsTable};
ghost use Rattle.store.specs.declared.areas.TheConstants.{LAST_GENERATION};

use crate::areas::LAST_GENERATION;
use crate::formatting::shut;
use crate::migrating::publish;
use crate::{Store, laws};
use disk::Disk;
use lw_types::Refusal;
use sessions::Table;
use std::alloc::Global;

impl<D: Disk> Store<D> {
    ghost use Rattle.store.specs.State.{store_state, disk_of, IsSettled};

    /// The store with another table of the same network and number of slots in place of its own,
    /// and with the same number of the last decision. The table is published in the other area, by
    /// four calls of the disk, or six if [`Store::must_retire`]. Before its gate is open no byte of
    /// the live area is written: after a crash at any moment the disk holds one of the two tables.
    /// Refused with `Failed` exactly if an earlier call of the disk failed, else with `Damaged`
    /// exactly if the live area has the last generation, and with `OutOfMemory` if memory runs out,
    /// before any call; otherwise with `DeviceFailed` exactly if a call of the disk failed. With a
    /// refusal the disk is returned, unchanged except after `DeviceFailed`. The cost grows with the
    /// new table's records.
    pub fn replace(self, alloc: Global, table: Table) -> Result<Store<D>, (D, Refusal)>
        requires network { table.net_id ≡ (store_state D.state self).table.net_id }
        requires slots { table.slots ≡ (store_state D.state self).table.slots }
        ensures table { IfOk result (λ store. ((store_state D.state store).table ≡ table)
            × ((store_state D.state store).seq ≡ (store_state D.state self).seq)) }
        ensures settled { D.honest → IsSettled (store_state D.state self)
            → IfOk result (λ store. IsSettled (store_state D.state store)) }
        ensures images { D.honest → IsSettled (store_state D.state self) → IfErr result
            (λ e. EveryImage (D.state e.0) (λ image.
            HoldsTable (store_state D.state self).table (store_state D.state self).seq image
            ⊎ HoldsTable table (store_state D.state self).seq image)) }
        ensures failed { (store_state D.state self).failed ≡ true
            → result ≡ Err (disk_of self, Failed) }
        ensures healthy { IfOk result (λ store. ((store_state D.state store).failed ≡ false)
            × (D.failures (disk_of store) ≡ D.failures (disk_of self))) }
        ensures refused { (store_state D.state self).failed ≡ false → MatchResult result
            (λ _. (store_state D.state self).log.generation < LAST_GENERATION)
            (λ e. ((e.1 ≡ Damaged) × (LAST_GENERATION ≤ (store_state D.state self).log.generation)
            × (e.0 ≡ disk_of self))
            ⊎ (((store_state D.state self).log.generation < LAST_GENERATION)
            × (((e.1 ≡ OutOfMemory) × (e.0 ≡ disk_of self))
            ⊎ ((e.1 ≡ DeviceFailed)
            × (D.failures e.0 ≡ D.failures (disk_of self) + 1))))) }
        ensures unarmed { D.outlook (disk_of self) ≡ AllSucceed → MatchResult result
            (λ store. D.outlook (disk_of store) ≡ AllSucceed) (λ e. e.1 ≢ DeviceFailed) }
        ensures same_length { MatchResult result
            (λ store. length (D.state (disk_of store)).content
            ≡ length (D.state (disk_of self)).content)
            (λ e. length (D.state e.0).content ≡ length (D.state (disk_of self)).content) }
    {
        laws::a_settled_store_is_on_its_disk();
        if self.failed {
            return Err((self.close(), Refusal::Failed));
        }
        if self.log.generation() >= LAST_GENERATION {
            return Err((self.close(), Refusal::Damaged));
        }
        let Store {
            log,
            table: _,
            seq,
            failed: _,
        } = self;
        let mut log = log;
        match publish(alloc, &mut log, &table, seq) {
            Ok(()) => Ok(Store::new(log, table, seq)),
            Err(refusal) => Err((log.close(), refusal)),
        }
    }

    /// Closes the superblock's gate, by two calls of the disk. After that the disk holds no store,
    /// and each opening is refused with `NotFormatted`. After a crash at any moment the disk holds
    /// the store as it was, or none. Refused with `DeviceFailed` exactly if the disk failed; then
    /// it is returned.
    pub fn shut(self) -> Result<D, (D, Refusal)>
        ensures shut { D.honest → IfOk result (λ disk. IsShut (D.state disk)) }
        ensures images { D.honest → IsSettled (store_state D.state self) → IfErr result
            (λ e. EveryImage (D.state e.0) (λ image. (slice_index image 0 ≢ OPEN)
            ⊎ HoldsTable (store_state D.state self).table (store_state D.state self).seq image)) }
        ensures cause { MatchResult result
            (λ disk. D.failures disk ≡ D.failures (disk_of self))
            (λ e. (e.1 ≡ DeviceFailed) × (D.failures e.0 ≡ D.failures (disk_of self) + 1)) }
        ensures unarmed { D.outlook (disk_of self) ≡ AllSucceed → MatchResult result
            (λ disk. D.outlook disk ≡ AllSucceed) (λ e. ⊥) }
        ensures same_length { MatchResult result
            (λ disk. length (D.state disk).content ≡ length (D.state (disk_of self)).content)
            (λ e. length (D.state e.0).content ≡ length (D.state (disk_of self)).content) }
    {
        let mut disk = self.close();
        match shut(&mut disk) {
            Ok(()) => Ok(disk),
            Err(_) => Err((disk, Refusal::DeviceFailed)),
        }
    }
}
