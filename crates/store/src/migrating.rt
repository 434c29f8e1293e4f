// Migrates a store whose records are of an older version.
ghost use Rattle.std.specs.Prelude.{◌≡◌, ◌≢◌, ◌⊎◌, ◌<◌, ◌+◌, false, length, IfErr, OnOk};
ghost use Rattle.std.specs.Prelude.{MatchResult};
ghost use Rattle.lw_types.specs.declared.refusal.Refusal.TheVariants.{DeviceFailed, OutOfMemory};
ghost use Rattle.disk.specs.Outlook.{IsArmed};
ghost use Rattle.disk.specs.Outlook.Outlook.{AllSucceed};
ghost use Rattle.disk.specs.State.{EveryImage};
ghost use Rattle.gate_log.specs.Areas.{AreLaidOut, LogContents};
ghost use Rattle.gate_log.specs.Log.{log_disk as disk_of_log, log_state, IsAtRest};
ghost use Rattle.gate_log.specs.Opening.{disk_in_opening};
ghost use Rattle.record_codec.specs.Version.{newest};
ghost use Rattle.record_codec.specs.declared.version.RecordVersion.{RecordVersion};
ghost use Rattle.sessions.specs.Table.{TableState};
ghost use Rattle.store.specs.Found.{IsOpeningOf};
ghost use Rattle.store.specs.Image.{HaveLength, HoldsTable, Says};
ghost use Rattle.store.specs.State.{IsSettled};
ghost use Rattle.store.specs.declared.areas.TheConstants.{LAST_GENERATION};

use crate::Store;
use crate::found::Found;
use crate::preparing::checkpoint_of;
use disk::Disk;
use gate_log::{Log, Opening};
use lw_types::Refusal;
use sessions::Table;
use std::alloc::Global;
use store_layout::laws;

impl Found {
    /// The store of what was found in records of an older version. Its table is published in the
    /// other area, in the newest version, by four calls of the disk, or six if that area's gate is
    /// open. No byte of the live area is written, so a crash at any moment leaves the same table
    /// and number. If memory runs out, that is refused before the first call.
    pub(crate) fn migrate<D: Disk>(
        self,
        alloc: Global,
        opening: Opening<D>,
    ) -> Result<Store<D>, (D, Refusal)>
        requires layout { AreLaidOut self.live.areas
            (length (D.state (disk_in_opening opening)).content) }
        requires older { self.version ≢ newest }
        ensures { IsOpeningOf D.Disk (disk_in_opening opening) self result }
    {
        disk::laws::settled_disk_keeps_its_content();
        let Found {
            table,
            seq,
            version: _,
            live,
            next,
        } = self;
        let mut log = opening.into_log(live, next);
        match publish(alloc, &mut log, &table, seq) {
            Ok(()) => Ok(Store::new(log, table, seq)),
            Err(refusal) => Err((log.close(), refusal)),
        }
    }
}

/// Publishes a table in the other area, in the newest version, with the number that the live area
/// holds. Until the last call has succeeded a crash leaves what the live area holds, or the new
/// table. Refused with `OutOfMemory` before any call, or else with `DeviceFailed` exactly if a call
/// of the disk failed.
pub(crate) fn publish<D: Disk>(
    alloc: Global,
    log: &mut Log<D>,
    table: &Table,
    seq: u64,
) -> Result<(), Refusal>
    requires early { (log_state D.state log.old).generation < LAST_GENERATION }
    requires long { HaveLength table.now.slots (log_state D.state log.old).areas }
    ensures settled { D.honest → (version : RecordVersion) (c : LogContents) (was : TableState)
        → IsAtRest (log_state D.state log.old) c → Says version c was seq
        → was.net_id ≡ table.now.net_id → was.slots ≡ table.now.slots
        → OnOk result (IsSettled (record {
          log = log_state D.state log.new;
          table = table.now;
          seq = seq;
          failed = false;
        })) }
    ensures images { D.honest → (version : RecordVersion) (c : LogContents) (was : TableState)
        → IsAtRest (log_state D.state log.old) c → Says version c was seq
        → was.net_id ≡ table.now.net_id → was.slots ≡ table.now.slots
        → EveryImage (D.state (disk_of_log log.new))
        (λ image. HoldsTable was seq image ⊎ HoldsTable table.now seq image) }
    ensures long { OnOk result (HaveLength table.now.slots (log_state D.state log.new).areas) }
    ensures cause { MatchResult result
        (λ _. D.failures (disk_of_log log.new) ≡ D.failures (disk_of_log log.old))
        (λ e. ((e ≡ OutOfMemory) × (log.new ≡ log.old)) ⊎ ((e ≡ DeviceFailed)
        × (D.failures (disk_of_log log.new) ≡ D.failures (disk_of_log log.old) + 1))) }
    ensures unarmed { D.outlook (disk_of_log log.old) ≡ AllSucceed
        → (D.outlook (disk_of_log log.new) ≡ AllSucceed) × IfErr result (λ e. e ≢ DeviceFailed) }
    ensures armed { IsArmed (D.outlook (disk_of_log log.old)) → MatchResult result
        (λ _. IsArmed (D.outlook (disk_of_log log.new)))
        (λ e. e ≡ DeviceFailed → D.outlook (disk_of_log log.new) ≡ AllSucceed) }
    ensures same_length { length (D.state (disk_of_log log.new)).content
        ≡ length (D.state (disk_of_log log.old)).content }
{
    disk::laws::settled_disk_keeps_its_content();
    laws::a_table_replays();
    let _devices = table.devices();
    let checkpoint = checkpoint_of(alloc, table, seq, log.generation())?;
    match checkpoint.publish(log) {
        Ok(()) => Ok(()),
        Err(_) => Err(Refusal::DeviceFailed),
    }
}
