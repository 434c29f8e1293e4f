// Makes a store that has a table from the beginning.
ghost use Rattle.std.specs.Prelude.{◌≡◌, ◌≢◌, ◌⊎◌, ◌<◌, ◌≤◌, ◌+◌, false, ℕ, List, length, IfErr};
ghost use Rattle.std.specs.Prelude.{IfOk, MatchResult};
ghost use Rattle.disk.specs.Outlook.Outlook.{AllSucceed};
ghost use Rattle.disk.specs.State.{EveryImage, NothingOpen};
ghost use Rattle.gate_log.specs.declared.layout.Header.{Header};
ghost use Rattle.gate_log.specs.Areas.{LogContents, MayFollowContents};
ghost use Rattle.gate_log.specs.Areas.{contents_with_checkpoint, exchanged_areas, front_len};
ghost use Rattle.gate_log.specs.Checkpointing.{IsCheckpoint, checkpoint_bytes};
ghost use Rattle.gate_log.specs.Layout.{IsHeader};
ghost use Rattle.gate_log.specs.Log.{IsAtRest, log_disk, log_state};
ghost use Rattle.sessions.specs.Table.{IsSlots};
ghost use Rattle.store_layout.specs.Superblock.{disk_len};
ghost use Rattle.store.specs.Establishing.{IsBehindShut, IsEstablished, IsFirstCheckpoint};
ghost use Rattle.store.specs.Establishing.{IsFirstImage, IsOpenedImage, first_contents};
ghost use Rattle.store.specs.Establishing.{opened_contents};
ghost use Rattle.store.specs.Image.{area_a, area_b};

use crate::Store;
use crate::areas::both_areas;
use crate::formatting::{open_front, write_shut};
use crate::preparing::checkpoint_of;
use disk::Disk;
use gate_log::{Areas, Checkpoint, Log, laws};
use lw_types::Refusal;
use sessions::Table;
use std::alloc::Global;
use store_layout::Superblock;

/// Makes a store with this table and this number of its last decision. Refused with `WrongSize`
/// exactly if the disk doesn't have the length of such a store, else with `DeviceFailed` exactly if
/// a call of the disk failed, and with `OutOfMemory` if memory runs out, before any call. With a
/// refusal the disk is returned, unchanged except after `DeviceFailed`. It makes twelve calls of
/// the disk, and its cost grows with the table's records and with the number of slots.
///
/// On a disk with nothing open: if this fails, or is interrupted between two calls, a crash leaves
/// no store, the whole one, or everything after the first byte as it was.
pub fn establish_back<D: Disk>(
    alloc: Global,
    disk: D,
    table: Table,
    seq: u64,
) -> Result<Store<D>, (D, Refusal)>
    ensures { IsEstablished D.Disk disk table seq result }
{
    disk::laws::settled_disk_keeps_its_content();
    store_layout::laws::a_table_replays();
    let _devices = table.devices();
    let superblock = Superblock {
        net_id: table.net_id(),
        slots: table.slots(),
    };
    if disk.len() != superblock.disk_len() {
        return Err((disk, Refusal::WrongSize));
    }
    let checkpoint = match checkpoint_of(alloc, &table, seq, 1) {
        Ok(checkpoint) => checkpoint,
        Err(refusal) => return Err((disk, refusal)),
    };
    match write_log(disk, &superblock, checkpoint) {
        Ok(log) => Ok(Store::new(log, table, seq)),
        Err(disk) => Err((disk, Refusal::DeviceFailed)),
    }
}

// Writes a store whose table is that of a checkpoint.
fn write_log<D: Disk>(disk: D, superblock: &Superblock, checkpoint: Checkpoint) -> Result<Log<D>, D>
    requires size { length (D.state disk).content ≡ disk_len superblock.now.slots }
    requires fits { (area_b superblock.now.slots).start + length (checkpoint_bytes checkpoint)
        < (area_b superblock.now.slots).end }
    ensures done { D.honest → (header : Header) (records : List ℕ)
        → IsCheckpoint checkpoint header records → IsFirstCheckpoint header records
        → IfOk result (λ log. IsAtRest (log_state D.state log)
        (first_contents superblock.now.net_id superblock.now.slots header records)) }
    ensures images { D.honest → NothingOpen (D.state disk) → (header : Header) (records : List ℕ)
        → IsCheckpoint checkpoint header records → IsFirstCheckpoint header records
        → IfErr result (λ left. EveryImage (D.state left) (IsFirstImage
        (first_contents superblock.now.net_id superblock.now.slots header records)
        (D.state disk).content)) }
    ensures in_range { (superblock.now.net_id < 64) × IsSlots superblock.now.slots }
    ensures areas { IfOk result (λ log. (log_state D.state log).areas ≡ record {
      live = area_b superblock.now.slots;
      other = area_a superblock.now.slots;
    }) }
    ensures cause { MatchResult result (λ log. D.failures (log_disk log) ≡ D.failures disk)
        (λ left. D.failures left ≡ D.failures disk + 1) }
    ensures unarmed { D.outlook disk ≡ AllSucceed
        → MatchResult result (λ log. D.outlook (log_disk log) ≡ AllSucceed) (λ left. ⊥) }
{
    laws::a_closed_area_is_older();
    let _ranges = (superblock.net_id.get(), superblock.slots.get());
    let mut disk = disk;
    match write_shut(&mut disk, superblock) {
        Ok(next) => {
            let log = Log::new(disk, both_areas(superblock), 1, next, false);
            publish_and_open(log, checkpoint, exchanged(both_areas(superblock)))
        }
        Err(_) => {
            checkpoint.lose();
            Err(disk)
        }
    }
}

// The areas in the other order.
fn exchanged(areas: Areas) -> Areas
    ensures { result ≡ exchanged_areas areas }
{
    Areas {
        live: areas.other,
        other: areas.live,
    }
}

// Publishes a checkpoint after the superblock's closed gate, and opens that gate. `areas` are those
// of the log at the end.
fn publish_and_open<D: Disk>(log: Log<D>, checkpoint: Checkpoint, areas: Areas) -> Result<Log<D>, D>
    requires exchanged { exchanged_areas (log_state D.state log).areas ≡ areas }
    requires some { 1 ≤ length (D.state (log_disk log)).content }
    requires fits { (log_state D.state log).areas.other.start + length (checkpoint_bytes checkpoint)
        < (log_state D.state log).areas.other.end }
    ensures done { D.honest → (c : LogContents) (header : Header) (records : List ℕ)
        → IsAtRest (log_state D.state log) c → IsBehindShut c
        → IsCheckpoint checkpoint header records → MayFollowContents c header records
        → IfOk result (λ left. IsAtRest (log_state D.state left)
        (opened_contents (contents_with_checkpoint c header records))) }
    ensures images { D.honest → (c : LogContents) (header : Header) (records : List ℕ)
        → IsAtRest (log_state D.state log) c → IsBehindShut c
        → IsCheckpoint checkpoint header records → MayFollowContents c header records
        → IfErr result (λ left. EveryImage (D.state left)
        (IsOpenedImage (contents_with_checkpoint c header records))) }
    ensures areas { IfOk result (λ left. (log_state D.state left).areas ≡ areas) }
    ensures cause { MatchResult result
        (λ left. D.failures (log_disk left) ≡ D.failures (log_disk log))
        (λ left. D.failures left ≡ D.failures (log_disk log) + 1) }
    ensures unarmed { D.outlook (log_disk log) ≡ AllSucceed
        → MatchResult result (λ left. D.outlook (log_disk left) ≡ AllSucceed) (λ left. ⊥) }
{
    let mut log = log;
    match checkpoint.publish(&mut log) {
        Ok(()) => open_superblock(log, areas),
        Err(_) => Err(log.close()),
    }
}

// Opens the superblock's gate, with a log in these areas after it.
fn open_superblock<D: Disk>(log: Log<D>, areas: Areas) -> Result<Log<D>, D>
    requires areas { (log_state D.state log).areas ≡ areas }
    requires some { 1 ≤ length (D.state (log_disk log)).content }
    ensures done { D.honest → (c : LogContents) → IsAtRest (log_state D.state log) c
        → 1 ≤ front_len c.areas
        → IfOk result (λ left. IsAtRest (log_state D.state left) (opened_contents c)) }
    ensures images { D.honest → (c : LogContents) → IsAtRest (log_state D.state log) c
        → 1 ≤ front_len c.areas
        → IfErr result (λ left. EveryImage (D.state left) (IsOpenedImage c)) }
    ensures areas { IfOk result (λ left. (log_state D.state left).areas ≡ areas) }
    ensures cause { MatchResult result
        (λ left. D.failures (log_disk left) ≡ D.failures (log_disk log))
        (λ left. D.failures left ≡ D.failures (log_disk log) + 1) }
    ensures unarmed { D.outlook (log_disk log) ≡ AllSucceed
        → MatchResult result (λ left. D.outlook (log_disk left) ≡ AllSucceed) (λ left. ⊥) }
{
    laws::a_journal_stays_where_others_change();
    let generation = log.generation();
    let next = areas.live.end - log.room();
    let other_open = log.is_other_open();
    let mut disk = log.close();
    match open_front(&mut disk) {
        Ok(()) => Ok(Log::new(disk, areas, generation, next, other_open)),
        Err(_) => Err(disk),
    }
}
