// Begins a checkpoint.
ghost use Rattle.std.specs.Prelude.{◌≡◌, ◌<◌, ◌≤◌, ◌+◌, IfOk, MatchResult, drop, length};
ghost use Rattle.gate_log.specs.Checkpointing.{checkpoint_bytes};
ghost use Rattle.gate_log.specs.Layout.{IsHeader};
ghost use Rattle.lw_types.specs.declared.refusal.Refusal.TheVariants.{OutOfMemory};
ghost use Rattle.store.specs.Checkpointing.{FitsOther, IsCheckpointAnswer, IsCheckpointOn};
ghost use Rattle.store.specs.Checkpointing.{IsCheckpointOfTable, checkpoint_size, header_behind};
ghost use Rattle.record_codec.specs.Version.{newest};
ghost use Rattle.store_layout.specs.Entries.{AreEntries, entries, entries_of_table};
ghost use Rattle.store_layout.specs.Superblock.{area_len};

use crate::areas::LAST_GENERATION;
use crate::{Checkpoint, LARGEST_BATCH, Store};
use disk::{Disk, Sim};
use gate_log::Header;
use lw_types::Refusal;
use record_codec::NEWEST;
use sessions::Table;
use std::alloc::Global;
use store_layout::{LONGEST_ENTRY, laws, put_table};

impl<D: Disk> Store<D> {
    ghost use Rattle.store.specs.State.{store_state, IsRoomy, IsSettled};

    /// Begins a checkpoint of the durable table, on a store with nothing under way whose journal
    /// doesn't have room for the largest batch. This is the only time when a store of a real disk
    /// begins one. The other area then gets only the table's records, and the batches so far no
    /// longer count. The table and its number stay the same. It takes four calls of the disk, or
    /// six if [`Store::must_retire`]. Refused with `Failed` exactly if an earlier call of the disk
    /// failed, else with `Damaged` exactly if the live area has the last generation, and with
    /// `OutOfMemory` if memory runs out, before any call. All the memory that the checkpoint needs
    /// is allocated here: at most an area's length besides the table. The cost grows with the
    /// table's records.
    pub fn checkpoint(&self, alloc: Global) -> Result<Checkpoint, Refusal>
        requires full { ¬ (IsRoomy (store_state D.state self.now)) }
        ensures answer { IsCheckpointAnswer (store_state D.state self.now) result }
        ensures fits { IfOk result (λ begun. FitsOther (store_state D.state self.now)
            (checkpoint_size begun)) }
        ensures begun { IsSettled (store_state D.state self.now)
            → IfOk result (IsCheckpointOn (store_state D.state self.now)) }
    {
        self.begin_checkpoint(alloc)
    }

    // The same when the journal may still have room.
    fn begin_checkpoint(&self, alloc: Global) -> Result<Checkpoint, Refusal>
        ensures answer { IsCheckpointAnswer (store_state D.state self.now) result }
        ensures fits { IfOk result (λ begun. FitsOther (store_state D.state self.now)
            (checkpoint_size begun)) }
        ensures begun { IsSettled (store_state D.state self.now)
            → IfOk result (IsCheckpointOn (store_state D.state self.now)) }
    {
        if self.failed {
            return Err(Refusal::Failed);
        }
        if self.log.generation() >= LAST_GENERATION {
            return Err(Refusal::Damaged);
        }
        laws::a_table_replays();
        let _devices = self.table.devices();
        let phase = checkpoint_of(alloc, &self.table, self.seq, self.log.generation())?;
        Ok(Checkpoint { phase })
    }

    /// Whether the other area's gate is open. If so, a checkpoint has to close it before the
    /// checkpoint is written.
    pub fn must_retire(&self) -> bool
        ensures { result ≡ (store_state D.state self.now).log.other_open }
    {
        self.log.is_other_open()
    }
}

impl<D: Sim> Store<D> {
    ghost use Rattle.store.specs.State.{store_state, IsSettled};

    /// Begins a checkpoint as [`Store::checkpoint`] does, even if the journal has room. On a
    /// simulated disk a script says when.
    pub fn checkpoint_early(&self, alloc: Global) -> Result<Checkpoint, Refusal>
        ensures answer { IsCheckpointAnswer (store_state D.state self.now) result }
        ensures fits { IfOk result (λ begun. FitsOther (store_state D.state self.now)
            (checkpoint_size begun)) }
        ensures begun { IsSettled (store_state D.state self.now)
            → IfOk result (IsCheckpointOn (store_state D.state self.now)) }
    {
        self.begin_checkpoint(alloc)
    }
}

/// The checkpoint of a table and the number of its last decision, after an area of this generation.
/// The other area has room for it and for the largest batch. Refused only with `OutOfMemory`. All
/// the memory that its phases need is allocated here.
pub(crate) fn checkpoint_of(
    alloc: Global,
    table: &Table,
    seq: u64,
    generation: u64,
) -> Result<gate_log::Checkpoint, Refusal>
    requires { generation < LAST_GENERATION }
    ensures { MatchResult result
        (λ begun. (length (checkpoint_bytes begun) + LARGEST_BATCH ≤ area_len table.now.slots)
        × (AreEntries newest (entries_of_table table.now)
        × IsCheckpointOfTable begun table.now seq generation))
        (λ e. e ≡ OutOfMemory) }
{
    let records = records_of(alloc, table)?;
    let header = header_of(table, seq, generation, (records.len() - Header::LEN) as u64);
    let checkpoint = gate_log::Checkpoint::new(records, header)?;
    Ok(checkpoint)
}

// The table's records, after room for a header.
fn records_of(alloc: Global, table: &Table) -> Result<Vec<u8>, Refusal>
    ensures { MatchResult result
        (λ bytes. (Header.LEN ≤ length bytes.items)
        × ((drop Header.LEN bytes.items ≡ entries newest (entries_of_table table.now))
        × (AreEntries newest (entries_of_table table.now)
        × (length bytes.items + 1 + LARGEST_BATCH ≤ area_len table.now.slots))))
        (λ e. e ≡ OutOfMemory) }
{
    // A table has at most 4,096 slots.
    let _slots = table.slots();
    laws::a_table_replays();
    laws::entries_are_short();
    let most = table.devices().len() * LONGEST_ENTRY;
    let mut bytes = gate_log::Checkpoint::buffer(alloc, most)?;
    put_table(table, &mut bytes)?;
    Ok(bytes)
}

// The header of a checkpoint of a table with `records_len` bytes of records.
fn header_of(table: &Table, seq: u64, generation: u64, records_len: u64) -> Header
    requires { generation < LAST_GENERATION }
    ensures header { result ≡ header_behind table.now seq generation records_len }
    ensures in_range { IsHeader result }
{
    // A table has at most 4,096 slots.
    let _slots = table.slots();
    Header {
        version: NEWEST.byte(),
        generation: generation + 1,
        sequence: seq,
        record_count: table.devices().len() as u32,
        records_len,
    }
}
