// The table that a checkpoint and the batches after it lead to.
ghost use Rattle.std.specs.Prelude.{◌≡◌, ◌≢◌, ◌↔◌, ℕ, List, IfErr, MatchResult};
ghost use Rattle.lw_types.specs.declared.refusal.Refusal.TheVariants.{Damaged, OutOfMemory};
ghost use Rattle.sessions.specs.Table.{TableState, empty_table};
ghost use Rattle.store_layout.specs.Entries.{EntryValue, ReplayGoesOn};
ghost use Rattle.store.specs.Image.{IsBatchOn, IsCheckpointOf, BatchGoesOn, BatchesGoOn};
ghost use Rattle.store.specs.Image.{BatchesLead, Restores};

use gate_log::{Batch, Recovered};
use lw_types::Refusal;
use sessions::Table;
use std::alloc::Global;
use store_layout::{RecordVersion, Superblock, laws, replay};

/// The table and the number to which an area leads. Refused with `Damaged` only if it leads to
/// none, and with `OutOfMemory` if memory runs out.
pub(crate) fn area_table(
    alloc: Global,
    superblock: &Superblock,
    version: RecordVersion,
    recovered: &Recovered,
) -> Result<(Table, u64), Refusal>
    ensures { MatchResult result
        (λ r. (t : TableState) (seq : ℕ)
        → Restores version superblock.now.net_id superblock.now.slots recovered.now.header
        recovered.now.records.items recovered.now.batches.items t seq
        ↔ ((t ≡ r.0) × (seq ≡ r.1)))
        (λ e. e ≢ OutOfMemory → (e ≡ Damaged) × ((t : TableState) (seq : ℕ)
        → ¬ Restores version superblock.now.net_id superblock.now.slots recovered.now.header
        recovered.now.records.items recovered.now.batches.items t seq)) }
{
    let header = recovered.header;
    let empty = Table::new(alloc, superblock.net_id, superblock.slots)?;
    let mut table = checkpoint(
        alloc,
        superblock,
        version,
        empty,
        &recovered.records,
        header.record_count,
    )?;
    let seq = replay_batches(
        alloc,
        version,
        &mut table,
        header.sequence,
        &recovered.batches,
    )?;
    Ok((table, seq))
}

// The table of a checkpoint's records, which are put on an empty one. Refused with `OutOfMemory`
// only at a record that is in order.
fn checkpoint(
    alloc: Global,
    superblock: &Superblock,
    version: RecordVersion,
    empty: Table,
    records: &[u8],
    count: u32,
) -> Result<Table, Refusal>
    requires { empty ≡ empty_table superblock.now.net_id superblock.now.slots }
    ensures put { MatchResult result
        (λ table. (t : TableState) → IsCheckpointOf version superblock.now.net_id
        superblock.now.slots records.now count t ↔ (t ≡ table))
        (λ e. e ≢ OutOfMemory → (e ≡ Damaged) × ((t : TableState)
        → ¬ IsCheckpointOf version superblock.now.net_id superblock.now.slots records.now count
        t)) }
    ensures memory { IfErr result
        (λ e. e ≡ OutOfMemory → ReplayGoesOn version empty records.now count) }
{
    laws::bytes_replay_in_one_way();
    let mut table = empty;
    replay(alloc, version, &mut table, records, count)?;
    if table.devices().len() as u64 != u64::from(count) {
        return Err(Refusal::Damaged);
    }
    Ok(table)
}

// Puts the entries of batches on a table, and returns the number of the last decision. Refused with
// `OutOfMemory` only at an entry that is in order, in a batch that is in order.
fn replay_batches(
    alloc: Global,
    version: RecordVersion,
    table: &mut Table,
    seq: u64,
    batches: &[Batch],
) -> Result<u64, Refusal>
    ensures led { MatchResult result
        (λ last. (u : TableState) (n : ℕ) → BatchesLead version table.old seq batches.now u n
        ↔ ((u ≡ table.new) × (n ≡ last)))
        (λ e. e ≢ OutOfMemory → (e ≡ Damaged)
        × ((u : TableState) (n : ℕ) → ¬ BatchesLead version table.old seq batches.now u n)) }
    ensures memory { IfErr result
        (λ e. e ≡ OutOfMemory → BatchesGoOn version table.old seq batches.now) }
{
    let mut last = seq;
    for batch in batches {
        replay_batch(alloc, version, table, last, batch)?;
        last = batch.last_sequence();
    }
    Ok(last)
}

// Puts the entries of one batch on a table. Refused with `OutOfMemory` only at an entry that is in
// order, if the number and the count of the batch are in order.
fn replay_batch(
    alloc: Global,
    version: RecordVersion,
    table: &mut Table,
    seq: u64,
    batch: &Batch,
) -> Result<(), Refusal>
    ensures put { MatchResult result
        (λ _. (es : List EntryValue) × IsBatchOn version table.old seq batch.now es table.new
        × ((fs : List EntryValue) (u : TableState) → IsBatchOn version table.old seq batch.now fs u
        → u ≡ table.new))
        (λ e. e ≢ OutOfMemory → (e ≡ Damaged)
        × ((es : List EntryValue) (u : TableState)
        → ¬ IsBatchOn version table.old seq batch.now es u)) }
    ensures memory { IfErr result
        (λ e. e ≡ OutOfMemory → BatchGoesOn version table.old seq batch.now) }
{
    laws::bytes_replay_in_one_way();
    let count = u64::from(batch.entry_count());
    if count < 1
        || count > sessions::Batch::MOST as u64
        || batch.last_sequence().checked_sub(seq) != Some(count)
    {
        return Err(Refusal::Damaged);
    }
    replay(
        alloc,
        version,
        table,
        batch.entries(),
        u32::from(batch.entry_count()),
    )
}
