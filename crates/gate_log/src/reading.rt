// Reads the parts of an area.
ghost use Rattle.std.specs.Prelude.{◌≡◌, ◌≢◌, ◌<◌, ◌≤◌, ◌+◌, ◌↔◌, ℕ, List, Err, length, take, drop};
ghost use Rattle.std.specs.Prelude.{slice_index, IfOk, MatchOption, IsTrue, is_err, is_ok, not};
ghost use Rattle.gate_log.specs.Layout.{BatchValue, head_bytes, IsHead, open_batches};
ghost use Rattle.gate_log.specs.Recover.{OnlyReads, has_device_error, IsHeaderAt, IsBatchAt};
ghost use Rattle.gate_log.specs.Recover.{NoBatchAt, AreBatchesAt};

use crate::batch::Batch;
use crate::error::RecoverError;
use crate::layout::{BatchHead, ENTRIES_AT, Header, OPEN, RECORDS_AT};
use disk::{DeviceFailed, Disk};
use std::alloc::Global;

/// Whether the gate at a position is open.
#[tactic(auto, using(crate::proofs::ReadsOn::armed_call))]
fn is_open<D: Disk>(disk: &mut D, at: u64) -> Result<bool, DeviceFailed>
    requires { at < length (D.state disk.old).content }
    ensures gate { D.honest → IfOk result
        (λ is_open. IsTrue is_open ↔ (slice_index (D.state disk.old).content at ≡ OPEN)) }
    ensures reads { OnlyReads D.honest D.state D.failures D.outlook disk.old disk.new
        (is_err result) }
{
    let mut gate = [0; 1];
    disk.read_at(at, &mut gate)?;
    Ok(gate[0] == OPEN)
}

/// The header after the gate at a position, if that gate is open.
#[tactic(auto, using(crate::proofs::ReadsOn::armed_call))]
pub fn read_header<D: Disk>(disk: &mut D, at: u64) -> Result<Option<Header>, DeviceFailed>
    requires { at + RECORDS_AT ≤ length (D.state disk.old).content }
    ensures header { D.honest → IfOk result
        (λ header. MatchOption header
        (slice_index (D.state disk.old).content at ≢ OPEN)
        (IsHeaderAt (D.state disk.old).content at)) }
    ensures reads { OnlyReads D.honest D.state D.failures D.outlook disk.old disk.new
        (is_err result) }
{
    let mut bytes = [0; RECORDS_AT as usize];
    disk.read_at(at, &mut bytes)?;
    if bytes[0] != OPEN {
        return Ok(None);
    }
    Ok(Some(Header::from_bytes(&bytes[1..])))
}

/// The head of a batch at a position.
#[tactic(auto, using(crate::proofs::ReadsOn::armed_call))]
fn read_head<D: Disk>(disk: &mut D, at: u64) -> Result<BatchHead, DeviceFailed>
    requires { at + BatchHead.LEN ≤ length (D.state disk.old).content }
    ensures head { D.honest
        → IfOk result (λ head. head_bytes head
        ≡ take BatchHead.LEN (drop at (D.state disk.old).content)) }
    ensures in_range { IfOk result IsHead }
    ensures reads { OnlyReads D.honest D.state D.failures D.outlook disk.old disk.new
        (is_err result) }
{
    let mut bytes = [0; BatchHead::LEN];
    disk.read_at(at, &mut bytes)?;
    Ok(BatchHead::from_bytes(&bytes))
}

/// This number of bytes from a position on.
#[tactic(auto, using(crate::proofs::ReadsOn::armed_call))]
pub fn read_bytes<D: Disk>(
    disk: &mut D,
    alloc: Global,
    at: u64,
    len: usize,
) -> Result<Vec<u8>, RecoverError>
    requires { at + len ≤ length (D.state disk.old).content }
    ensures bytes { D.honest
        → IfOk result (λ bytes. bytes.items ≡ take len (drop at (D.state disk.old).content)) }
    ensures len { IfOk result (λ bytes. length bytes.items ≡ len) }
    ensures not_damaged { result ≢ Err RecoverError.Damaged }
    ensures reads { OnlyReads D.honest D.state D.failures D.outlook disk.old disk.new
        (has_device_error result) }
{
    let mut bytes = vec![in alloc; 0; len]?;
    disk.read_at(at, &mut bytes)?;
    Ok(bytes)
}

/// The batch after the gate at a position, if that gate is open.
fn read_batch<D: Disk>(
    disk: &mut D,
    alloc: Global,
    end: u64,
    at: u64,
) -> Result<Option<Batch>, RecoverError>
    requires room { at < end }
    requires within { end ≤ length (D.state disk.old).content }
    ensures batch { D.honest → IfOk result
        (λ batch. MatchOption batch
        (slice_index (D.state disk.old).content at ≢ OPEN)
        (IsBatchAt (D.state disk.old).content end at)) }
    ensures fits { IfOk result (λ batch. MatchOption batch (Unit {0})
        (λ b. at + ENTRIES_AT + length b.entries < end)) }
    ensures damaged { D.honest → result ≡ Err RecoverError.Damaged
        → NoBatchAt (D.state disk.old).content end at }
    ensures reads { OnlyReads D.honest D.state D.failures D.outlook disk.old disk.new
        (has_device_error result) }
{
    if !is_open(disk, at)? {
        return Ok(None);
    }
    // The next gate follows the entries.
    if end - at <= ENTRIES_AT {
        return Err(RecoverError::Damaged);
    }
    let head = read_head(disk, at + 1)?;
    if end - at - ENTRIES_AT <= u64::from(head.entries_len) {
        return Err(RecoverError::Damaged);
    }
    let entries = read_bytes(disk, alloc, at + ENTRIES_AT, head.entries_len as usize)?;
    Ok(Some(Batch::new(head.last_sequence, head.entry_count, entries)))
}

/// The batches from a position on up to the first closed gate, and that gate's place.
pub fn read_batches<D: Disk>(
    disk: &mut D,
    alloc: Global,
    end: u64,
    first: u64,
) -> Result<(Vec<Batch>, u64), RecoverError>
    requires room { first < end }
    requires within { end ≤ length (D.state disk.old).content }
    ensures batches { D.honest
        → IfOk result (λ read. AreBatchesAt (D.state disk.old).content end first read.0.items) }
    ensures next { IfOk result (λ read. read.1 ≡ first + length (open_batches read.0.items)) }
    ensures next_fits { IfOk result (λ read. read.1 < end) }
    ensures damaged { D.honest → result ≡ Err RecoverError.Damaged → (batches : List BatchValue)
        → ¬ AreBatchesAt (D.state disk.old).content end first batches }
    ensures reads { OnlyReads D.honest D.state D.failures D.outlook disk.old disk.new
        (has_device_error result) }
{
    let mut batches = Vec::new(alloc);
    let mut at = first;
    while let Some(batch) = read_batch(disk, alloc, end, at)? {
        at += ENTRIES_AT + batch.entries().len() as u64;
        batches.push(batch)?;
    }
    Ok((batches, at))
}
