// Reads what an area holds.
ghost use Rattle.std.specs.Prelude.{◌≡◌, ◌<◌, ◌≤◌, ◌+◌, Err, length, IfOk};
ghost use Rattle.gate_log.specs.Areas.{HasHeader, HoldsIn};
ghost use Rattle.gate_log.specs.Layout.{HasRoomFor, Journal};
ghost use Rattle.gate_log.specs.Recover.{OnlyReads, has_device_error};
ghost use Rattle.gate_log.specs.Recovered.{IsRecoveredIn};

use crate::batch::Batch;
use crate::error::RecoverError;
use crate::layout::{Area, Header, RECORDS_AT};
use crate::reading::{read_batches, read_bytes};
use disk::Disk;
use std::alloc::Global;

/// What an area holds: its checkpoint, and the batches after it.
#[derive(Drop)]
pub struct Recovered {
    pub header: Header,
    pub records: Vec<u8>,
    pub batches: Vec<Batch>,
    /// The place of the next batch's gate.
    pub next: u64,
}

/// Reads what follows the area's header: the records and the longest list of open batches.
pub fn recover_area<D: Disk>(
    disk: &mut D,
    alloc: Global,
    area: Area,
    header: Header,
) -> Result<Recovered, RecoverError>
    requires room { HasRoomFor area header }
    requires within { area.end ≤ length (D.state disk.old).content }
    ensures recovered { D.honest → HasHeader area header (D.state disk.old).content
        → IfOk result (IsRecoveredIn area (D.state disk.old).content) }
    ensures header { IfOk result (λ recovered. recovered.header ≡ header) }
    ensures next { IfOk result (λ recovered. recovered.next < area.end) }
    ensures damaged { D.honest → HasHeader area header (D.state disk.old).content
        → result ≡ Err RecoverError.Damaged → (j : Journal)
        → ¬ HoldsIn area j (D.state disk.old).content }
    ensures reads { OnlyReads D.honest D.state D.failures D.outlook disk.old disk.new
        (has_device_error result) }
{
    let start = area.start + RECORDS_AT;
    let records = read_bytes(disk, alloc, start, header.records_len as usize)?;
    let (batches, next) = read_batches(disk, alloc, area.end, start + header.records_len)?;
    Ok(Recovered {
        header,
        records,
        batches,
        next,
    })
}
