// Writes new areas.
ghost use Rattle.std.specs.Prelude.{◌≡◌, ◌<◌, ◌≤◌, ◌+◌, ◌^◌, [], length, IfOk, OnOk, is_ok};
ghost use Rattle.disk.specs.State.{IsWrite};
ghost use Rattle.disk.specs.Outlook.{IsForeseen, HasCause};
ghost use Rattle.gate_log.specs.Areas.{HoldsIn, IsClosedArea};
ghost use Rattle.gate_log.specs.Layout.{checkpoint, fresh_header};

use crate::layout::{Area, CLOSED, EMPTY_AREA_LEN, Header, OPEN, RECORDS_AT};
use disk::{DeviceFailed, Disk};

/// Writes an area with an open gate, generation 1, sequence number 0, no records and no batches.
/// Returns the place of the first batch's gate.
pub fn format_area<D: Disk>(disk: &mut D, area: Area, version: u8) -> Result<u64, DeviceFailed>
    requires room { area.start + EMPTY_AREA_LEN ≤ area.end }
    requires within { area.end ≤ length (D.state disk.old).content }
    ensures formatted { D.honest
        → OnOk result (HoldsIn area (checkpoint (fresh_header version) [])
        (D.state disk.new).content) }
    ensures next { IfOk result (λ next. next ≡ area.start + RECORDS_AT) }
    ensures opens { D.honest → IsWrite area.start EMPTY_AREA_LEN (D.state disk.old)
        (D.state disk.new) }
    ensures same_length { length (D.state disk.new).content ≡ length (D.state disk.old).content }
    ensures cause { HasCause (D.failures disk.old) (D.failures disk.new) result }
    ensures foreseen { IsForeseen (D.outlook disk.old) (is_ok result) (D.outlook disk.new) }
{
    let header = Header {
        version,
        generation: 1,
        sequence: 0,
        record_count: 0,
        records_len: 0,
    };
    let mut bytes = [CLOSED; EMPTY_AREA_LEN as usize];
    bytes[0] = OPEN;
    bytes[1..RECORDS_AT as usize].copy_from_slice(&header.to_bytes());
    disk.write_at(area.start, &bytes)?;
    Ok(area.start + RECORDS_AT)
}

/// Writes the closed gate of an area.
pub fn close_area<D: Disk>(disk: &mut D, area: Area) -> Result<(), DeviceFailed>
    requires room { area.start < area.end }
    requires within { area.end ≤ length (D.state disk.old).content }
    ensures closed { D.honest → OnOk result (IsClosedArea area (D.state disk.new).content) }
    ensures opens { D.honest → IsWrite area.start 1 (D.state disk.old) (D.state disk.new) }
    ensures same_length { length (D.state disk.new).content ≡ length (D.state disk.old).content }
    ensures cause { HasCause (D.failures disk.old) (D.failures disk.new) result }
    ensures foreseen { IsForeseen (D.outlook disk.old) (is_ok result) (D.outlook disk.new) }
{
    disk.write_at(area.start, &[CLOSED])
}
