// A table with more slots.
ghost use Rattle.std.specs.Prelude.{◌≡◌, ◌≢◌, ◌<◌, ◌≤◌, IfOk, MatchResult};
ghost use Rattle.device_changes.specs.Marks.{DecidesAlike, KeepsMarks};
ghost use Rattle.device_changes.specs.Table.{grown_table};

use crate::changing::with_changed_devices;
use sessions::{Slots, Table};
use std::alloc::Global;

/// Why a table wasn't grown.
#[derive(Clone, Copy, Debug, PartialEq, Eq)]
pub enum GrowRefused {
    /// The table has as many slots, or more.
    NotMore,
    OutOfMemory,
}

/// The table with more slots. Its devices have the same slots, sessions and queues, so each address
/// leads to the same device: each frame and each request for a device is decided as in the old
/// table. Refused unless there are more slots.
pub fn grown_table(alloc: Global, table: &Table, slots: Slots) -> Result<Table, GrowRefused>
    ensures grown { MatchResult result
        (λ t. (table.now.slots < slots) × (t ≡ grown_table slots table.now))
        (λ e. e ≢ GrowRefused.OutOfMemory → (e ≡ GrowRefused.NotMore) × (slots ≤ table.now.slots)) }
    ensures keeps_marks { IfOk result (λ t. KeepsMarks table.now t) }
    ensures alike { IfOk result (λ t. DecidesAlike table.now t) }
{
    if slots.get() <= table.slots().get() {
        return Err(GrowRefused::NotMore);
    }
    match with_changed_devices(alloc, table, slots, &[]) {
        Ok(grown) => Ok(grown),
        Err(_) => Err(GrowRefused::OutOfMemory),
    }
}
