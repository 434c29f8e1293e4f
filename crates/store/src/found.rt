// What was read from a disk that is being opened.
ghost use Rattle.std.specs.Prelude.{◌≡◌, ◌<◌, ◌≤◌};
ghost use Rattle.store.specs.Image.{HaveLength, last_generation};

use gate_log::Live;
use sessions::Table;
use store_layout::RecordVersion;

/// What the disk of a store holds.
#[derive(Drop)]
pub(crate) struct Found {
    pub(crate) table: Table,
    pub(crate) seq: u64,
    pub(crate) version: RecordVersion,
    pub(crate) live: Live,
    /// The place of the next batch's gate.
    pub(crate) next: u64,
    pub ghost room: { next < live.areas.live.end },
    pub ghost long: { HaveLength table.slots live.areas },
    pub ghost early: { live.header.generation ≤ last_generation version },
}
