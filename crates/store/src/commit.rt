// A batch under way.
ghost use Rattle.std.specs.Prelude.{◌≡◌, []};

use sessions::{Batch, PlacedBatch};

/// A batch under way, the number of its last decision, and the room for its decisions after their
/// records. With that room they are moved onto the table without memory.
#[derive(Drop)]
pub(crate) struct Commit {
    pub(crate) batch: Batch,
    pub(crate) room: PlacedBatch,
    pub(crate) last: u64,
    pub ghost empty: { room ≡ [] },
}
