// Room for the effects of a batch.
ghost use Rattle.std.specs.Prelude.{◌≡◌, ◌≤◌, [], IfErr, vec_capacity};
ghost use Rattle.lw_types.specs.declared.refusal.Refusal.TheVariants.{OutOfMemory};
ghost use Rattle.flusher.specs.declared.room.TheConstants.{MOST_EFFECTS};

use crate::Released;
use devices::Effects;
use lw_types::Refusal;
use sessions::Batch;
use std::alloc::Global;

/// The number of effects of the largest batch.
pub const MOST_EFFECTS: usize = Batch::MOST * Effects::MOST;

/// Room for the effects of the largest batch. It is allocated before the batch is taken, so
/// releasing takes no memory.
#[derive(Drop)]
pub struct Room {
    pub(crate) effects: Vec<Released>,
    ghost empty: { effects.items ≡ [] },
    ghost enough: { MOST_EFFECTS ≤ vec_capacity effects },
}

impl Room {
    /// Allocates that room. Refused with `OutOfMemory` if memory runs out.
    pub fn new(alloc: Global) -> Result<Self, Refusal>
        ensures { IfErr result (λ e. e ≡ OutOfMemory) }
    {
        Ok(Room {
            effects: Vec::with_capacity(alloc, MOST_EFFECTS)?,
        })
    }
}
