// Decisions without their records, which were moved into a table.
ghost use Rattle.std.specs.Prelude.{◌≡◌, Ok};
ghost use Rattle.sessions.specs.Step.{step1};
ghost use Rattle.sessions.specs.Leaving.{effects_left};

use devices::{Command, Device, Effects};
use lw_types::NetId;
use std::marker::Model;

/// A decision whose record was moved into its slot of a table. The record is the one that its
/// command makes of the record before. So in contracts this is still the whole decision.
pub struct Placed {
    pub(crate) net_id: NetId,
    pub(crate) seq: u64,
    pub(crate) slot: u16,
    pub(crate) before: Option<Device>,
    pub(crate) command: Command,
    pub(crate) effects: Effects,
    ghost is_step: { effects_left (step1 net_id slot before command) ≡ Ok effects },
}

// By hand, so that it is proved once: a derived drop is proved again at each use of the type.
impl Drop for Placed {
    fn drop(self) {
        let Self {
            net_id: _,
            seq: _,
            slot: _,
            before: _,
            command: _,
            effects: _,
        } = self;
    }
}

impl Model for Placed {
    ghost use Rattle.sessions.specs.declared.decision.Decision.{Decision};
    ghost use Rattle.sessions.specs.Placed.{whole_decision};

    ghost Value = { Decision };

    ghost view = { whole_decision };
}

impl Placed {
    /// Its effects; the rest is dropped.
    pub fn into_effects(self) -> Effects
        ensures { result ≡ self.effects }
    {
        let Self {
            net_id: _,
            seq: _,
            slot: _,
            before: _,
            command: _,
            effects,
        } = self;
        effects
    }
}
