// What a frame that gateways heard does, before the frame moves into its decision.
ghost use Rattle.std.specs.Prelude.{◌≡◌};
ghost use Rattle.sessions.specs.HeardStep.{IsStepOf, heard_decision};

use crate::Decision;
use devices::{Command, Device, Effects, Heard};
use lw_types::NetId;

/// A frame's decision without its command. It is made of borrowed bytes, so the frame itself can
/// move into the decision: [`HeardStep::into_decision`].
pub struct HeardStep {
    pub net_id: NetId,
    /// The sequence number, from 1 on.
    pub seq: u64,
    pub slot: u16,
    pub before: Option<Device>,
    pub after: Device,
    pub effects: Effects,
    /// Whether the frame is a Join-Request. Otherwise it is an uplink.
    pub is_join_request: bool,
}

// By hand, so that it is proved once: a derived drop is proved again at each use of the type.
impl Drop for HeardStep {
    fn drop(self) {
        let Self {
            net_id: _,
            seq: _,
            slot: _,
            before: _,
            after: _,
            effects: _,
            is_join_request: _,
        } = self;
    }
}

impl HeardStep {
    /// The decision with this frame, of which this is the step. Takes no memory.
    pub fn into_decision(self, heard: Heard) -> Decision
        requires { IsStepOf self heard }
        ensures { (is : IsStepOf self heard) → result ≡ heard_decision self heard is }
    {
        let Self {
            net_id,
            seq,
            slot,
            before,
            after,
            effects,
            is_join_request: _,
        } = self;
        Decision {
            net_id,
            seq,
            slot,
            before,
            command: Command::Heard(heard),
            after,
            effects,
        }
    }
}
