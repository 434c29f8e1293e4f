// A command that was carried out on one device.
ghost use Rattle.std.specs.Prelude.{◌≡◌, Ok};
ghost use Rattle.devices.specs.DeviceStep.{device_step};
ghost use Rattle.sessions.specs.Step.{step1};

use crate::Placed;
use devices::{Command, Device, Effects};
use lw_types::NetId;

/// A command, the slot that it changes, the record there before and after it, and its effects.
/// Every value of this type is a step: `after` and `effects` are what `command` does to `before`.
pub struct Decision {
    pub net_id: NetId,
    /// The sequence number, from 1 on.
    pub seq: u64,
    pub slot: u16,
    pub before: Option<Device>,
    pub command: Command,
    pub after: Device,
    pub effects: Effects,
    pub ghost is_step: { step1 net_id slot before command ≡ Ok (device_step after effects) },
}

// By hand, so that it is proved once: a derived drop is proved again at each use of the type.
impl Drop for Decision {
    fn drop(self) {
        let Self {
            net_id: _,
            seq: _,
            slot: _,
            before: _,
            command: _,
            after: _,
            effects: _,
        } = self;
    }
}

impl Decision {
    /// Splits the decision into the record that it leaves and the rest.
    pub fn into_placed(self) -> (Device, Placed)
        ensures record { result.0 ≡ self.after }
        ensures rest { result.1 ≡ self }
    {
        let Self {
            net_id,
            seq,
            slot,
            before,
            command,
            after,
            effects,
        } = self;
        let placed = Placed {
            net_id,
            seq,
            slot,
            before,
            command,
            effects,
        };
        (after, placed)
    }
}
