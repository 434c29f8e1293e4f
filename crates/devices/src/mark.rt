// What may leave the network only once.
ghost use Rattle.std.specs.Prelude.{◌≡◌};
ghost use Rattle.devices.specs.Mark.{mark_of};

use crate::Effect;
use lw_types::{Eui, JoinNonce};

/// The name of a session: its device, and the JoinNonce with which it was granted.
#[derive(Clone, Copy, PartialEq, Eq)]
pub struct SessionName {
    pub dev_eui: Eui,
    pub join_nonce: JoinNonce,
}

/// What an effect uses up. No mark may leave the network twice.
#[derive(Clone, Copy, PartialEq, Eq)]
pub enum Mark {
    /// The uplink with this counter was handed on.
    Forwarded { session: SessionName, counter: u32 },
    /// The session was granted.
    Granted { session: SessionName },
    /// The downlink with this counter was sent.
    Sent { session: SessionName, counter: u32 },
}

impl Effect {
    /// The mark that the effect uses up; `None` for a report, which may be sent again.
    pub fn mark(&self) -> Option<Mark>
        ensures { result ≡ mark_of self.now }
    {
        match self {
            Effect::Forward {
                session,
                counter,
                ..
            } => Some(Mark::Forwarded {
                session: *session,
                counter: *counter,
            }),
            Effect::Accept { session, .. } => Some(Mark::Granted { session: *session }),
            Effect::Down {
                session,
                counter,
                ..
            } => Some(Mark::Sent {
                session: *session,
                counter: *counter,
            }),
            Effect::Report { .. } => None,
        }
    }
}
