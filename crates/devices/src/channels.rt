// The channels of a session.
ghost use Rattle.std.specs.Prelude.{◌≡◌};
ghost use Rattle.devices.specs.Channels.{may_use};

use region_eu868::{is_channel, is_first_channel};

/// The channels on which the device of a session sends.
#[derive(Clone, Copy, PartialEq, Eq)]
pub enum Channels {
    /// The three that each device has from the start. The session's accept added none.
    Three,
    /// All eight. The session's accept added five of them.
    Eight,
}

impl Channels {
    /// Whether the device may send at this frequency, in Hz.
    pub fn may_use(self, frequency: u32) -> bool
        ensures { result ≡ may_use self frequency }
    {
        match self {
            Channels::Three => is_first_channel(frequency),
            Channels::Eight => is_channel(frequency),
        }
    }
}
