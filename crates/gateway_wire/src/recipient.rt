// Where an effect goes.
ghost use Rattle.std.specs.Prelude.{◌≡◌};

use devices::{Application, Effect};
use lw_types::Eui;

/// The gateway or the application on whose link an effect leaves.
#[derive(Clone, Copy, PartialEq, Eq)]
pub enum Recipient {
    Gateway(Eui),
    Application(Application),
}

impl Recipient {
    ghost use Rattle.gateway_wire.specs.Emission.{recipient};

    /// The recipient of this effect: the gateway that heard the device best, or the device's
    /// application. Takes no memory.
    pub fn of(effect: &Effect) -> Self
        ensures { result ≡ recipient effect.now }
    {
        match effect {
            Effect::Forward { application, .. } | Effect::Report { application, .. } => {
                Recipient::Application(*application)
            }
            Effect::Accept { downlink, .. } | Effect::Down { downlink, .. } => {
                Recipient::Gateway(downlink.gateway)
            }
        }
    }
}
