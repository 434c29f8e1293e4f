// The effects of one decision.
ghost use Rattle.std.specs.Prelude.{◌≡◌, ◌≤◌, ◌<◌, [], ◌∷◌, ◌++◌, length, OnOk, OnErr};
ghost use Rattle.devices.specs.DeviceStep.{report_effects};

use crate::{Device, Effect, Report};
use std::alloc::{AllocError, Global};
use std::marker::Model;

/// At most four effects, in the order in which they leave. In contracts it is the list of these
/// effects.
pub struct Effects {
    items: Vec<Effect>,
}

// By hand, so that it is proved once: a derived drop is proved again at each use of the type.
impl Drop for Effects {
    fn drop(self) {
        let Self { items: _ } = self;
    }
}

impl Model for Effects {
    ghost use Rattle.devices.specs.declared.effects.TheConstants.Effects.{MOST};
    ghost use Rattle.std.specs.Prelude.{◌≤◌, List, length};
    ghost use Rattle.devices.specs.declared.effect.Effect.{Effect};

    ghost Value = { List Effect };

    ghost view = { λ e. e.items.items };

    ghost invariant = { λ e. length e.items.items ≤ MOST };
}

impl Effects {
    /// The most effects of one decision.
    pub const MOST: usize = 4;

    /// No effects. Takes no memory.
    pub fn empty(alloc: Global) -> Self
        ensures { result ≡ [] }
    {
        Effects {
            items: Vec::new(alloc),
        }
    }

    /// Adds an effect at the end. After an `Err` the list is unchanged.
    pub fn push(&mut self, effect: Effect) -> Result<(), AllocError>
        requires { length self.old < Self.MOST }
        ensures ok { OnOk result (self.new ≡ self.old ++ effect ∷ []) }
        ensures err { OnErr result (self.new ≡ self.old) }
    {
        self.items.push(effect)?;
        Ok(())
    }

    /// Adds a report to the device's application at the end. After an `Err` the list is unchanged.
    pub fn tell(&mut self, device: &Device, report: Report) -> Result<(), AllocError>
        requires { length self.old < Self.MOST }
        ensures ok { OnOk result (self.new ≡ self.old ++ report_effects device.now report) }
        ensures err { OnErr result (self.new ≡ self.old) }
    {
        self.push(Effect::Report {
            application: device.application,
            dev_eui: device.dev_eui,
            report,
        })
    }

    /// The effects in order.
    pub fn as_slice(&self) -> &[Effect]
        ensures effects { result.now ≡ self.now }
        ensures few { length self.now ≤ Self.MOST }
    {
        self.items.as_slice()
    }

    /// The vector of the effects, at most four of them.
    pub fn into_vec(self) -> Vec<Effect>
        ensures effects { result.items ≡ self }
        ensures few { length self ≤ Self.MOST }
    {
        let Effects { items } = self;
        items
    }
}
