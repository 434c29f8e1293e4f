// An effect that may leave.
ghost use Rattle.std.specs.Prelude.{◌≡◌};

use devices::Effect;

/// An effect of a durable decision. It is made only when a durable batch is released, so code that
/// has one may let the effect leave.
pub struct Released {
    effect: Effect,
}

// Implemented by hand, so that its proof is done once: a derived drop is proved anew at each use.
impl Drop for Released {
    fn drop(self) {
        let Self { effect: _ } = self;
    }
}

impl Released {
    ghost use Rattle.flusher.specs.Released.{effect_of};

    pub(crate) fn new(effect: Effect) -> Self
        ensures { effect_of result ≡ effect }
    {
        Released { effect }
    }

    /// The effect.
    pub fn effect(&self) -> &Effect
        ensures { result.now ≡ effect_of self.now }
    {
        &self.effect
    }

    /// The effect, by value. Takes no memory.
    pub fn into_effect(self) -> Effect
        ensures { result ≡ effect_of self }
    {
        let Released { effect } = self;
        effect
    }
}
