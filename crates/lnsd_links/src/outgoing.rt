// Frames that are sent together.
ghost use Rattle.std.specs.Prelude.{◌≡◌, ◌++◌, ◌≤◌, ◌↔◌, [], length, IsTrue, MatchResult};
ghost use Rattle.std.specs.Prelude.{take, Err};
ghost use Rattle.gateway_wire.specs.Answer.{answer_frame, refused_line};
ghost use Rattle.gateway_wire.specs.Emission.{effect_frame};
ghost use Rattle.lw_types.specs.declared.refusal.Refusal.TheVariants.{OutOfMemory};

use devices::Effect;
use gateway_wire::{put_effect, put_refusal};
use lw_types::Refusal;
use std::alloc::{AllocError, Global};
use std::marker::Model;

// How much is put together before it is sent, in bytes.
pub const MUCH: usize = 16 * 1024;

/// Frames that are sent together. In contracts it is the list of their bytes.
#[derive(Drop)]
pub struct Outgoing {
    bytes: Vec<u8>,
}

impl Model for Outgoing {
    ghost use Rattle.std.specs.Prelude.{List, ℕ};

    ghost Value = { List ℕ };

    ghost view = { λ outgoing. outgoing.bytes.items };
}

impl Outgoing {
    /// No frames. Takes no memory.
    pub fn new(alloc: Global) -> Self
        ensures { result ≡ [] }
    {
        Outgoing {
            bytes: Vec::new(alloc),
        }
    }

    /// Reserves room for what is usually sent together.
    pub fn reserve(&mut self) -> Result<(), AllocError>
        ensures { self.new ≡ self.old }
    {
        self.bytes.reserve(MUCH + 1024)
    }

    /// Puts the frame of an effect after the others. Refused with `OutOfMemory` if memory runs out;
    /// then nothing is changed.
    pub fn add_effect(&mut self, alloc: Global, effect: &Effect) -> Result<(), Refusal>
        ensures { MatchResult result (λ _. self.new ≡ self.old ++ effect_frame effect.now)
            (λ e. (e ≡ OutOfMemory) × (self.new ≡ self.old)) }
    {
        let before = self.bytes.len();
        match put_effect(alloc, effect, &mut self.bytes) {
            Ok(()) => Ok(()),
            Err(_) => self.cut_to(before),
        }
    }

    /// Puts the answer to a refused request after the other frames. Refused with `OutOfMemory` if
    /// memory runs out; then nothing is changed.
    pub fn add_refusal(&mut self, alloc: Global, refusal: Refusal) -> Result<(), Refusal>
        ensures { MatchResult result
            (λ _. self.new ≡ self.old ++ answer_frame (refused_line refusal))
            (λ e. (e ≡ OutOfMemory) × (self.new ≡ self.old)) }
    {
        let before = self.bytes.len();
        match put_refusal(alloc, refusal, &mut self.bytes) {
            Ok(()) => Ok(()),
            Err(_) => self.cut_to(before),
        }
    }

    // Removes what was appended of a frame when memory ran out, and returns the error.
    fn cut_to(&mut self, before: usize) -> Result<(), Refusal>
        ensures { (self.new ≡ take before self.old) × (result ≡ Err OutOfMemory) }
    {
        self.bytes.truncate(before);
        Err(Refusal::OutOfMemory)
    }

    /// Whether there is enough to send.
    pub fn is_much(&self) -> bool
        ensures { IsTrue result ↔ (MUCH ≤ length self.now) }
    {
        self.bytes.len() >= MUCH
    }

    pub fn is_empty(&self) -> bool
        ensures { IsTrue result ↔ (self.now ≡ []) }
    {
        self.bytes.is_empty()
    }

    pub fn as_slice(&self) -> &[u8]
        ensures { result.now ≡ self.now }
    {
        self.bytes.as_slice()
    }

    pub fn clear(&mut self)
        ensures { self.new ≡ [] }
    {
        self.bytes.clear();
    }
}
