// Keys of AES-128.
ghost use Rattle.std.specs.Prelude.{◌≡◌, IfOk};
ghost use Rattle.std.specs.String.{string_bytes};

use crate::hex_text;
use crate::text::FromText;
use std::alloc::{AllocError, Global};
use std::fmt;

/// A key of AES-128, the first byte first.
#[derive(Clone, Copy, PartialEq, Eq)]
pub struct Key(pub [u8; 16]);

/// Shows no byte of the key, so that no key gets into a log.
impl fmt::Debug for Key {
    ghost use Rattle.std.specs.Prelude.{codes, Some};

    ghost debug_output = { λ _. Some (codes "Key(..)") };

    fn fmt<W: fmt::Write>(&self, f: &mut fmt::Formatter<W>) -> fmt::Result {
        write!(f, "Key(..)")
    }
}

impl Key {
    ghost use Rattle.lw_types.specs.Hex.{key_text};

    /// The 32 digits of the key, for places that have to show the key.
    #[tactic(auto, unfolding(crate::specs::Hex::key_text))]
    pub fn reveal(&self, alloc: Global) -> Result<String, AllocError>
        ensures { IfOk result (λ text. string_bytes text ≡ key_text self.now) }
    {
        hex_text::write_hex(alloc, &self.0)
    }
}

impl FromText for Key {
    ghost use Rattle.std.specs.Prelude.{◌≡◌, length};
    ghost use Rattle.hex.specs.Hex.{IsBytes};
    ghost use Rattle.lw_types.specs.Hex.{key_text};

    ghost is_value = { λ key. IsBytes key.0 × (length key.0 ≡ 16) };

    ghost text_of = { key_text };

    #[tactic(auto, unfolding(crate::specs::Hex::key_text))]
    fn from_text(text: &str) -> Option<Self> {
        Some(Key(hex_text::read_array(text)?))
    }
}
