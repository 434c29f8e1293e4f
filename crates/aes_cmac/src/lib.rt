//! AES-CMAC (RFC 4493): a MAC of 16 bytes over a message given in pieces.
#![tactic(auto)]

ghost use Rattle.std.specs.Prelude.{◌≡◌};
ghost use Rattle.std.specs.List.{flat_map};
ghost use Rattle.aes_cmac.specs.Cmac.{cmac};

mod chain;

use aes128::KeySchedule;
use chain::Chain;
use lw_types::Key;

/// The MAC of the pieces, joined in order.
pub fn cmac(key: &Key, pieces: &[&[u8]]) -> [u8; 16]
    ensures { result ≡ cmac key.now.0 (flat_map (λ piece. piece.now) pieces.now) }
{
    let keys = KeySchedule::new(key);
    let mut chain = Chain::new();
    for piece in pieces {
        chain.absorb(&keys, piece);
    }
    chain.finish(&keys)
}
