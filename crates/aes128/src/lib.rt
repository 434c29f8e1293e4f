//! AES-128 (FIPS 197): one block of 16 bytes under a key.
#![tactic(auto)]

ghost use Rattle.std.specs.Prelude.{◌≡◌};
ghost use Rattle.aes128.specs.Cipher.{ciphertext};
ghost use Rattle.aes128.specs.InverseCipher.{plaintext};

mod columns;
pub mod laws;
mod rounds;
mod schedule;
mod substitution;
mod sums;

use lw_types::Key;
pub use schedule::KeySchedule;
pub use sums::xor;

/// Encrypts the block in place.
pub fn encrypt(key: &Key, block: &mut [u8; 16])
    ensures { block.new ≡ ciphertext key.now.0 block.old }
{
    KeySchedule::new(key).encrypt(block);
}

/// Decrypts the block in place.
pub fn decrypt(key: &Key, block: &mut [u8; 16])
    ensures { block.new ≡ plaintext key.now.0 block.old }
{
    KeySchedule::new(key).decrypt(block);
}
