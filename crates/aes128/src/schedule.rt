// The key schedule (FIPS 197 §5.2), and the cipher over it (§5.1, §5.3).
ghost use Rattle.std.specs.Prelude.{◌≡◌, List, ℕ, [], slice_index_or};
ghost use Rattle.aes128.specs.Cipher.{xor, column, next_round_key, AreRoundKeys, ciphertext};
ghost use Rattle.aes128.specs.InverseCipher.{plaintext};

use crate::columns::doubled;
use crate::rounds::{column_at, joined_columns, last_round, round, undo_last_round, unround};
use crate::substitution::substituted;
use crate::sums::xor;
use lw_types::Key;
use std::marker::Model;

/// The round keys of a key, computed once for any number of blocks. In contracts it is the key.
#[derive(Drop)]
pub struct KeySchedule {
    round_keys: [[u8; 16]; 11],
}

impl Model for KeySchedule {
    ghost Value = { List ℕ };

    ghost view = { λ s. slice_index_or s.round_keys 0 [] };

    ghost invariant = { λ s. AreRoundKeys s.round_keys };
}

impl KeySchedule {
    /// Expands the key.
    pub fn new(key: &Key) -> Self
        ensures { result ≡ key.now.0 }
    {
        let mut round_keys = [key.0; 11];
        let mut constant = 1;
        for r in 0..10 {
            round_keys[r + 1] = next_round_key(&round_keys[r], constant);
            constant = doubled(constant);
        }
        KeySchedule { round_keys }
    }

    /// Encrypts the block in place.
    pub fn encrypt(&self, block: &mut [u8; 16])
        ensures { block.new ≡ ciphertext self.now block.old }
    {
        xor(block, &self.round_keys[0]);
        for r in 0..9 {
            round(block, &self.round_keys[r + 1]);
        }
        last_round(block, &self.round_keys[10]);
    }

    /// Decrypts the block in place.
    pub fn decrypt(&self, block: &mut [u8; 16])
        ensures { block.new ≡ plaintext self.now block.old }
    {
        undo_last_round(block, &self.round_keys[10]);
        for r in 0..9 {
            unround(block, &self.round_keys[9 - r]);
        }
        xor(block, &self.round_keys[0]);
    }
}

fn sum(a: [u8; 4], b: [u8; 4]) -> [u8; 4]
    ensures { result ≡ xor (column a 0) (column b 0) }
{
    [a[0] ^ b[0], a[1] ^ b[1], a[2] ^ b[2], a[3] ^ b[3]]
}

fn next_round_key(key: &[u8; 16], constant: u8) -> [u8; 16]
    ensures { result ≡ next_round_key constant key.now }
{
    let turned = [
        substituted(key[13]) ^ constant,
        substituted(key[14]),
        substituted(key[15]),
        substituted(key[12]),
    ];
    let first = sum(column_at(key, 0), turned);
    let second = sum(column_at(key, 1), first);
    let third = sum(column_at(key, 2), second);
    let fourth = sum(column_at(key, 3), third);
    joined_columns(first, second, third, fourth)
}
