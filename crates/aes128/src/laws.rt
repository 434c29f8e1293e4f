//! Laws of the cipher, and test vectors of the standard that its definitions give. Each law is the
//! contract of a function that does nothing.
ghost use Rattle.std.specs.Prelude.{◌≡◌, ℕ, List};
ghost use Rattle.aes128.specs.Cipher.{IsBlock, block_of, ciphertext, round_key};
ghost use Rattle.aes128.specs.InverseCipher.{plaintext};

/// The encryption of a block is a block. So is the encryption of any list.
pub fn encryption_gives_a_block()
    ensures { (key block : List ℕ) → IsBlock key → IsBlock (ciphertext key block) }
{}

/// The decryption of a block is a block.
pub fn decryption_gives_a_block()
    ensures { (key block : List ℕ) → IsBlock key → IsBlock block → IsBlock (plaintext key block) }
{}

/// The cipher and the inverse cipher undo each other.
pub fn decryption_undoes_encryption()
    ensures decrypted { (key block : List ℕ) → IsBlock key → IsBlock block
        → plaintext key (ciphertext key block) ≡ block }
    ensures encrypted { (key block : List ℕ) → IsBlock key → IsBlock block
        → ciphertext key (plaintext key block) ≡ block }
{}

/// No two blocks have the same encryption under one key.
pub fn encryption_is_one_to_one()
    ensures { (key a b : List ℕ) → IsBlock key → IsBlock a → IsBlock b
        → ciphertext key a ≡ ciphertext key b → a ≡ b }
{}

/// The key expansions of FIPS 197 appendices A.1 and C.1: the keys of the first and of the last
/// round.
pub fn the_round_keys_of_the_standard()
    ensures first_of_a { round_key (block_of 0x2b7e151628aed2a6abf7158809cf4f3c) 1
        ≡ block_of 0xa0fafe1788542cb123a339392a6c7605 }
    ensures last_of_a { round_key (block_of 0x2b7e151628aed2a6abf7158809cf4f3c) 10
        ≡ block_of 0xd014f9a8c9ee2589e13f0cc8b6630ca6 }
    ensures first_of_c { round_key (block_of 0x000102030405060708090a0b0c0d0e0f) 1
        ≡ block_of 0xd6aa74fdd2af72fadaa678f1d6ab76fe }
    ensures last_of_c { round_key (block_of 0x000102030405060708090a0b0c0d0e0f) 10
        ≡ block_of 0x13111d7fe3944a17f307a78b4d2b30c5 }
{}
