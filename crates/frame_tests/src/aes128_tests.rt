use aes128::{decrypt, encrypt};
use lw_types::Key;

// A key, a block and its encryption: FIPS 197 appendices B and C.1.
const EXAMPLES: [(u128, u128, u128); 2] = [
    (
        0x2b7e151628aed2a6abf7158809cf4f3c,
        0x3243f6a8885a308d313198a2e0370734,
        0x3925841d02dc09fbdc118597196a0b32,
    ),
    (
        0x000102030405060708090a0b0c0d0e0f,
        0x00112233445566778899aabbccddeeff,
        0x69c4e0d86a7b0430d8cdb78070b4c55a,
    ),
];

// Whether this plain block is encrypted to the sealed one, and the sealed one decrypted to it.
fn is_sealed(key: u128, plain: u128, sealed: u128) -> bool {
    let key = Key(key.to_be_bytes());
    let mut block = plain.to_be_bytes();
    encrypt(&key, &mut block);
    let encrypted = block == sealed.to_be_bytes();
    decrypt(&key, &mut block);
    encrypted && block == plain.to_be_bytes()
}

#[test]
fn the_examples_of_the_standard(rt: HostRuntime) {
    for (key, plain, sealed) in &EXAMPLES {
        assert!(rt; is_sealed(*key, *plain, *sealed));
    }
}
