use aes_cmac::cmac;
use aes128::encrypt;
use lw_types::Key;

// RFC 4493 §4.
const KEY: Key = Key([
    0x2b, 0x7e, 0x15, 0x16, 0x28, 0xae, 0xd2, 0xa6, 0xab, 0xf7, 0x15, 0x88, 0x09, 0xcf, 0x4f, 0x3c,
]);

const MESSAGE: [u8; 64] = [
    0x6b, 0xc1, 0xbe, 0xe2, 0x2e, 0x40, 0x9f, 0x96, 0xe9, 0x3d, 0x7e, 0x11, 0x73, 0x93, 0x17, 0x2a,
    0xae, 0x2d, 0x8a, 0x57, 0x1e, 0x03, 0xac, 0x9c, 0x9e, 0xb7, 0x6f, 0xac, 0x45, 0xaf, 0x8e, 0x51,
    0x30, 0xc8, 0x1c, 0x46, 0xa3, 0x5c, 0xe4, 0x11, 0xe5, 0xfb, 0xc1, 0x19, 0x1a, 0x0a, 0x52, 0xef,
    0xf6, 0x9f, 0x24, 0x45, 0xdf, 0x4f, 0x9b, 0x17, 0xad, 0x2b, 0x41, 0x7b, 0xe6, 0x6c, 0x37, 0x10,
];

// How many bytes of the message, and their MAC.
const EXAMPLES: [(usize, u128); 4] = [
    (0, 0xbb1d6929e95937287fa37d129b756746),
    (16, 0x070a16b46b4d4144f79bdd9dd04a287c),
    (40, 0xdfa66747de9ae63030ca32611497c827),
    (64, 0x51f0bebf7e3b9d92fc49741779363cfe),
];

// Whether this is the MAC of this many bytes of the message, wherever they are cut in two.
fn is_mac(len: usize, mac: [u8; 16]) -> bool {
    let Some(message) = MESSAGE.get(..len) else {
        return false;
    };
    for (cut, _) in message.iter().enumerate() {
        if cmac(&KEY, &[&message[..cut], &message[cut..]]) != mac {
            return false;
        }
    }
    cmac(&KEY, &[message, &[]]) == mac
}

#[test]
fn the_examples_of_the_rfc_in_any_two_pieces(rt: HostRuntime) {
    for (len, mac) in &EXAMPLES {
        assert!(rt; is_mac(*len, mac.to_be_bytes()), "{len} bytes");
    }
}

// The encryption of a block masked with a subkey.
fn masked(block: u128, subkey: u128) -> [u8; 16] {
    let mut block = (block ^ subkey).to_be_bytes();
    encrypt(&KEY, &mut block);
    block
}

// RFC 4493 §4, subkey generation: a last block that is whole is masked with K1, a padded one with
// K2.
#[test]
fn the_subkeys_of_the_rfc(rt: HostRuntime) {
    let sealed_zeros = 0x7df76b0c1ab899b33e42f047b91b546f_u128;
    assert!(rt; masked(0, 0) == sealed_zeros.to_be_bytes());
    let whole = 0x6bc1bee22e409f96e93d7e117393172a;
    let of_whole = masked(whole, 0xfbeed618357133667c85e08f7236a8de);
    assert!(rt; cmac(&KEY, &[&MESSAGE[..16]]) == of_whole);
    let padding = 0x80000000000000000000000000000000;
    let of_padding = masked(padding, 0xf7ddac306ae266ccf90bc11ee46d513b);
    assert!(rt; cmac(&KEY, &[]) == of_padding);
}
