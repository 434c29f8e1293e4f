// A frame from another implementation, and each call compared with the cipher and the CMAC of the
// blocks that the standard names.
ghost use Rattle.std.specs.Prelude.{◌≡◌, length};

use aes_cmac::cmac;
use aes128::encrypt;
use frame_crypt::{crypt_payload, data_mic, derive_keys, join_mic, seal_accept};
use lw_types::{DevAddr, Direction, JoinNonce, Key, NetId};

fn key_of(bytes: u128) -> Key {
    Key(bytes.to_be_bytes())
}

// The first frame of the readme of npm's `lora-packet`, with its keys.
#[test]
fn a_frame_of_another_implementation(rt: HostRuntime) {
    let nwk_skey = key_of(0x44024241ed4ce9a68c6a8bc055233fd3);
    let app_skey = key_of(0xec925802ae430ca77fd3dd73cb2cc588);
    let addr = DevAddr(0x49be7df1);
    let message = *b"\x40\xf1\x7d\xbe\x49\x00\x02\x00\x01\x95\x43\x78\x76";
    let mic = data_mic(&nwk_skey, Direction::Up, addr, 2, &message);
    assert!(rt; mic == *b"\x2b\x11\xff\x0d");
    let mut payload = *b"\x95\x43\x78\x76";
    crypt_payload(&app_skey, Direction::Up, addr, 2, &mut payload);
    assert!(rt; payload == *b"test");
}

// Whether the MIC is the beginning of the MAC of this block and the message.
fn has_mic(direction: Direction, block: &[u8]) -> bool {
    let key = key_of(0x44024241ed4ce9a68c6a8bc055233fd3);
    let message = [7u8; 13];
    let mac = cmac(&key, &[block, &message]);
    mac.starts_with(&data_mic(&key, direction, DevAddr(0x49be7df1), 2, &message))
}

#[test]
fn the_mic_of_b_0_and_the_message(rt: HostRuntime) {
    let up = b"\x49\0\0\0\0\x00\xf1\x7d\xbe\x49\x02\0\0\0\0\x0d";
    assert!(rt; has_mic(Direction::Up, up));
    let down = b"\x49\0\0\0\0\x01\xf1\x7d\xbe\x49\x02\0\0\0\0\x0d";
    assert!(rt; has_mic(Direction::Down, down));
}

#[test]
fn the_keystream_of_a_1_and_a_2(rt: HostRuntime) {
    let key = key_of(0xec925802ae430ca77fd3dd73cb2cc588);
    let mut first = *b"\x01\0\0\0\0\x00\xf1\x7d\xbe\x49\x02\0\0\0\0\x01";
    let mut second = *b"\x01\0\0\0\0\x00\xf1\x7d\xbe\x49\x02\0\0\0\0\x02";
    encrypt(&key, &mut first);
    encrypt(&key, &mut second);
    let mut payload = [0u8; 20];
    crypt_payload(&key, Direction::Up, DevAddr(0x49be7df1), 2, &mut payload);
    assert!(rt; &payload[..16] == first.as_slice());
    assert!(rt; &payload[16..] == &second[..4]);
}

// The session keys of JoinNonce 1, NetID 2A and DevNonce 1.
fn session_keys(key: &Key) -> Option<(Key, Key)> {
    Some(derive_keys(key, JoinNonce::new(1)?, NetId::new(0x2a)?, 1))
}

#[test]
fn the_session_keys_of_a_join(rt: HostRuntime) {
    let key = key_of(0x2b7e151628aed2a6abf7158809cf4f3c);
    let mut nwk_block = *b"\x01\x01\0\0\x2a\0\0\x01\0\0\0\0\0\0\0\0";
    let mut app_block = *b"\x02\x01\0\0\x2a\0\0\x01\0\0\0\0\0\0\0\0";
    encrypt(&key, &mut nwk_block);
    encrypt(&key, &mut app_block);
    assert!(rt; session_keys(&key) == Some((Key(nwk_block), Key(app_block))));
}

// A block of a sealed accept as the device opens it.
fn opened(key: &Key, sealed: &[u8]) -> [u8; 16]
    requires { length sealed.now ≡ 16 }
{
    let mut block = [0; 16];
    block.copy_from_slice(sealed);
    encrypt(key, &mut block);
    block
}

#[test]
fn an_accept_is_opened_by_encryption(rt: HostRuntime) {
    let key = key_of(0x2b7e151628aed2a6abf7158809cf4f3c);
    let mut frame = *b"\x20\x01\0\0\x2a\0\0\x01\0\0\x54\x20\x01\0\0\0\0";
    let [a, b, c, d] = join_mic(&key, &frame[..13]);
    seal_accept(&key, &mut frame);
    assert!(rt; frame[0] == 0x20);
    let expected = [1, 0, 0, 0x2a, 0, 0, 1, 0, 0, 0x54, 0x20, 1, a, b, c, d];
    assert!(rt; opened(&key, &frame[1..]) == expected);
}

#[test]
fn an_accept_with_a_list_of_channels_is_opened_by_encryption(rt: HostRuntime) {
    let key = key_of(0x2b7e151628aed2a6abf7158809cf4f3c);
    let mut frame = [7u8; 33];
    let [a, b, c, d] = join_mic(&key, &frame[..29]);
    seal_accept(&key, &mut frame);
    assert!(rt; frame[0] == 7);
    assert!(rt; opened(&key, &frame[1..17]) == [7; 16]);
    let last = [7, 7, 7, 7, 7, 7, 7, 7, 7, 7, 7, 7, a, b, c, d];
    assert!(rt; opened(&key, &frame[17..]) == last);
}

// The Join-Accept of another implementation before its MIC, as OpenSSL opens it: MHDR, JoinNonce
// E5063A, NetID 000013, DevAddr 26012E43, DLSettings 03, RxDelay 01 and a list of channels.
const OPENED: [u8; 29] = [
    0x20, 0x3A, 0x06, 0xE5, 0x13, 0x00, 0x00, 0x43, 0x2E, 0x01, 0x26, 0x03, 0x01, 0x18, 0x4F, 0x84,
    0xE8, 0x56, 0x84, 0xB8, 0x5E, 0x84, 0x88, 0x66, 0x84, 0x58, 0x6E, 0x84, 0x00,
];

const SEALED: [u8; 33] = [
    0x20, 0x4D, 0xD8, 0x5A, 0xE6, 0x08, 0xB8, 0x7F, 0xC4, 0x88, 0x99, 0x70, 0xB7, 0xD2, 0x04, 0x2C,
    0x9E, 0x72, 0x95, 0x9B, 0x00, 0x57, 0xAE, 0xD6, 0x09, 0x4B, 0x16, 0x00, 0x3D, 0xF1, 0x2D, 0xE1,
    0x45,
];

#[test]
fn an_accept_of_another_implementation_is_made_again(rt: HostRuntime) {
    let mut frame = [0; 33];
    frame[..29].copy_from_slice(&OPENED);
    seal_accept(&key_of(0xb6b53f4a168a7a88bdf7ea135ce9cfca), &mut frame);
    assert!(rt; frame == SEALED);
}
