// Joins made by hand, with the request's MIC from `join_mic`: which nonces are granted, and the
// accept.
use aes128::encrypt;
use frame_crypt::join_mic;
use join_server::{JoinAsk, JoinRequestBytes, JoinState, RxDelay, SealedAccept, answer};
use lw_types::{DevAddr, Eui, JoinNonce, Key, NetId};

const APP_KEY: Key = Key([
    0x2B, 0x7E, 0x15, 0x16, 0x28, 0xAE, 0xD2, 0xA6, 0xAB, 0xF7, 0x15, 0x88, 0x09, 0xCF, 0x4F, 0x3C,
]);

// MHDR, JoinEUI 0102030405060708 and DevEUI 1112131415161718, low bytes first.
const NAMES: [u8; 17] = *b"\x00\x08\x07\x06\x05\x04\x03\x02\x01\x18\x17\x16\x15\x14\x13\x12\x11";

fn state(app_key: Key, dev_nonce: Option<u16>, join_nonce: u32) -> JoinState {
    JoinState {
        dev_eui: Eui(0x1112_1314_1516_1718),
        join_eui: Eui(0x0102_0304_0506_0708),
        app_key,
        dev_nonce,
        join_nonce: JoinNonce::new(join_nonce),
    }
}

// A Join-Request with this DevNonce.
fn request(app_key: Key, dev_nonce: u16) -> Option<JoinRequestBytes> {
    let mut request = [0; 23];
    request[..17].copy_from_slice(&NAMES);
    request[17..19].copy_from_slice(&dev_nonce.to_le_bytes());
    let mic = join_mic(&app_key, &request[..19]);
    request[19..].copy_from_slice(&mic);
    JoinRequestBytes::new(request)
}

fn ask(dev_nonce: u16) -> Option<JoinAsk> {
    Some(JoinAsk {
        net_id: NetId::new(0x2A)?,
        dev_addr: DevAddr(0x5400_0001),
        dl_settings: 0,
        rx_delay: RxDelay::new(1)?,
        request: request(APP_KEY, dev_nonce)?,
        transaction: 2,
    })
}

// Whether, after these nonces, this DevNonce is granted the next JoinNonce. A JoinNonce of 0 means
// none.
fn grants(last: Option<u16>, granted: u32, dev_nonce: u16) -> bool {
    let Some(ask) = ask(dev_nonce) else {
        return false;
    };
    let next = granted.saturating_add(1);
    match answer(&state(APP_KEY, last, granted), &ask) {
        Ok((after, grant)) => {
            grant.join_nonce.get() == next && after == state(APP_KEY, Some(dev_nonce), next)
        }
        Err(_) => false,
    }
}

#[test]
fn nonces_grow(rt: HostRuntime) {
    assert!(rt; grants(None, 0, 1));
    assert!(rt; grants(None, 8191, 0));
    assert!(rt; grants(Some(0), 8192, 1));
    assert!(rt; grants(Some(7), 16_777_214, 65_535));
}

// The accept of the grant after this JoinNonce.
fn accept(app_key: Key, granted: u32, ask: Option<JoinAsk>) -> Option<SealedAccept> {
    match answer(&state(app_key, None, granted), &ask?) {
        Ok((_, grant)) => Some(grant.accept),
        Err(_) => None,
    }
}

// An accept as the device opens it.
fn opened(key: &Key, accept: &SealedAccept) -> SealedAccept {
    let (mut first, mut last) = ([0; 16], [0; 16]);
    first.copy_from_slice(&accept[1..17]);
    last.copy_from_slice(&accept[17..]);
    encrypt(key, &mut first);
    encrypt(key, &mut last);
    let mut frame = *accept;
    frame[1..17].copy_from_slice(&first);
    frame[17..].copy_from_slice(&last);
    frame
}

// The accept of the first join at slot 0 of the network 00002A: MHDR, JoinNonce 1, NetID, DevAddr
// 54000001, DLSettings 00, RxDelay 1, the list of channels, and the MIC from Python's
// `cryptography`.
const OPENED: SealedAccept = [
    0x20, 0x01, 0x00, 0x00, 0x2A, 0x00, 0x00, 0x01, 0x00, 0x00, 0x54, 0x00, 0x01, 0x18, 0x4F, 0x84,
    0xE8, 0x56, 0x84, 0xB8, 0x5E, 0x84, 0x88, 0x66, 0x84, 0x58, 0x6E, 0x84, 0x00, 0x07, 0xC5, 0xA9,
    0x72,
];

#[test]
fn an_accept_names_the_channels(rt: HostRuntime) {
    let Some(accept) = accept(APP_KEY, 0, ask(1)) else {
        panic!(rt; "no accept");
    };
    assert!(rt; opened(&APP_KEY, &accept) == OPENED);
}

// The Join-Accept of another implementation under its key: JoinNonce E5063A, NetID 000013, DevAddr
// 26012E43, DLSettings 03, RxDelay 1 and the same list of channels.
const OTHER_KEY: Key = Key([
    0xB6, 0xB5, 0x3F, 0x4A, 0x16, 0x8A, 0x7A, 0x88, 0xBD, 0xF7, 0xEA, 0x13, 0x5C, 0xE9, 0xCF, 0xCA,
]);

const OTHER_ACCEPT: SealedAccept = [
    0x20, 0x4D, 0xD8, 0x5A, 0xE6, 0x08, 0xB8, 0x7F, 0xC4, 0x88, 0x99, 0x70, 0xB7, 0xD2, 0x04, 0x2C,
    0x9E, 0x72, 0x95, 0x9B, 0x00, 0x57, 0xAE, 0xD6, 0x09, 0x4B, 0x16, 0x00, 0x3D, 0xF1, 0x2D, 0xE1,
    0x45,
];

fn other_ask() -> Option<JoinAsk> {
    Some(JoinAsk {
        net_id: NetId::new(0x13)?,
        dev_addr: DevAddr(0x2601_2E43),
        dl_settings: 3,
        rx_delay: RxDelay::new(1)?,
        request: request(OTHER_KEY, 1)?,
        transaction: 0,
    })
}

#[test]
fn an_accept_of_another_implementation_is_granted_again(rt: HostRuntime) {
    assert!(rt; accept(OTHER_KEY, 0xE5_0639, other_ask()) == Some(OTHER_ACCEPT));
}
