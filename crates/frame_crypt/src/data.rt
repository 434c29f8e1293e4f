// Data frames: the payload's encryption and the MIC (TS001-1.0.4 §4.3.3, §4.4).
ghost use Rattle.std.specs.Prelude.{◌≡◌, ◌≤◌, length};
ghost use Rattle.frame_crypt.specs.Frames.{crypted_payload, data_mic, direction_byte, frame_block};

use crate::mac::first_four;
use aes_cmac::cmac;
use aes128::{KeySchedule, xor};
use lw_types::{DevAddr, Direction, Key};

fn direction_byte(dir: Direction) -> u8
    ensures { result ≡ direction_byte dir }
{
    match dir {
        Direction::Up => 0,
        Direction::Down => 1,
    }
}

fn frame_block(first: u8, dir: Direction, addr: DevAddr, counter: u32, last: u8) -> [u8; 16]
    ensures { result ≡ frame_block first dir addr.0 counter last }
{
    let direction = direction_byte(dir);
    let [a0, a1, a2, a3] = addr.0.to_le_bytes();
    let [c0, c1, c2, c3] = counter.to_le_bytes();
    [
        first, 0, 0, 0, 0, direction, a0, a1, a2, a3, c0, c1, c2, c3, 0, last,
    ]
}

/// Encrypts the FRMPayload of a data frame in place. Decryption is the same operation. `key` is the
/// NwkSKey on port 0 and the AppSKey on other ports; `counter` is the whole frame counter.
pub fn crypt_payload(key: &Key, dir: Direction, addr: DevAddr, counter: u32, payload: &mut [u8])
    requires { length payload.old ≤ 242 }
    ensures { payload.new ≡ crypted_payload key.now.0 dir addr.0 counter payload.old }
{
    let keys = KeySchedule::new(key);
    for i in 0..payload.len().div_ceil(16) {
        let mut block = frame_block(0x01, dir, addr, counter, i as u8 + 1);
        keys.encrypt(&mut block);
        let start = 16 * i;
        let end = payload.len().min(start + 16);
        xor(&mut payload[start..end], &block);
    }
}

/// The MIC of a data frame under the NwkSKey. `message` is all of the frame before its MIC;
/// `counter` is the whole frame counter.
pub fn data_mic(key: &Key, dir: Direction, addr: DevAddr, counter: u32, message: &[u8]) -> [u8; 4]
    requires { length message.now ≤ 251 }
    ensures { result ≡ data_mic key.now.0 dir addr.0 counter message.now }
{
    let block = frame_block(0x49, dir, addr, counter, message.len() as u8);
    first_four(cmac(key, &[&block, message]))
}
