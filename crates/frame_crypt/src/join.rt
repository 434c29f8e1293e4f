// Joins: MICs, the sealed accept and the session keys (TS001-1.0.4 §6.2).
ghost use Rattle.std.specs.Prelude.{◌≡◌, length};
ghost use Rattle.aes128.specs.InverseCipher.{plaintext};
ghost use Rattle.frame_crypt.specs.Joins.{IsAcceptSize, join_mic, sealed_accept, session_key};

use crate::mac::first_four;
use aes_cmac::cmac;
use aes128::KeySchedule;
use lw_types::{JoinNonce, Key, NetId};

/// The MIC, under the AppKey, of a Join-Request or of a Join-Accept that isn't sealed. `message` is
/// all of the frame before its MIC.
pub fn join_mic(key: &Key, message: &[u8]) -> [u8; 4]
    ensures { result ≡ join_mic key.now.0 message.now }
{
    first_four(cmac(key, &[message]))
}

/// Writes the MIC into the last four bytes of a Join-Accept, and seals all but its first byte under
/// the AppKey. The device opens it by encrypting each block.
pub fn seal_accept(key: &Key, frame: &mut [u8])
    requires { IsAcceptSize (length frame.old) }
    ensures { frame.new ≡ sealed_accept key.now.0 frame.old }
{
    let size = frame.len() - 4;
    let mic = join_mic(key, &frame[..size]);
    frame[size..].copy_from_slice(&mic);
    let keys = KeySchedule::new(key);
    for i in 0..frame.len() / 16 {
        let start = 16 * i + 1;
        seal_block(&keys, &mut frame[start..start + 16]);
    }
}

// Decrypts 16 bytes in place.
fn seal_block(keys: &KeySchedule, bytes: &mut [u8])
    requires { length bytes.old ≡ 16 }
    ensures { bytes.new ≡ plaintext keys.now bytes.old }
{
    let mut block = [0; 16];
    block.copy_from_slice(bytes);
    keys.decrypt(&mut block);
    bytes.copy_from_slice(&block);
}

/// The NwkSKey and the AppSKey of a granted join, under the AppKey.
pub fn derive_keys(key: &Key, join_nonce: JoinNonce, net_id: NetId, dev_nonce: u16) -> (Key, Key)
    ensures nwk_skey { result.0.0 ≡ session_key key.now.0 1 join_nonce net_id dev_nonce }
    ensures app_skey { result.1.0 ≡ session_key key.now.0 2 join_nonce net_id dev_nonce }
{
    let keys = KeySchedule::new(key);
    (
        session_key(&keys, 1, join_nonce, net_id, dev_nonce),
        session_key(&keys, 2, join_nonce, net_id, dev_nonce),
    )
}

fn session_key(
    keys: &KeySchedule,
    kind: u8,
    join_nonce: JoinNonce,
    net_id: NetId,
    dev_nonce: u16,
) -> Key
    ensures { result.0 ≡ session_key keys.now kind join_nonce net_id dev_nonce }
{
    let [j0, j1, j2, _] = join_nonce.get().to_le_bytes();
    let [n0, n1, n2, _] = u32::from(net_id.get()).to_le_bytes();
    let [d0, d1] = dev_nonce.to_le_bytes();
    let mut block = [kind, j0, j1, j2, n0, n1, n2, d0, d1, 0, 0, 0, 0, 0, 0, 0];
    keys.encrypt(&mut block);
    Key(block)
}
