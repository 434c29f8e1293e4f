// The result of a granted join.
use lw_types::{JoinNonce, Key};

/// The bytes of a Join-Accept with a CFList. All but the first byte are sealed (TS001-1.0.4
/// §6.2.6).
pub type SealedAccept = [u8; 33];

/// A granted session: its JoinNonce and keys for the network, and the accept for the device.
#[derive(Clone, Copy, PartialEq, Eq)]
pub struct JoinGrant {
    pub join_nonce: JoinNonce,
    pub nwk_skey: Key,
    pub app_skey: Key,
    pub accept: SealedAccept,
}
