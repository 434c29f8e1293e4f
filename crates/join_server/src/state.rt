// What a join server stores of a device.
use lw_types::{Eui, JoinNonce, Key};

/// A device with its AppKey, the last DevNonce that was accepted from it, and the last JoinNonce
/// that it was granted.
#[derive(Clone, Copy, PartialEq, Eq)]
pub struct JoinState {
    pub dev_eui: Eui,
    pub join_eui: Eui,
    pub app_key: Key,
    pub dev_nonce: Option<u16>,
    pub join_nonce: Option<JoinNonce>,
}
