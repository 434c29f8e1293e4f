// Changes of devices, as an operator asks for them.
ghost use Rattle.std.specs.Prelude.{◌≡◌};

use devices::{Application, Provisioning, Ranged, Rx1Offset, RxDelay};
use lw_types::{Eui, Key};

/// The last JoinNonce that was granted to a device, from 1 to 16,777,215 (TS001-1.0.4 §6.2.6), or 0
/// if none was.
pub type LastJoinNonce = Ranged<0, 16_777_215>;

/// A device that comes from another network, and the last nonces that were used there.
#[derive(Clone, Copy)]
pub struct Importing {
    pub provisioning: Provisioning,
    /// The last DevNonce that was accepted.
    pub last_dev_nonce: Option<u16>,
    pub last_join_nonce: LastJoinNonce,
}

/// New values for a device that the table has. What is `None` stays.
#[derive(Clone, Copy)]
pub struct Amendment {
    pub dev_eui: Eui,
    /// If this is another key than the device's, its sessions end.
    pub app_key: Option<Key>,
    /// If this is another application than the device's, nothing that waits for the device is sent.
    pub application: Option<Application>,
    pub join_eui: Option<Eui>,
    pub rx1_offset: Option<Rx1Offset>,
    pub rx_delay: Option<RxDelay>,
    /// The last DevNonce that was accepted. After `Some(None)` the next one may be any.
    pub last_dev_nonce: Option<Option<u16>>,
    /// At least the device's own.
    pub last_join_nonce: Option<LastJoinNonce>,
}

/// A device that is to join and be heard no more. It gets an AppKey that nobody knows: 16 random
/// bytes. It keeps its slot and its last nonces, and an amendment with another AppKey brings it
/// back. Lists show it like a device that hasn't joined yet, with its last JoinNonce; its uplinks
/// are refused as `UnknownDevAddr`, and its Join-Requests as `BadMic`.
#[derive(Clone, Copy)]
pub struct Retirement {
    pub dev_eui: Eui,
    pub app_key: Key,
}

/// One row of an operator's list: a change of one device.
#[derive(Clone, Copy)]
pub enum Change {
    /// A device comes into the table.
    Import(Importing),
    /// A device gets new values.
    Amend(Amendment),
    /// A device is retired.
    Retire(Retirement),
}

impl Change {
    ghost use Rattle.device_changes.specs.Change.{row_name};

    /// The DevEUI of the device.
    pub fn dev_eui(&self) -> Eui
        ensures { result.0 ≡ row_name self.now }
    {
        match self {
            Change::Import(importing) => importing.provisioning.dev_eui,
            Change::Amend(amendment) => amendment.dev_eui,
            Change::Retire(retirement) => retirement.dev_eui,
        }
    }
}
