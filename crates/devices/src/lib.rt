//! Device records, and the commands and effects of a device.
//!
//! Every value here is in range by its type: if a value exists, the standard and the store's layout
//! allow it. So no caller tests a range again.
#![tactic(auto)]

mod activation;
mod address;
mod channels;
mod command;
mod device;
mod effect;
mod effects;
mod heard;
pub mod laws;
mod mac_queue;
mod mark;
mod queue;

pub use activation::{Activation, CurrentSession, Session};
pub use address::{dev_addr, slot_at};
pub use channels::Channels;
pub use command::{ApplicationCommand, Command, MacQueueing, Provisioning, Queueing};
pub use device::Device;
pub use effect::{Downlink, Effect, ReceiveWindows, Report};
pub use effects::Effects;
pub use heard::{Heard, Hearing, Hearings, is_receivable};
pub use lw_types::{Bytes, Payload, Ranged, RxDelay};
pub use mac_queue::MacQueue;
pub use mark::{Mark, SessionName};
pub use queue::{Item, ItemQueue};

/// The number of an application, from 0 to 15.
pub type Application = Ranged<0, 15>;

/// RX1DROffset: how many data rates RX1 is below the uplink, from 0 to 5 (TS001-1.0.4 §6.2.6).
pub type Rx1Offset = Ranged<0, 5>;

/// An application's port, from 1 to 223 (TS001-1.0.4 §4.3.2).
pub type Port = Ranged<1, 223>;

/// The counter of a session's next downlink, from 0 to 2^32. 2^32 means that no counter is left.
pub type NextDown = Ranged<0, 4_294_967_296>;

/// The number of new uplinks accepted from a device, from 0 to [`LAST_HEARD`].
pub type UplinkCount = Ranged<0, LAST_HEARD>;

/// The highest count of a device's uplinks: the count stays there.
pub const LAST_HEARD: u64 = (1 << 63) - 1;

/// The bytes that an application hands in, of any length.
pub type AskedBytes = Bytes<{ usize::MAX }>;

/// By how much the JoinNonces of a restored copy are raised, from 1 to 65,536.
pub type GrantsSince = Ranged<1, 65_536>;

/// The number of gateways that heard an uplink, from 1 to 32.
pub type Copies = Ranged<1, 32>;

/// An application's own name for an item that it queued.
#[derive(Clone, Copy, Debug, PartialEq, Eq)]
pub struct Tag(pub u32);
