// What the network is asked to do.
use crate::{Application, AskedBytes, Heard, Rx1Offset, RxDelay, Tag};
use lw_types::{Eui, Key};

/// A device to be provisioned, as its application describes it.
#[derive(Clone, Copy, PartialEq, Eq)]
pub struct Provisioning {
    pub application: Application,
    pub dev_eui: Eui,
    pub join_eui: Eui,
    pub app_key: Key,
    pub rx1_offset: Rx1Offset,
    pub rx_delay: RxDelay,
}

/// An item as an application hands it in. Its port and its length may be out of range.
#[derive(Clone, PartialEq, Eq, Drop)]
pub struct Queueing {
    pub application: Application,
    pub dev_eui: Eui,
    pub tag: Tag,
    pub port: u8,
    pub confirmed: bool,
    pub payload: AskedBytes,
}

/// MAC commands as an application hands them in: any bytes.
#[derive(Clone, PartialEq, Eq, Drop)]
pub struct MacQueueing {
    pub application: Application,
    pub dev_eui: Eui,
    pub commands: AskedBytes,
}

/// What the network is asked to do about a device.
#[derive(Clone, PartialEq, Eq, Drop)]
pub enum Command {
    /// A new device is provisioned.
    Provision(Provisioning),
    /// Gateways heard a frame of a device.
    Heard(Heard),
    /// An application queues an item for its device.
    Queue(Queueing),
    /// An application queues MAC commands for its device.
    QueueMac(MacQueueing),
}

/// A command of an application: every command except a frame that was heard.
#[derive(Clone, PartialEq, Eq, Drop)]
pub enum ApplicationCommand {
    /// A new device is provisioned.
    Provision(Provisioning),
    /// An item is queued for its device.
    Queue(Queueing),
    /// MAC commands are queued for its device.
    QueueMac(MacQueueing),
}

impl ApplicationCommand {
    ghost use Rattle.std.specs.Prelude.{◌≡◌};
    ghost use Rattle.devices.specs.Command.{as_command};

    /// The same command as a [`Command`].
    pub fn into_command(self) -> Command
        ensures { result ≡ as_command self }
    {
        match self {
            ApplicationCommand::Provision(provisioning) => Command::Provision(provisioning),
            ApplicationCommand::Queue(queueing) => Command::Queue(queueing),
            ApplicationCommand::QueueMac(queueing) => Command::QueueMac(queueing),
        }
    }
}
