// What leaves the network after a decision.
use crate::{Application, Copies, Payload, Port, RxDelay, SessionName, Tag};
use lw_types::{Eui, JoinNonce, PhyPayload, Reception};

/// The receive windows in which a gateway may send to the device (TS001-1.0.4 §3.3).
#[derive(Clone, Copy, PartialEq, Eq)]
pub enum ReceiveWindows {
    /// Only RX1.
    Rx1,
    /// In RX1, or one second later in RX2.
    Rx1OrRx2,
}

/// A frame that a gateway has to send once.
#[derive(PartialEq, Eq, Drop)]
pub struct Downlink {
    pub gateway: Eui,
    /// The gateway's time at the end of the uplink, in microseconds.
    pub stamp: u32,
    /// Of RX1, in Hz.
    pub frequency: u32,
    /// Of RX1.
    pub data_rate: u8,
    /// From the uplink to RX1.
    pub delay: RxDelay,
    pub receive_windows: ReceiveWindows,
    pub frame: PhyPayload,
}

/// A report to the application about its device.
#[derive(PartialEq, Eq, Drop)]
pub enum Report {
    /// The device was provisioned, and has this slot.
    Provisioned {
        slot: u16,
    },
    /// The item waits.
    Queued {
        tag: Tag,
    },
    /// The MAC commands wait.
    MacQueued {
        commands: Payload,
    },
    /// The device acknowledged the item.
    Acked {
        tag: Tag,
    },
    /// The device answered without acknowledging the item.
    Lost {
        tag: Tag,
    },
    /// The device sent these MAC commands.
    Mac {
        join_nonce: JoinNonce,
        commands: Payload,
    },
    /// The session has no downlink counter left.
    Spent {
        join_nonce: JoinNonce,
    },
}

/// What leaves the network, after its decision is durable. An effect that may leave only once names
/// its mark: the session, and the counter that is used up. `Effect` isn't `Clone`, since each
/// effect leaves once.
#[derive(PartialEq, Eq, Drop)]
pub enum Effect {
    /// A device's payload, for its application.
    Forward {
        application: Application,
        session: SessionName,
        /// The whole counter of the uplink.
        counter: u32,
        port: Port,
        payload: Payload,
        copies: Copies,
        /// The reception at the gateway that heard it best.
        best: Reception,
    },
    /// A granted join, for a gateway.
    Accept {
        session: SessionName,
        downlink: Downlink,
    },
    /// A frame with a downlink counter, for a gateway.
    Down {
        session: SessionName,
        /// The whole counter of the downlink.
        counter: u32,
        downlink: Downlink,
    },
    /// A report, for the device's application.
    Report {
        application: Application,
        dev_eui: Eui,
        report: Report,
    },
}
