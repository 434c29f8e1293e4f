// What a network asks of a join server.
use crate::JoinRequestBytes;
use lw_types::{DevAddr, NetId, RxDelay};

/// A device's Join-Request, and the parameters of its session if it is granted.
#[derive(Clone, Copy, PartialEq, Eq)]
pub struct JoinAsk {
    pub net_id: NetId,
    pub dev_addr: DevAddr,
    /// RX1DROffset in bits 6 to 4 and the data rate of RX2 in bits 3 to 0 (TS001-1.0.4 §6.2.6).
    pub dl_settings: u8,
    pub rx_delay: RxDelay,
    pub request: JoinRequestBytes,
    /// The number that connects the answer with the question.
    pub transaction: u32,
}
