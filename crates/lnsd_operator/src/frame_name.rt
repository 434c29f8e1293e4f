// The name of a frame that was refused.
ghost use Rattle.std.specs.Prelude.{◌≡◌, IfOk};
ghost use Rattle.phy_payload.specs.Reading.{phy_at};
ghost use Rattle.lnsd_operator.specs.Named.{said_name};

use lw_types::{DevAddr, Eui};
use phy_payload::{PhyRef, read_phy};
use std::alloc::{AllocError, Global};

/// What a frame says about its sender. Its MIC isn't checked, so it may be false.
#[derive(Clone, Copy, Debug, PartialEq, Eq)]
pub enum FrameName {
    /// A Join-Request (TS001-1.0.4 §6.2.5).
    JoinRequest { dev_eui: Eui, dev_nonce: u16 },
    /// A data frame (TS001-1.0.4 §4.3.1): its address, and the low 16 bits of its counter.
    Data { dev_addr: DevAddr, f_cnt: u16 },
    /// Neither.
    Other,
}

impl FrameName {
    /// The name of the frame with this PHYPayload. Takes no memory.
    pub fn of(phy_payload: &[u8]) -> Self
        ensures { result ≡ said_name (phy_at phy_payload.now) }
    {
        match read_phy(phy_payload) {
            Ok(PhyRef::JoinRequest(request)) => FrameName::JoinRequest {
                dev_eui: request.dev_eui,
                dev_nonce: request.dev_nonce,
            },
            Ok(PhyRef::DataFrame(frame)) => FrameName::Data {
                dev_addr: frame.dev_addr(),
                f_cnt: frame.f_cnt(),
            },
            Ok(PhyRef::JoinAccept(_)) | Err(_) => FrameName::Other,
        }
    }

    /// The words for it in a line.
    pub(crate) fn words(self, alloc: Global) -> Result<String, AllocError> {
        match self {
            FrameName::JoinRequest { dev_eui, dev_nonce } => {
                format!(in alloc; "join {dev_eui} {dev_nonce}")
            }
            FrameName::Data { dev_addr, f_cnt } => format!(in alloc; "data {dev_addr} {f_cnt}"),
            FrameName::Other => String::from_str(alloc, "other"),
        }
    }
}
