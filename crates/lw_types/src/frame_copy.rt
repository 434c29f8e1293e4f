// A frame as one gateway heard it.
ghost use Rattle.std.specs.Prelude.{◌≡◌, length, nat_le, Err, MatchBool, MatchResult};
ghost use Rattle.lw_types.specs.FrameCopy.{frame_copy};
ghost use Rattle.lw_types.specs.declared.refusal.Refusal.TheVariants.{FrameTooLong, OutOfMemory};

use crate::bytes::Bytes;
use crate::identifiers::Eui;
use crate::payload::{LONGEST_FRAME, PhyPayload};
use crate::refusal::Refusal;
use std::alloc::Global;

/// How a gateway heard a frame.
#[derive(Clone, Copy, PartialEq, Eq)]
pub struct Reception {
    pub gateway: Eui,
    /// In Hz.
    pub frequency: u32,
    pub data_rate: u8,
    /// In quarter dB.
    pub snr: i16,
    /// In dBm.
    pub rssi: i16,
}

/// A frame as one gateway heard it. Each gateway in range has its own copy of a frame.
#[derive(Clone, PartialEq, Eq, Drop)]
pub struct FrameCopy {
    pub reception: Reception,
    /// The gateway's time at the end of the frame, in microseconds.
    pub stamp: u32,
    pub phy_payload: PhyPayload,
}

impl FrameCopy {
    /// The copy of a frame with this PHYPayload. More than 255 bytes are refused as `FrameTooLong`,
    /// whether or not memory is available; otherwise, if memory runs out, the call is refused as
    /// `OutOfMemory`.
    pub fn new(
        alloc: Global,
        reception: Reception,
        stamp: u32,
        phy_payload: &[u8],
    ) -> Result<Self, Refusal>
        ensures { MatchBool (nat_le (length phy_payload.now) LONGEST_FRAME)
            (MatchResult result (λ copy. copy ≡ frame_copy reception stamp phy_payload.now)
            (λ e. e ≡ OutOfMemory))
            (result ≡ Err FrameTooLong) }
    {
        if phy_payload.len() > LONGEST_FRAME {
            return Err(Refusal::FrameTooLong);
        }
        Ok(FrameCopy {
            reception,
            stamp,
            phy_payload: Bytes::from_slice(alloc, phy_payload)?,
        })
    }

    /// The same copy in newly allocated memory.
    pub fn copy(&self) -> Result<Self, Refusal>
        ensures { MatchResult result (λ copy. copy ≡ self.now) (λ e. e ≡ OutOfMemory) }
    {
        Ok(self.clone()?)
    }
}
