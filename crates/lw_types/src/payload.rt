// The byte strings of frames.
use crate::bytes::Bytes;

/// The most bytes of a frame. This limit is this project's own, not the standard's: gateways pass
/// frames on with a length of one byte.
pub const LONGEST_FRAME: usize = 255;

/// A PHYPayload: the bytes of a frame, at most 255.
pub type PhyPayload = Bytes<LONGEST_FRAME>;

/// The most bytes of a frame's payload. Of the 255 bytes of a frame, 13 are MHDR, DevAddr, FCtrl,
/// FCnt, FPort and MIC.
pub const LONGEST_PAYLOAD: usize = 242;

/// The payload of a frame, or a run of MAC commands: at most 242 bytes.
pub type Payload = Bytes<LONGEST_PAYLOAD>;
