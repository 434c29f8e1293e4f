// Downlinks as frames of the wire.
ghost use Rattle.std.specs.Prelude.{◌≡◌, ◌≤◌, length, IfOk, IsOk};
ghost use Rattle.gateway_wire.specs.Downlink.{downlink_frame, rx2_delay};
ghost use Rattle.gateway_wire.specs.Put.{IsPut};

use devices::{Downlink, ReceiveWindows};
use lw_types::{Bytes, LONGEST_FRAME};
use std::alloc::{AllocError, Global};

/// The first byte of the content of a downlink.
pub const DOWNLINK: u8 = 0x11;

/// The number of bytes of content before the PHYPayload.
const HEAD: usize = 20;

/// The most bytes of a frame of the wire for a gateway.
pub const LONGEST_WIRE_FRAME: usize = 2 + HEAD + LONGEST_FRAME;

/// A frame of the wire for a gateway. The two bytes of its length come first.
pub type WireFrame = Bytes<LONGEST_WIRE_FRAME>;

/// The whole frame that asks a gateway to send a downlink.
pub(crate) fn downlink_frame(alloc: Global, downlink: &Downlink) -> Result<WireFrame, AllocError>
    ensures { IfOk result (λ frame. frame ≡ downlink_frame downlink.now) }
{
    let phy_payload = downlink.frame.as_slice();
    let len = HEAD + phy_payload.len();
    let delay = downlink.delay.get() as u8;
    let rx2_delay = rx2_delay(downlink.receive_windows, delay);
    let mut bytes = Vec::with_capacity(alloc, 2 + len)?;
    bytes.extend_from_slice(&(len as u16).to_be_bytes())?;
    bytes.push(DOWNLINK)?;
    bytes.extend_from_slice(&downlink.gateway.0.to_be_bytes())?;
    bytes.extend_from_slice(&downlink.stamp.to_be_bytes())?;
    bytes.extend_from_slice(&downlink.frequency.to_be_bytes())?;
    bytes.extend_from_slice(&[downlink.data_rate, delay, rx2_delay])?;
    bytes.extend_from_slice(phy_payload)?;
    let frame: Result<_, _> = WireFrame::new(bytes);
    Ok(frame.unwrap())
}

/// Appends the frame of a downlink, as [`downlink_frame`] makes it.
pub(crate) fn put_downlink(
    alloc: Global,
    downlink: &Downlink,
    bytes: &mut Vec<u8>,
) -> Result<(), AllocError>
    ensures put { IsPut (downlink_frame downlink.now) bytes.old.items result bytes.new.items }
    ensures short { IsOk result → length (downlink_frame downlink.now) ≤ LONGEST_WIRE_FRAME }
{
    let frame = downlink_frame(alloc, downlink)?;
    bytes.extend_from_slice(frame.as_slice())
}

// The delay of RX2 in seconds, one above that of RX1 (RECEIVE_DELAY2); 0 if RX2 isn't to be used.
fn rx2_delay(receive_windows: ReceiveWindows, rx1_delay: u8) -> u8
    requires { rx1_delay ≤ 15 }
    ensures { result ≡ rx2_delay receive_windows rx1_delay }
{
    match receive_windows {
        ReceiveWindows::Rx1 => 0,
        ReceiveWindows::Rx1OrRx2 => rx1_delay + 1,
    }
}
