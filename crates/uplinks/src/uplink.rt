// Data frames from devices (TS001-1.0.4 §4.3).
ghost use Rattle.std.specs.Prelude.{◌≡◌};
ghost use Rattle.phy_payload.specs.Seen.{seen_port_payload};
ghost use Rattle.uplinks.specs.Uplink.{has_both, is_on_port_0, uplink_of};

use lw_types::Refusal;
use phy_payload::{Control, DataFrameRef, PortPayloadRef};

/// A data frame from a device, which refers to the bytes it was read from. Its MAC commands are in
/// FOpts or on port 0, but not in both.
#[derive(Drop)]
pub struct Uplink<'a> {
    pub frame: DataFrameRef<'a>,
    /// The device asks whether it is still heard (TS001-1.0.4 §4.3.1.1).
    pub adr_ack_req: bool,
    /// The last confirmed downlink was received (TS001-1.0.4 §4.3.1.2).
    pub ack: bool,
}

impl<'a> Uplink<'a> {
    /// The uplink of a data frame. A downlink is refused as `NotServed`; then FOpts together with
    /// port 0 as `MacBoth` (TS001-1.0.4 §4.3.1.6).
    ///
    /// Takes no memory.
    pub fn new(frame: DataFrameRef<'a>) -> Result<Self, Refusal>
        ensures { result ≡ uplink_of frame.entry }
    {
        match frame.control() {
            Control::Downlink { .. } => Err(Refusal::NotServed),
            Control::Uplink { .. } if has_both(&frame) => Err(Refusal::MacBoth),
            Control::Uplink {
                adr_ack_req,
                ack,
                ..
            } => Ok(Uplink {
                frame,
                adr_ack_req,
                ack,
            }),
        }
    }
}

// Whether MAC commands are both in FOpts and on FPort 0.
fn has_both(frame: &DataFrameRef<'_>) -> bool
    ensures { result ≡ has_both frame.now.contents.f_opts frame.now.contents.port_payload }
{
    !frame.f_opts().is_empty() && is_on_port_0(frame.port_payload())
}

// Whether a port payload is on port 0.
fn is_on_port_0(port_payload: Option<PortPayloadRef<'_>>) -> bool
    ensures { result ≡ is_on_port_0 (seen_port_payload port_payload.entry) }
{
    match port_payload {
        None => false,
        Some(port_payload) => port_payload.f_port == 0,
    }
}
