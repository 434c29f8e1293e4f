// From frames to bytes.
ghost use Rattle.std.specs.Prelude.{◌≡◌, ◌<◌, ◌^◌, ◌∷◌, ◌++◌, ◌≤◌, MatchResult, OnOk, length};
ghost use Rattle.std.specs.Int.{w64, to_le_bytes};
ghost use Rattle.lw_types.specs.Hex.{IsBytes};
ghost use Rattle.lw_types.specs.declared.refusal.Refusal.TheVariants.{OutOfMemory};
ghost use Rattle.phy_payload.specs.Frame.{data_mic_input, data_type, mhdr, port_and_payload};
ghost use Rattle.phy_payload.specs.Frame.{request_mic_input, sealed_bytes, spelling, FitsPhy};
ghost use Rattle.phy_payload.specs.Frame.{IsCarried, IsDataFrame, IsJoinAccept, IsJoinRequest};
ghost use Rattle.phy_payload.specs.Frame.{IsPortPayload, IsMic, IsPhy};

use crate::contents::{Contents, PortPayload};
use crate::control::Control;
use crate::data_frame::DataFrame;
use crate::join::{JoinAccept, JoinRequest};
use crate::laws::mic_inputs_are_short;
use crate::mhdr;
use crate::phy::{Mic, Phy};
use lw_types::{Eui, Refusal};
use std::alloc::{AllocError, Global};

fn put_le_eui(out: &mut Vec<u8>, eui: Eui) -> Result<(), AllocError>
    ensures written { OnOk result (out.new.items ≡ out.old.items ++ to_le_bytes w64 eui.0) }
    ensures in_range { eui.0 < 2 ^ 64 }
{
    out.extend_from_slice(&eui.0.to_le_bytes())
}

fn put_mic(out: &mut Vec<u8>, mic: Mic) -> Result<(), AllocError>
    ensures written { OnOk result (out.new.items ≡ out.old.items ++ mic.0) }
    ensures in_range { IsMic mic }
{
    out.extend_from_slice(&mic.0)
}

fn put_bytes(out: &mut Vec<u8>, bytes: &[u8]) -> Result<(), AllocError>
    ensures written { OnOk result (out.new.items ≡ out.old.items ++ bytes.now) }
    ensures in_range { IsBytes bytes.now }
{
    out.extend_from_slice(bytes)
}

fn put_join_request(out: &mut Vec<u8>, request: &JoinRequest) -> Result<(), AllocError>
    ensures written { OnOk result
        (out.new.items ≡ out.old.items ++ (request_mic_input request.now ++ request.now.mic.0)) }
    ensures in_range { OnOk result (IsJoinRequest request.now) }
{
    out.push(mhdr::JOIN_REQUEST)?;
    put_le_eui(out, request.join_eui)?;
    put_le_eui(out, request.dev_eui)?;
    out.extend_from_slice(&request.dev_nonce.to_le_bytes())?;
    put_mic(out, request.mic)?;
    Ok(())
}

fn put_join_accept(out: &mut Vec<u8>, accept: &JoinAccept) -> Result<(), AllocError>
    ensures written { OnOk result
        (out.new.items ≡ out.old.items ++ mhdr 1 ∷ sealed_bytes accept.now) }
    ensures in_range { OnOk result (IsJoinAccept accept.now) }
{
    out.push(mhdr::JOIN_ACCEPT)?;
    match accept {
        JoinAccept::Short { sealed } => put_bytes(out, sealed),
        JoinAccept::WithCfList { sealed } => put_bytes(out, sealed),
    }
}

// The MHDR of a data frame.
fn data_header(control: Control, confirmed: bool) -> u8
    ensures { result ≡ mhdr (data_type control confirmed) }
{
    match (control, confirmed) {
        (Control::Uplink { .. }, false) => mhdr::UNCONFIRMED_DATA_UP,
        (Control::Downlink { .. }, false) => mhdr::UNCONFIRMED_DATA_DOWN,
        (Control::Uplink { .. }, true) => mhdr::CONFIRMED_DATA_UP,
        (Control::Downlink { .. }, true) => mhdr::CONFIRMED_DATA_DOWN,
    }
}

fn put_port_payload(out: &mut Vec<u8>, port_payload: &PortPayload) -> Result<(), AllocError>
    ensures written { OnOk result
        (out.new.items ≡ out.old.items ++ port_payload.now.f_port ∷ port_payload.now.frm_payload) }
    ensures in_range { OnOk result (IsPortPayload port_payload.now) }
{
    out.push(port_payload.f_port)?;
    put_bytes(out, port_payload.frm_payload.as_slice())
}

// FOpts, FPort and FRMPayload.
fn put_contents(out: &mut Vec<u8>, contents: &Contents) -> Result<(), AllocError>
    ensures written { OnOk result
        (out.new.items ≡ out.old.items
        ++ (contents.now.f_opts ++ port_and_payload contents.now.port_payload)) }
    ensures in_range { OnOk result (IsCarried contents.now) }
{
    put_bytes(out, contents.f_opts())?;
    if let Some(port_payload) = contents.port_payload() {
        put_port_payload(out, port_payload)?;
    }
    Ok(())
}

// All of a data frame except its MIC.
fn put_data_message(out: &mut Vec<u8>, frame: &DataFrame) -> Result<(), AllocError>
    ensures written { OnOk result (out.new.items ≡ out.old.items ++ data_mic_input frame.now) }
    ensures dev_addr { OnOk result (frame.now.dev_addr.0 < 2 ^ 32) }
    ensures f_cnt { OnOk result (frame.now.f_cnt < 2 ^ 16) }
    ensures contents { OnOk result (IsCarried frame.now.contents) }
{
    out.push(data_header(frame.control, frame.confirmed))?;
    out.extend_from_slice(&frame.dev_addr.0.to_le_bytes())?;
    let f_opts_len = frame.contents.f_opts().len() as u8;
    out.push(frame.control.f_ctrl(f_opts_len))?;
    out.extend_from_slice(&frame.f_cnt.to_le_bytes())?;
    put_contents(out, &frame.contents)
}

fn put_data_frame(out: &mut Vec<u8>, frame: &DataFrame) -> Result<(), AllocError>
    ensures written { OnOk result
        (out.new.items ≡ out.old.items ++ (data_mic_input frame.now ++ frame.now.mic.0)) }
    ensures in_range { OnOk result (IsDataFrame frame.now) }
{
    put_data_message(out, frame)?;
    put_mic(out, frame.mic)?;
    Ok(())
}

#[tactic(auto, unfolding(crate::specs::Frame::spelling))]
fn put_frame(out: &mut Vec<u8>, frame: &Phy) -> Result<(), AllocError>
    ensures written { OnOk result (out.new.items ≡ out.old.items ++ spelling frame.now) }
    ensures in_range { OnOk result (FitsPhy frame.now) }
{
    match frame {
        Phy::JoinRequest(request) => put_join_request(out, request),
        Phy::JoinAccept(accept) => put_join_accept(out, accept),
        Phy::DataFrame(data) => put_data_frame(out, data),
    }
}

/// Appends the message of a data frame, over which its MIC is made: all of its bytes except the
/// last four, at most 251. The frame's own MIC isn't used. If memory runs out, the call is refused
/// as `OutOfMemory` and nothing is appended.
pub fn encode_mic_input(alloc: Global, frame: &DataFrame, out: &mut Vec<u8>) -> Result<(), Refusal>
    ensures written { MatchResult result
        (λ _. out.new.items ≡ out.old.items ++ data_mic_input frame.now)
        (λ e. (e ≡ OutOfMemory) × (out.new.items ≡ out.old.items)) }
    ensures short { OnOk result (length (data_mic_input frame.now) ≤ 251) }
{
    mic_inputs_are_short(frame);
    let mut bytes = Vec::new(alloc);
    put_data_message(&mut bytes, frame)?;
    out.extend_from_slice(bytes.as_slice())?;
    Ok(())
}

/// Appends the bytes of a frame, its one spelling of 12 to 255 bytes. If memory runs out, the call
/// is refused as `OutOfMemory` and nothing is appended.
pub fn encode(alloc: Global, frame: &Phy, out: &mut Vec<u8>) -> Result<(), Refusal>
    ensures { MatchResult result
        (λ _. IsPhy (spelling frame.now) frame.now
        × (out.new.items ≡ out.old.items ++ spelling frame.now))
        (λ e. (e ≡ OutOfMemory) × (out.new.items ≡ out.old.items)) }
{
    let mut bytes = Vec::new(alloc);
    put_frame(&mut bytes, frame)?;
    out.extend_from_slice(bytes.as_slice())?;
    Ok(())
}
