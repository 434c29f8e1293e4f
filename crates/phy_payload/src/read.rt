// From bytes to frames.
ghost use Rattle.std.specs.Prelude.{◌≡◌, ◌+◌, ◌≤◌, ◌⊎◌, IfErr, IfOk, MatchResult, OnSome, length};
ghost use Rattle.lw_types.specs.declared.refusal.Refusal.TheVariants.{OutOfMemory};
ghost use Rattle.phy_payload.specs.declared.phy.Phy.{Phy};
ghost use Rattle.byte_fields.specs.Reading.{whole, Gives, GivesSeen};
ghost use Rattle.phy_payload.specs.Frame.{refusal_of, IsPhy, IsSomePhyInMemory, TakesMemory};
ghost use Rattle.phy_payload.specs.Reading.{accept_at, data_at, fhdr_at, or_malformed, phy_at};
ghost use Rattle.phy_payload.specs.Reading.{request_at, ReadsFrame};
ghost use Rattle.phy_payload.specs.Seen.{phy_read};

use crate::control::Control;
use crate::frame_ref::{DataFrameRef, PhyRef};
use crate::join::{JoinAccept, JoinRequest};
use crate::mhdr;
use crate::phy::{Mic, Phy};
use byte_fields::FieldReader;
use lw_types::{DevAddr, Direction, LONGEST_FRAME, Refusal};
use std::alloc::Global;

const UNCONFIRMED: bool = false;

const CONFIRMED: bool = true;

#[tactic(auto, unfolding(crate::specs::Reading::request_at))]
fn read_request_fields(fields: &mut FieldReader<'_>) -> Option<JoinRequest>
    ensures { Gives result fields.new.rest.now (request_at fields.old.rest.now) }
{
    Some(JoinRequest {
        join_eui: fields.eui_le()?,
        dev_eui: fields.eui_le()?,
        dev_nonce: fields.u16_le()?,
        mic: Mic(fields.array()?),
    })
}

fn read_join_request(body: &[u8]) -> Option<JoinRequest>
    ensures { result ≡ whole request_at body.now }
{
    let mut fields = FieldReader { rest: body };
    let request = read_request_fields(&mut fields)?;
    if fields.rest.is_empty() {
        Some(request)
    } else {
        None
    }
}

fn read_join_accept(body: &[u8]) -> Option<JoinAccept>
    ensures { result ≡ accept_at body.now }
{
    if let Ok(sealed) = <[u8; 16]>::try_from(body) {
        Some(JoinAccept::Short { sealed })
    } else if let Ok(sealed) = <[u8; 32]>::try_from(body) {
        Some(JoinAccept::WithCfList { sealed })
    } else {
        None
    }
}

// What comes before FOpts.
#[derive(Clone, Copy)]
struct FrameHead {
    dev_addr: DevAddr,
    f_ctrl: u8,
    f_cnt: u16,
}

fn read_fhdr(fields: &mut FieldReader<'_>) -> Option<FrameHead>
    ensures field { GivesSeen (λ head. (head.dev_addr.0, (head.f_ctrl, head.f_cnt))) result
        fields.new.rest.now (fhdr_at fields.old.rest.now) }
    ensures left { OnSome result (length fields.new.rest.now + 7 ≡ length fields.old.rest.now) }
{
    Some(FrameHead {
        dev_addr: DevAddr(fields.u32_le()?),
        f_ctrl: fields.byte()?,
        f_cnt: fields.u16_le()?,
    })
}

#[tactic(auto, unfolding(crate::specs::Reading::data_at))]
fn read_data_frame(direction: Direction, confirmed: bool, body: &[u8]) -> Option<DataFrameRef<'_>>
    requires { length body.now ≤ 254 }
    ensures { result ≡ data_at direction confirmed body.now }
{
    let (front, mic) = body.split_last_chunk::<4>()?;
    let mut fields = FieldReader { rest: front };
    let head = read_fhdr(&mut fields)?;
    let control = Control::of(direction, head.f_ctrl)?;
    let (f_opts, behind) = fields.rest.split_at_checked(usize::from(head.f_ctrl % 16))?;
    Some(DataFrameRef {
        confirmed,
        dev_addr: head.dev_addr,
        control,
        f_cnt: head.f_cnt,
        f_opts,
        behind,
        mic: Mic(*mic),
    })
}

fn read_data(direction: Direction, confirmed: bool, body: &[u8]) -> Result<PhyRef<'_>, Refusal>
    requires { length body.now ≤ 254 }
    ensures { phy_read result ≡ or_malformed Phy.DataFrame (data_at direction confirmed body.now) }
{
    match read_data_frame(direction, confirmed, body) {
        Some(frame) => Ok(PhyRef::DataFrame(frame)),
        None => Err(Refusal::Malformed),
    }
}

/// Reads a frame from its bytes, which are all of the PHYPayload (TS001-1.0.4 §4). Takes no memory.
///
/// Bytes that are no frame are refused as `NotServed` if there are 1 to 255 of them and their MHDR
/// has FType 6 or 7, with RFU bits and Major 0; otherwise as `Malformed`.
#[tactic(auto, unfolding(crate::specs::Reading::phy_at))]
pub fn read_phy(bytes: &[u8]) -> Result<PhyRef<'_>, Refusal>
    ensures { phy_read result ≡ phy_at bytes.now }
{
    let (first, body) = bytes.split_first().ok_or(Refusal::Malformed)?;
    if bytes.len() > LONGEST_FRAME {
        return Err(Refusal::Malformed);
    }
    match *first {
        mhdr::JOIN_REQUEST => {
            let request = read_join_request(body).ok_or(Refusal::Malformed)?;
            Ok(PhyRef::JoinRequest(request))
        }
        mhdr::JOIN_ACCEPT => {
            let accept = read_join_accept(body).ok_or(Refusal::Malformed)?;
            Ok(PhyRef::JoinAccept(accept))
        }
        mhdr::UNCONFIRMED_DATA_UP => read_data(Direction::Up, UNCONFIRMED, body),
        mhdr::UNCONFIRMED_DATA_DOWN => read_data(Direction::Down, UNCONFIRMED, body),
        mhdr::CONFIRMED_DATA_UP => read_data(Direction::Up, CONFIRMED, body),
        mhdr::CONFIRMED_DATA_DOWN => read_data(Direction::Down, CONFIRMED, body),
        mhdr::RFU | mhdr::PROPRIETARY => Err(Refusal::NotServed),
        _ => Err(Refusal::Malformed),
    }
}

// A frame in memory of its own.
fn read_owned(alloc: Global, bytes: &[u8]) -> Result<Phy, Refusal>
    ensures { ReadsFrame result (phy_at bytes.now) }
{
    match read_phy(bytes) {
        Ok(frame) => frame.to_phy(alloc),
        Err(refusal) => Err(refusal),
    }
}

/// Reads a frame into memory of its own. Only a data frame takes memory. Bytes that are no frame
/// are refused as [`read_phy`] refuses them, whether or not memory is available. If memory runs
/// out, a data frame is refused as `OutOfMemory`.
pub fn decode(alloc: Global, bytes: &[u8]) -> Result<Phy, Refusal>
    // If a frame is returned, these bytes are that frame.
    ensures found { IfOk result (λ frame. IsPhy bytes.now frame) }
    // If these bytes are a frame, it is returned, unless memory runs out.
    ensures only { (frame : Phy) → IsPhy bytes.now frame
        → MatchResult result (λ found. found ≡ frame) (λ e. (e ≡ OutOfMemory) × TakesMemory frame) }
    // Memory runs out only for a frame that takes some. Any other refusal depends on the bytes
    // alone.
    ensures refused { IfErr result
        (λ e. ((e ≡ OutOfMemory) × IsSomePhyInMemory bytes.now) ⊎ (e ≡ refusal_of bytes.now)) }
    // The answer is what reading from left to right gives, unless memory runs out for it.
    ensures reads { ReadsFrame result (phy_at bytes.now) }
{
    read_owned(alloc, bytes)
}
