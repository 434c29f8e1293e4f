// From the content of a frame to its message.
ghost use Rattle.std.specs.Prelude.{◌≡◌};
ghost use Rattle.std.specs.List.{list_all};
ghost use Rattle.byte_fields.specs.Reading.{Gives};
ghost use Rattle.link_messages.specs.MessageReading.{application_at, copy_at, gateway_at};
ghost use Rattle.link_messages.specs.MessageReading.{greeting_at, is_line_byte, line_at};
ghost use Rattle.link_messages.specs.MessageReading.{message_at, reception_at, signed_at, Reads};

use crate::line::Line;
use crate::message::{APPLICATION_GREETING, GATEWAY_GREETING, Message, Peer, REQUEST, UPLINK_COPY};
use byte_fields::FieldReader;
use lw_types::{Eui, FrameCopy, LONGEST_FRAME, Reception, Refusal};
use std::alloc::Global;

const NEWLINE: u8 = b'\n';

fn signed(fields: &mut FieldReader<'_>) -> Option<i16>
    ensures { Gives result fields.new.rest.now (signed_at fields.old.rest.now) }
{
    Some(i16::from_be_bytes(fields.array()?))
}

// How a gateway heard a frame, and its stamp.
#[tactic(auto, unfolding(crate::specs::MessageReading::reception_at))]
fn heard(fields: &mut FieldReader<'_>) -> Option<(Reception, u32)>
    ensures { Gives result fields.new.rest.now (reception_at fields.old.rest.now) }
{
    let reception = Reception {
        gateway: fields.eui_be()?,
        frequency: fields.u32_be()?,
        data_rate: fields.byte()?,
        snr: signed(fields)?,
        rssi: signed(fields)?,
    };
    Some((reception, fields.u32_be()?))
}

// A copy from this gateway.
fn read_copy(alloc: Global, gateway: Eui, bytes: &[u8]) -> Result<Message, Refusal>
    ensures { Reads result (copy_at gateway bytes.now) }
{
    let mut fields = FieldReader { rest: bytes };
    let (reception, stamp) = heard(&mut fields).ok_or(Refusal::BadMessage)?;
    if reception.gateway.0 != gateway.0 || fields.rest.len() > LONGEST_FRAME {
        return Err(Refusal::BadMessage);
    }
    Ok(Message::Copy(FrameCopy::new(alloc, reception, stamp, fields.rest)?))
}

fn is_line(bytes: &[u8]) -> bool
    ensures { result ≡ list_all is_line_byte bytes.now }
{
    bytes.iter().all(|byte| *byte < 0x80 && *byte != NEWLINE)
}

// A line from an application.
fn line(alloc: Global, bytes: &[u8]) -> Result<Message, Refusal>
    ensures { Reads result (line_at bytes.now) }
{
    if !is_line(bytes) {
        return Err(Refusal::BadMessage);
    }
    let text = str::from_utf8(bytes).unwrap();
    Ok(Message::Line(Line::new(String::from_str(alloc, text)?)))
}

fn gateway_greeting(bytes: &[u8]) -> Option<Message>
    ensures { result ≡ gateway_at bytes.now }
{
    let mut fields = FieldReader { rest: bytes };
    let gateway = fields.eui_be()?;
    if fields.rest.is_empty() {
        Some(Message::Greeting(Peer::Gateway(gateway)))
    } else {
        None
    }
}

fn application_greeting(bytes: &[u8]) -> Option<Message>
    ensures { result ≡ application_at bytes.now }
{
    let mut fields = FieldReader { rest: bytes };
    let application = fields.ranged()?;
    if fields.rest.is_empty() {
        Some(Message::Greeting(Peer::Application(application)))
    } else {
        None
    }
}

fn greeting(kind: u8, fields: &[u8]) -> Option<Message>
    ensures { result ≡ greeting_at kind fields.now }
{
    match kind {
        GATEWAY_GREETING => gateway_greeting(fields),
        APPLICATION_GREETING => application_greeting(fields),
        _ => None,
    }
}

/// The message of this content, if it may be said on a link of this peer; the peer is `None` before
/// its greeting. Any other content is refused as `BadMessage`, whether or not memory is available.
#[tactic(auto, unfolding(crate::specs::MessageReading::message_at))]
pub(crate) fn read_message(
    alloc: Global,
    peer: Option<Peer>,
    content: &[u8],
) -> Result<Message, Refusal>
    ensures { Reads result (message_at peer content.now) }
{
    let (kind, fields) = content.split_first().ok_or(Refusal::BadMessage)?;
    match (peer, *kind) {
        (None, kind) => greeting(kind, fields).ok_or(Refusal::BadMessage),
        (Some(Peer::Gateway(gateway)), UPLINK_COPY) => read_copy(alloc, gateway, fields),
        (Some(Peer::Application(_)), REQUEST) => line(alloc, fields),
        _ => Err(Refusal::BadMessage),
    }
}
