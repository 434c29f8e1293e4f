// The lines to applications about their devices' uplinks.
ghost use Rattle.std.specs.Prelude.{◌≡◌, ◌≤◌, ◌<◌, ◌^◌, length, FitsSigned, IfOk};
ghost use Rattle.std.specs.Int.{w16};
ghost use Rattle.gateway_wire.specs.Answer.{answer_frame};
ghost use Rattle.gateway_wire.specs.UpLine.{line_of_up};
ghost use Rattle.gateway_wire.specs.Put.{IsPut};

use crate::answer::{LONGEST_ANSWER, put_answer_head};
use crate::field::{field_len, put_field};
use devices::{Copies, Payload, Port, SessionName};
use link_messages::Line;
use lw_types::{ByteField, Reception};
use std::alloc::{AllocError, Global};
use std::fmt;

/// A payload with its session and counter, the number of gateways that heard it, and the best
/// reception.
#[derive(Clone, Copy)]
pub(crate) struct UpFields<'a> {
    pub session: &'a SessionName,
    pub counter: u32,
    pub port: Port,
    pub payload: &'a Payload,
    pub copies: Copies,
    pub best: &'a Reception,
}

// The words of an uplink's line before the payload: its session, counter and port.
#[derive(Clone, Copy)]
struct HeadFields<'x, 'a>(&'x UpFields<'a>);

impl fmt::Display for HeadFields<'_, '_> {
    ghost use Rattle.std.specs.Prelude.{Some};
    ghost use Rattle.lw_types.specs.Words.{line_of};
    ghost use Rattle.gateway_wire.specs.UpLine.{head_of_up};

    ghost output = { λ h. Some (line_of (head_of_up h.0.now)) };

    #[tactic(auto, unfolding(lw_types::specs::Words::line_of))]
    fn fmt<W: fmt::Write>(&self, f: &mut fmt::Formatter<W>) -> fmt::Result {
        let (dev_eui, nonce) = (self.0.session.dev_eui, self.0.session.join_nonce.get());
        let (counter, port) = (self.0.counter, self.0.port.get());
        write!(f, "up {dev_eui} {nonce} {counter} {port}")
    }
}

// The words after the payload: the number of gateways that heard it, and the best reception.
#[derive(Clone, Copy)]
struct HeardFields<'x, 'a>(&'x UpFields<'a>);

impl fmt::Display for HeardFields<'_, '_> {
    ghost use Rattle.std.specs.Prelude.{Some};
    ghost use Rattle.lw_types.specs.Words.{line_of};
    ghost use Rattle.gateway_wire.specs.AppLine.{heard_words};

    ghost output = { λ h. Some (line_of (heard_words h.0.now.copies h.0.now.best.now)) };

    #[tactic(auto, unfolding(lw_types::specs::Words::line_of))]
    fn fmt<W: fmt::Write>(&self, f: &mut fmt::Formatter<W>) -> fmt::Result {
        let (copies, best) = (self.0.copies.get(), self.0.best);
        let (gateway, frequency, data_rate) = (best.gateway, best.frequency, best.data_rate);
        let (snr, rssi) = (best.snr, best.rssi);
        write!(f, "{copies} {gateway} {frequency} {data_rate} {snr} {rssi}")
    }
}

// The ranges of an uplink's numbers, which their types give.
fn numbers_are_in_range(counter: u32, best: Reception)
    ensures counter { counter < 2 ^ 32 }
    ensures frequency { best.frequency < 2 ^ 32 }
    ensures data_rate { best.data_rate < 2 ^ 8 }
    ensures snr { FitsSigned w16 best.snr }
    ensures rssi { FitsSigned w16 best.rssi }
{
    let Reception {
        gateway: _,
        frequency: _,
        data_rate: _,
        snr: _,
        rssi: _,
    } = best;
}

// An uplink's line fits a frame, since the types of its fields give their ranges.
fn line_is_short(up: &UpFields<'_>)
    ensures { length (line_of_up up.now) ≤ LONGEST_ANSWER }
{
    let _nonce = up.session.join_nonce.get();
    let _port = up.port.get();
    let _copies = up.copies.get();
    let _payload = up.payload.as_slice();
    numbers_are_in_range(up.counter, *up.best);
}

// The length that the line of a payload usually doesn't exceed.
const USUAL_LINE: usize = 160;

/// The line of a payload, with its session and counter, and how it was heard.
pub(crate) fn up_line(alloc: Global, up: &UpFields<'_>) -> Result<Line, AllocError>
    ensures line { IfOk result (λ line. line ≡ line_of_up up.now) }
    ensures short { IfOk result (λ line. length line ≤ LONGEST_ANSWER) }
{
    line_is_short(up);
    let (head, heard) = (HeadFields(up), HeardFields(up));
    let hex = ByteField(up.payload.as_slice());
    let mut text = String::with_capacity(alloc, USUAL_LINE)?;
    write!(text, "{head} {hex} {heard}")?;
    Ok(Line::new(text))
}

// The most bytes of an uplink's line, not counting its payload.
const LONGEST_WORDS: usize = 93;

/// Appends the frame of an uplink's line. The payload's digits are written there directly, and need
/// no other memory.
pub(crate) fn put_uplink(
    alloc: Global,
    up: &UpFields<'_>,
    bytes: &mut Vec<u8>,
) -> Result<(), AllocError>
    ensures put { IsPut (answer_frame (line_of_up up.now)) bytes.old.items result
        bytes.new.items }
    ensures short { length (line_of_up up.now) ≤ LONGEST_ANSWER }
{
    line_is_short(up);
    let (head, heard) = (HeadFields(up), HeardFields(up));
    let payload = up.payload.as_slice();
    let mut words = String::with_capacity(alloc, LONGEST_WORDS)?;
    write!(words, "{head} ")?;
    let cut = words.len();
    write!(words, " {heard}")?;
    let (before, after) = words.as_bytes().split_at(cut);
    put_answer_head(words.len() + field_len(payload), bytes)?;
    bytes.extend_from_slice(before)?;
    put_field(payload, bytes)?;
    bytes.extend_from_slice(after)?;
    Ok(())
}
