// Lines that are steps.
use disk::Image;
use gateway_wire::{next_ranged, next_value, read_request};
use lw_types::{FrameCopy, NetId, Reception, Refusal, Words, read_field};
use session_core::Most;
use std::alloc::Global;
use std::str;
use world::{Event, Step};

/// The byte that `crash fill` leaves at every open position: that of an open gate.
const FILL: u8 = 0xA5;

/// What the first line of a script asks for: a store for a network, and its number of slots.
#[derive(Clone, Copy)]
pub struct Format {
    pub net_id: NetId,
    /// Any number; a store has 1 to 4,096.
    pub slots: u32,
}

/// The format that a first line asks for, or `None` for any other line.
pub fn read_format(line: &[u8]) -> Option<Format> {
    let mut words = Words::of(str::from_utf8(line).ok()?);
    match words.next() {
        Some("format") => format_fields(words),
        _ => None,
    }
}

// A network and the number of slots.
fn format_fields(mut words: Words<'_>) -> Option<Format> {
    let net_id = next_value(&mut words)?;
    let slots = next_value(&mut words)?;
    match words.next() {
        Some(_) => None,
        None => Some(Format { net_id, slots }),
    }
}

/// The step that a line is. Any other line is refused as `BadMessage`.
pub fn read_step(alloc: Global, line: &[u8]) -> Result<Step, Refusal> {
    match str::from_utf8(line) {
        Ok(text) => read_text(alloc, text),
        Err(_) => Err(Refusal::BadMessage),
    }
}

fn read_text(alloc: Global, line: &str) -> Result<Step, Refusal> {
    match line {
        "checkpoint" => Ok(Step::Checkpoint),
        "call" => Ok(Step::Call),
        "fail" => Ok(Step::Fail),
        "release" => Ok(Step::Release),
        "emit" => Ok(Step::Emit),
        "list" => Ok(Step::List),
        "crash old" => Ok(Step::Crash(Image::Old)),
        "crash new" => Ok(Step::Crash(Image::New)),
        "crash fill" => Ok(Step::Crash(Image::Fill(FILL))),
        _ => read_words(alloc, line),
    }
}

// A step with numbers in its line.
fn read_words(alloc: Global, line: &str) -> Result<Step, Refusal> {
    let mut words = Words::of(line);
    match words.next() {
        Some("take") => Ok(Step::Take(most(words).ok_or(Refusal::BadMessage)?)),
        Some("next") => Ok(Step::Next(most(words).ok_or(Refusal::BadMessage)?)),
        Some("tick") => tick(words).ok_or(Refusal::BadMessage),
        Some("hear") => hear(alloc, words),
        Some(name) => request(alloc, name, words),
        None => Err(Refusal::BadMessage),
    }
}

// The greatest number of decisions that are taken.
fn most(mut words: Words<'_>) -> Option<Most> {
    let most = next_ranged(&mut words)?;
    match words.next() {
        Some(_) => None,
        None => Some(most),
    }
}

// Only a moment.
fn tick(mut words: Words<'_>) -> Option<Step> {
    let moment = next_ranged(&mut words)?;
    match words.next() {
        Some(_) => None,
        None => Some(Step::Event {
            moment,
            event: Event::Tick,
        }),
    }
}

// A moment, how a gateway heard a frame, its stamp, and the frame's bytes.
fn hear(alloc: Global, mut words: Words<'_>) -> Result<Step, Refusal> {
    let moment = next_ranged(&mut words).ok_or(Refusal::BadMessage)?;
    let reception = reception(&mut words).ok_or(Refusal::BadMessage)?;
    let stamp = next_value(&mut words).ok_or(Refusal::BadMessage)?;
    let phy_payload = last_bytes(alloc, words)?;
    match FrameCopy::new(alloc, reception, stamp, phy_payload.as_slice()) {
        Ok(copy) => Ok(Step::Event {
            moment,
            event: Event::Hear(copy),
        }),
        Err(Refusal::FrameTooLong) => Err(Refusal::BadMessage),
        Err(refusal) => Err(refusal),
    }
}

// Gateway, frequency, data rate, SNR and RSSI.
fn reception(words: &mut Words<'_>) -> Option<Reception> {
    Some(Reception {
        gateway: next_value(words)?,
        frequency: next_value(words)?,
        data_rate: next_value(words)?,
        snr: next_value(words)?,
        rssi: next_value(words)?,
    })
}

// The bytes that the last word spells.
fn last_bytes(alloc: Global, mut words: Words<'_>) -> Result<Vec<u8>, Refusal> {
    match (words.next(), words.next()) {
        (Some(word), None) => read_field(alloc, word),
        _ => Err(Refusal::BadMessage),
    }
}

// A moment, an application, and its request.
fn request(alloc: Global, name: &str, mut words: Words<'_>) -> Result<Step, Refusal> {
    let moment = next_ranged(&mut words).ok_or(Refusal::BadMessage)?;
    let application = next_ranged(&mut words).ok_or(Refusal::BadMessage)?;
    let command = read_request(alloc, name, words)?.into_command(application);
    Ok(Step::Event {
        moment,
        event: Event::Ask(command),
    })
}
