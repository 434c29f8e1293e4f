// The steps of the tests here, as lines.
use crate::gathering::{PlainArrival, course_windows, due_frames};
use dedup::WAIT;
use devices::Command;
use gateway_wire::{next_ranged, next_value};
use lw_types::{Eui, FrameCopy, Reception, Refusal, Words, read_field};
use scripts::read_step;
use std::alloc::Global;
use world::{Event, Step};

/// At 0 a gateway has a copy of the frame whose bytes are this number.
pub fn hear(alloc: Global, gateway: u64, frame: u16) -> Result<Step, Refusal> {
    let line = format!(in alloc; "hear 0 {gateway:016X} 868100000 5 -20 -95 50000 {frame:04X}")?;
    read_step(alloc, line.as_bytes())
}

/// An application provisions a device of this DevEUI, at the moment of this number.
pub fn provision(alloc: Global, dev_eui: u64) -> Result<Step, Refusal> {
    let line = format!(in alloc;
        "provision {dev_eui} 3 {dev_eui:016X} 0000000000000001 07070707070707070707070707070707 0 1"
    )?;
    read_step(alloc, line.as_bytes())
}

// The frame of this copy, as a command.
fn command(alloc: Global, copy: FrameCopy) -> Result<Command, Refusal> {
    let windows = course_windows(alloc, &[PlainArrival::new(0, copy)])?;
    let mut frames = due_frames(alloc, &windows, WAIT)?;
    frames.pop().ok_or(Refusal::Damaged)
}

// How the gateway B1 hears a frame.
const HEARD: Reception = Reception {
    gateway: Eui(0xB1),
    frequency: 868_100_000,
    data_rate: 5,
    snr: -20,
    rssi: -95,
};

// A moment and digits: the frame that comes then with its only copy, as a command.
fn frame(alloc: Global, mut words: Words<'_>) -> Result<Step, Refusal> {
    let moment = next_ranged(&mut words).ok_or(Refusal::BadMessage)?;
    let digits = words.next().ok_or(Refusal::BadMessage)?;
    let copy = FrameCopy::new(alloc, HEARD, 50_000, &read_field(alloc, digits)?)?;
    Ok(Step::Event {
        moment,
        event: Event::Ask(command(alloc, copy)?),
    })
}

// A link, a moment and the bytes that come on it then.
fn piece(alloc: Global, mut words: Words<'_>) -> Result<Step, Refusal> {
    let link = next_value(&mut words).ok_or(Refusal::BadMessage)?;
    let moment = next_ranged(&mut words).ok_or(Refusal::BadMessage)?;
    let digits = words.next().ok_or(Refusal::BadMessage)?;
    Ok(Step::Piece {
        link,
        moment,
        bytes: read_field(alloc, digits)?,
    })
}

/// The step of a line in the script of this number: one of `scripts`, or a device of the script's
/// own that an application provisions, a frame or a piece.
pub fn step_of(alloc: Global, script: u32, line: &str) -> Result<Step, Refusal> {
    let mut words = Words::of(line);
    match words.next() {
        Some("device") => {
            let number: u64 = next_value(&mut words).ok_or(Refusal::BadMessage)?;
            provision(alloc, (u64::from(script) * 2).saturating_add(number))
        }
        Some("frame") => frame(alloc, words),
        Some("piece") => piece(alloc, words),
        _ => read_step(alloc, line.as_bytes()),
    }
}
