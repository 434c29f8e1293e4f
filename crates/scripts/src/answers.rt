// Answers as lines.
use gateway_wire::{Emission, list_text};
use lw_types::{ByteField, Refusal};
use session_core::Turn;
use sessions::Table;
use std::alloc::Global;
use std::io;
use std::io::Write;
use world::{Answer, EventTurn};

/// Writes the line of an answer, or the lines of a list. Refused if there is no memory for a list.
pub fn write_answer<W: Write>(alloc: Global, out: &mut W, answer: &Answer) -> io::Result<()> {
    match answer {
        Answer::Turn { turn, .. } => write_turn(out, turn),
        Answer::Turns { turns, .. } => write_turns(out, turns),
        Answer::Taken(count) => writeln!(out, "taken {count}"),
        Answer::GivenUp(_) => write_refusal(out, Refusal::OutOfMemory),
        Answer::Full => writeln!(out, "full"),
        Answer::Begun(_) => writeln!(out, "begun"),
        Answer::Idle => writeln!(out, "idle"),
        Answer::Called => writeln!(out, "called"),
        Answer::Armed => writeln!(out, "armed"),
        Answer::Released(count) => writeln!(out, "released {count}"),
        Answer::Emitted(emission) => write_emission(out, emission),
        Answer::Opened { devices, seq } => writeln!(out, "opened {devices} {seq}"),
        Answer::Listed { table, seq } => write_list(alloc, out, table, *seq),
        Answer::Refused(refusal) => write_refusal(out, *refusal),
    }
}

/// Writes the line of a refusal.
pub(crate) fn write_refusal<W: Write>(out: &mut W, refusal: Refusal) -> io::Result<()> {
    let number = refusal.number();
    writeln!(out, "refused {number}")
}

fn write_turn<W: Write>(out: &mut W, turn: &Turn) -> io::Result<()> {
    let Turn { from, to, refused } = *turn;
    match refused {
        None => writeln!(out, "turn {from} {to}"),
        Some(refusal) => {
            let number = refusal.number();
            writeln!(out, "turn {from} {to} refused {number}")
        }
    }
}

fn write_turns<W: Write>(out: &mut W, turns: &[EventTurn]) -> io::Result<()> {
    for it in turns {
        write_turn(out, &it.turn)?;
    }
    Ok(())
}

fn write_emission<W: Write>(out: &mut W, emission: &Emission) -> io::Result<()> {
    match emission {
        Emission::Gateway { gateway, frame } => {
            let hex = ByteField(frame.as_slice());
            writeln!(out, "gw {gateway} {hex}")
        }
        Emission::Application { application, line } => {
            let (number, text) = (application.get(), line.as_str());
            writeln!(out, "app {number} {text}")
        }
    }
}

fn write_list<W: Write>(alloc: Global, out: &mut W, table: &Table, seq: u64) -> io::Result<()> {
    match list_text(alloc, table.devices(), seq) {
        Ok(text) => out.write_all(text.as_bytes()),
        Err(refusal) => write_refusal(out, refusal),
    }
}
