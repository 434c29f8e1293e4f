// Answers, in the form in which rows of tests give them.
use devices::Device;
use lw_types::Refusal;
use session_core::Turn;
use std::io::{self, Write};
use world::{Answer, Event, EventTurn};

// The letter of an event of a piece: `h` for a copy, `a` for a command, in capitals if it is
// refused.
fn letter_of(turn: &EventTurn) -> char {
    match (&turn.event, turn.turn.refused) {
        (Event::Hear(_), None) => 'h',
        (Event::Hear(_), Some(_)) => 'H',
        (Event::Ask(_), None) => 'a',
        (Event::Ask(_), Some(_)) => 'A',
        (Event::Tick, _) => 't',
    }
}

// The number of a refusal, or 0.
fn number_of(refused: Option<Refusal>) -> u8 {
    match refused {
        Some(refusal) => refusal.number(),
        None => 0,
    }
}

fn tell_turns(out: &mut Vec<u8>, turns: &[EventTurn], fault: u8) -> io::Result<()> {
    write!(out, "turns {fault}")?;
    for turn in turns {
        let letter = letter_of(turn);
        write!(out, " {letter}")?;
    }
    writeln!(out)
}

fn tell_list(out: &mut Vec<u8>, devices: &[Device], seq: u64) -> io::Result<()> {
    match devices {
        [] => writeln!(out, "listed nobody {seq}"),
        [device, ..] => match device.last_dev_nonce {
            Some(dev_nonce) => writeln!(out, "listed {dev_nonce} {seq}"),
            None => writeln!(out, "listed - {seq}"),
        },
    }
}

/// Appends the line that rows give for an answer: `idle`; a turn's decisions before and after it,
/// the number of its refusal or 0, and the number of windows that were closed; the number of the
/// fault after a piece, or 0, and a letter for each of its events; the number of devices of an
/// opened store, and its number; or the last DevNonce that was seen of the device at slot 0, and
/// the number.
pub(crate) fn tell(out: &mut Vec<u8>, answer: &Answer) -> io::Result<()> {
    match answer {
        Answer::Idle => writeln!(out, "idle"),
        Answer::Turn { turn, closings } => {
            let Turn { from, to, refused } = *turn;
            let number = number_of(refused);
            writeln!(out, "turn {from} {to} {number} {closings}")
        }
        Answer::Turns { turns, fault } => tell_turns(out, turns, number_of(*fault)),
        Answer::Opened { devices, seq } => writeln!(out, "opened {devices} {seq}"),
        Answer::Listed { table, seq } => tell_list(out, table.devices(), *seq),
        _ => writeln!(out, "another answer"),
    }
}
