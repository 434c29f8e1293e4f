// Bytes of a link in two pieces, the first of which ends inside a frame.
use crate::attempt::Attempt;
use link_messages::{Fed, Feeder, Peer};
use lw_types::{Eui, Refusal, read_hex};
use std::alloc::Global;

// The greeting of a gateway, and a copy of a frame of 17 bytes up to its fourth byte.
const FIRST: &str =
    "00090000000000000000B100270100000000000000B133BE27A005FFECFFA10000C35040F17DBE";

const REST: &str = "4900020001954378762B11FF0D";

// Whether exactly this number of messages were said, and no fault follows them.
fn says(fed: &Fed, count: usize) -> bool {
    fed.messages.len() == count && fed.fault.is_none()
}

// Whether the feeder has heard the greeting of the gateway, or none yet.
fn knows(feeder: &Feeder, is_greeted: bool) -> bool {
    match feeder.peer() {
        Some(Peer::Gateway(eui)) => is_greeted && eui == Eui(0xB1),
        Some(_) => false,
        None => !is_greeted,
    }
}

fn is_fed(feeder: &mut Feeder, piece: &[u8], count: usize) -> Result<bool, Refusal> {
    Ok(says(&feeder.feed(piece)?, count))
}

// Feeds a piece that says one message.
fn fed(feeder: &mut Feeder, piece: &[u8], is_greeted: bool) -> Attempt {
    match is_fed(feeder, piece, 1) {
        Ok(is_due) => Attempt::at_once(is_due),
        Err(_) => {
            let is_as_before = knows(feeder, is_greeted);
            Attempt::again(is_as_before, &is_fed(feeder, piece, 1))
        }
    }
}

/// The first piece is fed, and then the next one.
pub fn pieces(alloc: Global) -> Result<[Attempt; 2], Refusal> {
    let (first, rest) = (read_hex(alloc, FIRST)?, read_hex(alloc, REST)?);
    let mut feeder = Feeder::new(alloc);
    let greeted = fed(&mut feeder, &first, false);
    let copied = fed(&mut feeder, &rest, true);
    Ok([greeted, copied])
}
