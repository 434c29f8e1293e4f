//! `calls_without_memory` makes each public call that no script of `lns-sim` makes, or makes at its
//! largest size, and prints for each whether its answer was right. A call that is refused because
//! memory ran out is made again, and has to find everything as it was before. If there is no memory
//! for the inputs of the calls, `refused 30` is the only line. `tools/sim-memory` runs it with each
//! of its requests for memory refused in turn. The status is 1 if a write failed.
#![tactic(auto)]

mod attempt;
mod codecs;
mod decisions;
mod feeding;
mod restoring;
mod stores;

use attempt::Attempt;
use lw_types::Refusal;
use std::alloc::Global;
use std::io;
use std::process::ExitCode;

// A line for each call, in the order of `told_of`.
const NAMES: [&str; 17] = [
    "a question of a join, granted,",
    "a question of a join, refused,",
    "the longest frame, written,",
    "the largest record, read,",
    "the largest change, read,",
    "a piece of a link, which ends in a frame,",
    "the piece after it,",
    "64 decisions, taken,",
    "a piece of a world's link",
    "a copy in the 1,024th window",
    "a store, made,",
    "a batch of 64 decisions, begun,",
    "a batch after one of 64, begun,",
    "a checkpoint of 64 records, begun,",
    "a store of 64 records, opened,",
    "a store of an older program, taken over,",
    "a store of a copy of 64 records, restored,",
];

// The outcome of each call. Refused if there was no memory for the inputs of the calls.
fn told_of(alloc: Global) -> Result<[Attempt; 17], Refusal> {
    let [piece, rest] = feeding::pieces(alloc)?;
    let [checkpoint, opening] = stores::checkpoint_and_opening(alloc)?;
    Ok([
        codecs::granted(alloc),
        codecs::refused(alloc),
        codecs::written(alloc)?,
        codecs::record(alloc)?,
        codecs::change(alloc)?,
        piece,
        rest,
        decisions::taken(alloc)?,
        decisions::of_piece(alloc)?,
        decisions::of_last_window(alloc)?,
        stores::made(alloc)?,
        stores::begun(alloc)?,
        stores::begun_next(alloc)?,
        checkpoint,
        opening,
        restoring::taken_over(alloc)?,
        restoring::restored(alloc)?,
    ])
}

// Writes the lines.
fn tell(rt: &impl Print, told: &[Attempt; 17]) -> io::Result<()> {
    for (name, told) in NAMES.iter().zip(told) {
        let words = told.words();
        println!(rt; "{name} {words}")?;
    }
    Ok(())
}

fn main(rt: HostRuntime) -> ExitCode {
    let written = match told_of(rt.alloc()) {
        Ok(told) => tell(&rt, &told),
        Err(refusal) => {
            let number = refusal.number();
            println!(rt; "refused {number}")
        }
    };
    match written {
        Ok(()) => ExitCode::SUCCESS,
        Err(_) => ExitCode::FAILURE,
    }
}
