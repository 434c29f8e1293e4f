// How many decisions become durable on a file with real syncs, in chains of commits and without.
use crate::counted::Counted;
use crate::senders::Senders;
use crate::server::{BATCH, Server, len_of};
use crate::timing::{Unmeasured, clock_nanos, nanos_since};
use disk::{Disk, FileDisk};
use flusher::ChainLength;
use lw_types::Refusal;
use std::alloc::Global;
use std::cell::Cell;
use std::fs::File;
use std::rt::{Clock, Files};
use std::{fs, io};

/// The file, in the folder in which the program runs.
const PATH: &str = "lns-speed.disk";

/// The devices that send.
const SENDING: u16 = 64;

/// The number of batches that are decided before they are made durable.
const BATCHES: u16 = 64;

/// How often that is done. The journal has room for all of it.
const ROUNDS: u32 = 6;

/// The greatest number of batches of a chain, with the text that is printed for it.
const CHAINS: [(&str, u64); 2] = [("each batch alone", 1), ("in chains of 64", 64)];

/// Prints how many decisions a second become durable on a file, in batches of 64, and how many
/// calls of the disk a run of 64 batches takes: each batch alone, and in chains.
pub fn tell_chains<R: Clock + Eprint + Files<File = File>>(
    rt: &R,
    alloc: Global,
) -> io::Result<()> {
    for (name, most) in CHAINS {
        let measured = measure(rt, alloc, most);
        let _ = fs::remove_file(rt, PATH);
        match measured {
            Ok((a_second, calls)) => eprintln!(rt;
                "durable on a file, {name}: {a_second} decisions a second, {calls} calls a run"
            )?,
            Err(why) => eprintln!(rt; "durable on a file, {name}: {why}")?,
        }
    }
    Ok(())
}

// The decisions a second, and the calls of the disk in a round.
fn measure<R: Clock + Files<File = File>>(
    rt: &R,
    alloc: Global,
    most: u64,
) -> Result<(u128, u64), Unmeasured> {
    let length = ChainLength::new(most).ok_or(Refusal::Damaged)?;
    let Ok(disk) = FileDisk::create(rt, PATH, len_of(SENDING)?) else {
        return Err(Unmeasured::Refused(Refusal::DeviceFailed));
    };
    let calls = Cell::new(0);
    let mut server = Server::on(alloc, Counted::new(disk, &calls), SENDING)?;
    server.join_all(SENDING)?;
    let mut senders = Senders::new(SENDING);
    let mut spent: u128 = 0;
    let mut least = u64::MAX;
    for _ in 0..ROUNDS {
        decide_all(&mut server, &mut senders)?;
        let before = calls.get();
        let start = clock_nanos(rt);
        commit_all(&mut server, length)?;
        spent = spent.saturating_add(nanos_since(rt, start)?);
        least = least.min(calls.get().saturating_sub(before));
    }
    let decisions = u128::from(ROUNDS) * u128::from(BATCHES) * u128::from(BATCH) * 1_000_000_000;
    match decisions.checked_div(spent) {
        Some(a_second) => Ok((a_second, least)),
        None => Err(Unmeasured::OddClock),
    }
}

// Decides as many uplinks as the batches have.
fn decide_all<D: Disk + Drop>(
    server: &mut Server<D>,
    senders: &mut Senders,
) -> Result<(), Refusal> {
    for _ in 0..BATCHES {
        let copies = senders.copies(server.alloc, BATCH)?;
        server.decide(copies)?;
    }
    Ok(())
}

// Commits what was decided, until nothing is left.
fn commit_all<D: Disk + Drop>(server: &mut Server<D>, length: ChainLength) -> Result<(), Refusal> {
    for _ in 0..=BATCHES {
        if server.commit_chain(length)? == 0 {
            return Ok(());
        }
    }
    Ok(())
}
