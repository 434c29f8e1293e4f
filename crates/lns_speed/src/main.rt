//! `lns-speed` measures on one processor how long it takes to decide a command and to put its
//! record into the table, in tables of 8 to 4,096 devices. It also measures how many decisions a
//! second become durable on a file with real syncs, each batch alone and in chains. With the word
//! `chains` it measures only that, with the word `cryptography` the speed of the cryptography of
//! frames. The results go to standard error, since they are never the same twice; standard output
//! stays empty. The status is 2 for other words, and 1 if a write failed.
#![tactic(auto)]

mod chains;
mod counted;
mod cryptography;
mod decided;
mod network;
mod senders;
mod server;
mod timing;
mod told;

use decided::Workload;
use std::alloc::Global;
use std::fs::File;
use std::process::ExitCode;
use std::rt::{Clock, Env, Files};
use std::{env, io};
use told::tell;

/// The numbers of slots of a small table, of the largest one, and of one between them.
const SLOTS: [u16; 3] = [8, 512, MOST];

/// The number of slots of the largest table.
const MOST: u16 = 4096;

/// The events of one device that are decided, and whose records are put into the table, with the
/// texts that are printed for them.
const MEASURED: [(&str, Workload); 3] = [
    ("a join decided", Workload::Join),
    ("an uplink decided", decided::UPLINK),
    ("an uplink that is answered decided", decided::ANSWERED),
];

/// Prints how much longer something takes with the most devices than with few, if both were
/// measured.
fn tell_ratio(rt: &impl Eprint, name: &str, few: u32, most: u32) -> io::Result<()> {
    let [fewest, ..] = SLOTS;
    match (u64::from(most) * 100).checked_div(u64::from(few)) {
        Some(ratio) if most > 0 => {
            let (times, hundredths) = (ratio / 100, ratio % 100);
            eprintln!(rt;
                "{name}: {MOST} devices take {times}.{hundredths:02} times as long as {fewest}"
            )
        }
        _ => Ok(()),
    }
}

/// Prints how long something takes in each table.
fn compare(
    rt: &(impl Clock + Eprint),
    alloc: Global,
    name: &str,
    workload: Workload,
) -> io::Result<()> {
    let mut few = None;
    let mut most = 0;
    for slots in SLOTS {
        let nanos = decided::measure(rt, alloc, workload, slots);
        tell(rt, name, slots, nanos)?;
        most = nanos.unwrap_or(0);
        few = few.or(Some(most));
    }
    tell_ratio(rt, name, few.unwrap_or(0), most)
}

/// What the words of a run ask for.
enum Asked {
    Server,
    Chains,
    Cryptography,
    Unknown,
}

fn read_words<R: Env + AllocGlobal>(rt: &R) -> io::Result<Asked> {
    let mut words = env::args(rt)?.skip(1);
    let first = words.next();
    Ok(match first.as_ref().map(|word| word.as_str()) {
        _ if words.next().is_some() => Asked::Unknown,
        None => Asked::Server,
        Some("chains") => Asked::Chains,
        Some("cryptography") => Asked::Cryptography,
        Some(_) => Asked::Unknown,
    })
}

/// Measures and prints everything except the cryptography.
fn tell_server<R: Clock + Eprint + Files<File = File>>(rt: &R, alloc: Global) -> io::Result<()> {
    for (name, workload) in MEASURED {
        compare(rt, alloc, name, workload)?;
    }
    chains::tell_chains(rt, alloc)
}

fn main(rt: HostRuntime) -> io::Result<ExitCode> {
    match read_words(&rt)? {
        Asked::Server => tell_server(&rt, rt.alloc())?,
        Asked::Chains => chains::tell_chains(&rt, rt.alloc())?,
        Asked::Cryptography => cryptography::tell_cryptography(&rt)?,
        Asked::Unknown => {
            eprintln!(rt; "lns-speed: it takes no word, or one of chains and cryptography")?;
            return Ok(ExitCode::from(2));
        }
    }
    Ok(ExitCode::SUCCESS)
}
