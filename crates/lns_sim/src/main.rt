//! `lns-sim` reads a script of steps from its input, plays it on a network server whose store is on
//! a disk in memory, and writes the answers, line by line. It ends with status 0, or with 1 if a
//! read or a write failed.
#![tactic(auto)]

use scripts::script;
use std::process::ExitCode;

fn main(rt: HostRuntime) -> ExitCode {
    match script(rt.alloc(), &mut rt.stdin(), &mut rt.stdout()) {
        Ok(()) => ExitCode::SUCCESS,
        Err(_) => ExitCode::FAILURE,
    }
}
