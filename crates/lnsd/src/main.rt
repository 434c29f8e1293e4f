//! `lnsd`: a LoRaWAN network server. It makes the store of a network in a file, lists its devices,
//! and serves gateways and applications over TCP.
#![tactic(auto)]

#[cfg(test)]
mod fault_words_tests;
#[cfg(test)]
mod words_tests;

use gateway_server::{Fault, ServerCommands, command, fail};
use lw_types::Refusal;
use std::alloc::{AllocError, Global};
use std::env;
use std::io::ErrorKind;
use std::process::ExitCode;
use std::rt::Env;

fn main(rt: HostRuntime) -> ExitCode {
    let alloc = rt.alloc();
    let (mut out, mut err) = (rt.stdout(), rt.stderr());
    let status = match arguments(&rt, alloc) {
        Ok(all) => match texts_of(alloc, all.as_slice()) {
            Ok(texts) => command(
                &rt,
                &mut ServerCommands,
                alloc,
                texts.as_slice(),
                &mut out,
                &mut err,
            ),
            Err(AllocError) => fail(&mut err, &Fault::Refused(Refusal::OutOfMemory)),
        },
        Err(AllocError) => fail(&mut err, &Fault::Refused(Refusal::OutOfMemory)),
    };
    ExitCode::from(status)
}

// The words after the program's name; no words at all if one of them isn't UTF-8.
fn arguments<R: Env + AllocGlobal>(rt: &R, alloc: Global) -> Result<Vec<String>, AllocError> {
    match env::args(rt) {
        Ok(all) => all.skip(1).collect(alloc),
        Err(error) if error.kind() == ErrorKind::OutOfMemory => Err(AllocError),
        Err(_) => Ok(Vec::new(alloc)),
    }
}

fn texts_of<'a>(alloc: Global, all: &'a [String]) -> Result<Vec<&'a str>, AllocError> {
    all.iter().map(|word| word.as_str()).collect(alloc)
}
