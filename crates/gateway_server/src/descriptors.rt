// Whether the process may open the descriptors that serving needs.
ghost use Rattle.std.specs.Prelude.{◌≡◌, ◌+◌, ◌*◌, ◌<◌, ◌⊎◌, IfOk, MatchResult, length};

use crate::Fault;
use lnsd_life::PlaceCount;
use lw_types::Refusal;
use std::alloc::Global;
use std::io;
use std::io::ErrorKind;
use std::net::Net;
use std::os::unix::net::UnixStream;

// What a place takes: its link, and a second handle by which other threads close it.
const OF_A_PLACE: u64 = 2;

// Besides places: standard input, output and error; the store; two listeners and a second handle of
// each; two handles for each of eight operators; and eight for operators that wait for the end.
const OF_THE_SERVER: u64 = 32;

// How many of these are open when the process begins: standard input, output and error.
const STANDARD: u64 = 3;

/// Opens, at once, as many descriptors as a server with N places needs besides the standard ones,
/// so that a server that has begun never runs out of them. Dropping them closes them. If the system
/// gives fewer, refuses with the whole number, 2 * N + 32.
pub(crate) fn hold_descriptors<R: Net>(
    rt: &R,
    alloc: Global,
    places: PlaceCount,
) -> Result<Vec<UnixStream>, Fault>
    ensures { MatchResult result (λ held. length held.items + 3 ≡ 2 * places + 32)
        (λ fault. (fault ≡ Fault.Descriptors (2 * places + 32))
        ⊎ (fault ≡ Fault.Refused Refusal.OutOfMemory)) }
{
    let needed = places.get() * OF_A_PLACE + OF_THE_SERVER;
    match open_all(rt, alloc, needed - STANDARD) {
        Ok(held) => Ok(held),
        Err(error) if error.kind() == ErrorKind::OutOfMemory => {
            Err(Fault::Refused(Refusal::OutOfMemory))
        }
        Err(_) => Err(Fault::Descriptors(needed)),
    }
}

// This number of descriptors, all open at once.
fn open_all<R: Net>(rt: &R, alloc: Global, count: u64) -> io::Result<Vec<UnixStream>>
    requires { 0 < count }
    ensures { IfOk result (λ held. length held.items ≡ count) }
{
    let (first, _) = UnixStream::pair(rt)?;
    let mut held = Vec::new(alloc);
    for _number in 0..count - 1 {
        held.push(first.try_clone()?)?;
    }
    held.push(first)?;
    Ok(held)
}
