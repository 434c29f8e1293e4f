// A disk that fails.
ghost use Rattle.std.specs.Prelude.{◌≡◌, ◌<◌};

use crate::gates::StandingClock;
use crate::lives::{clients, heard, new_store, refusal_of, serve, wires};
use lnsd_life::OpenGate;
use lw_types::Refusal;
use std::alloc::Global;
use std::net::{Net, TcpListener, TcpStream};
use std::sync::Wait;
use std::thread::Threads;
use store::open;

// An application provisions a device, and a gateway hears it join.
const SAID: &str = "0002 0203 0051 03 |provision 1112131415161718 0102030405060708 \
     2B7E151628AED2A6ABF7158809CF4F3C 0 1|;\
     0009 00 00000000000000B1 002D 01 00000000000000B1 33BE27A0 05 FFEC FFA1 0000C350 \
     000807060504030201181716151413121101009E7419CE;";

// The nth call of a disk fails, and the links stay open until the life closes them. Returns how it
// ends, how many bytes the clients receive, and the number that the disk holds afterwards.
fn fail<R: Net<Listener = TcpListener, Stream = TcpStream> + Threads + Wait + Sync>(
    rt: &R,
    alloc: Global,
    n: u64,
) -> Result<(Option<Refusal>, usize, u64), Refusal>
    requires { 0 < n }
{
    let mut store = new_store(alloc)?;
    store.arm(n);
    let hall = clients(rt, alloc, &wires(alloc, SAID)?, false)?;
    let (served, links) = serve(rt, alloc, store, hall, &OpenGate, &StandingClock);
    let refused = served.result.err().map(|fault| refusal_of(fault));
    let mut count: usize = 0;
    for link in links {
        let mut link = link;
        count = count.saturating_add(heard(alloc, &mut link)?.len());
    }
    Ok((refused, count, open(alloc, served.store.close())?.seq()))
}

#[test]
fn a_disk_that_fails_closes_the_links(rt: HostRuntime) {
    for (n, seq) in [(1, 0), (2, 0), (3, 0), (4, 1)] {
        let ended = fail(&rt, rt.alloc(), n);
        assert!(rt; ended == Ok((Some(Refusal::DeviceFailed), 0, seq)), "{n}");
    }
}
