// The number of durable decisions that an operator reads.
use crate::disks::HeldDisk;
use crate::gates::{HoldBoth, Marks};
use crate::lives::{live_beside, new_disk};
use crate::names_tests::TextNames;
use crate::talk::{answer, connect, order, say};
use lnsd_life::{NobodyTold, Order};
use lw_types::Refusal;
use std::alloc::Global;
use std::net::{Net, SocketAddr, TcpListener, TcpStream};
use std::os::unix::net;
use std::rt::{Clock, Files};
use std::sync::Wait;
use std::thread::Threads;
use store::open;

// How often a status is read before it is given up.
const TURNS: u32 = 10_000;

// Two applications, and the devices that each asks for.
const ONE: &str = "0002 0201 \
     0051 03 |provision 0000000000000001 0102030405060708 2B7E151628AED2A6ABF7158809CF4F3C 0 1|\
     0051 03 |provision 0000000000000002 0102030405060708 2B7E151628AED2A6ABF7158809CF4F3C 0 1|";

const OTHER: &str = "0002 0202 \
     0051 03 |provision 0000000000000003 0102030405060708 2B7E151628AED2A6ABF7158809CF4F3C 0 1|\
     0051 03 |provision 0000000000000004 0102030405060708 2B7E151628AED2A6ABF7158809CF4F3C 0 1|";

// Devices that there are already.
const ONE_AGAIN: &str =
    "0051 03 |provision 0000000000000002 0102030405060708 2B7E151628AED2A6ABF7158809CF4F3C 0 1|";

const OTHER_AGAIN: &str =
    "0051 03 |provision 0000000000000004 0102030405060708 2B7E151628AED2A6ABF7158809CF4F3C 0 1|";

// A status with this line, or the last one that is read.
fn status_with<R: Net>(
    rt: &R,
    alloc: Global,
    control: &net::SocketAddr,
    line: &str,
) -> Result<String, Refusal> {
    let mut status = String::new(alloc);
    for _ in 0..TURNS {
        status = answer(rt, alloc, control, Order::Status)?;
        if status.as_str().contains(line) {
            break;
        }
    }
    Ok(status)
}

// Four decisions are made while the first sync is held. Returns the status then, and the status
// after the sync has gone on.
fn clients<R: Net<Listener = TcpListener, Stream = TcpStream>>(
    rt: &R,
    alloc: Global,
    address: SocketAddr,
    control: &net::SocketAddr,
) -> Result<(String, String), Refusal> {
    let mut one = connect(rt, alloc, address, ONE)?;
    let mut other = connect(rt, alloc, address, OTHER)?;
    let held = status_with(rt, alloc, control, "made 4\n")?;
    say(alloc, &mut one, ONE_AGAIN)?;
    say(alloc, &mut other, OTHER_AGAIN)?;
    let then = status_with(rt, alloc, control, "durable 4\n")?;
    order(rt, control, Order::Stop)?;
    Ok((held, then))
}

// A life of two places whose disk holds a sync until two workers have come to their third calls.
fn live<R>(rt: &R, alloc: Global) -> Result<(String, String), Refusal>
where
    R: Net<Listener = TcpListener, Stream = TcpStream> + Files + Clock + Threads + Wait + Sync,
{
    let marks = Marks::new();
    let store = open(alloc, HeldDisk::new(new_disk(alloc)?, &marks))?;
    let gate = HoldBoth { marks: &marks };
    let (said, _) = live_beside(
        rt,
        alloc,
        store,
        2,
        None::<&TextNames>,
        &gate,
        &mut NobodyTold,
        |address, at| clients(rt, alloc, address, &at),
    )?;
    Ok(said)
}

#[test]
fn a_held_sync_is_not_durable(rt: HostRuntime) {
    let (held, then) = live(&rt, rt.alloc()).expect(&rt, "a life");
    assert!(rt; held.as_str().contains("made 4\n"), "{held}");
    assert!(rt; held.as_str().contains("durable 0\n"), "{held}");
    assert!(rt; then.as_str().contains("durable 4\n"), "{then}");
}
