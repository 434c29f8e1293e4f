// Links that come and go during a server's life.
use crate::lives::{live_beside, new_store, of_socket};
use crate::names_tests::TextNames;
use crate::talk::{answer, connect, ends, hears, order, say, starts};
use lnsd_life::{NO_NAMES, OnBegun, OpenGate, Order, WATCHING};
use lw_types::Refusal;
use std::alloc::Global;
use std::io::Read;
use std::net::{Net, Shutdown, SocketAddr, TcpListener, TcpStream};
use std::os::unix::net;
use std::os::unix::net::UnixStream;
use std::rt::{Clock, Files};
use std::sync::Wait;
use std::thread::Threads;

// A gateway, an application, and what they send and receive. The frames were made by a device and a
// network of another implementation (python/bozintar).
const GATEWAY: &str = "0009 00 00000000000000B1";

const APPLICATION: &str = "0002 0203";

const PROVISION: &str = "0051 03 |provision 1112131415161718 0102030405060708 \
     2B7E151628AED2A6ABF7158809CF4F3C 0 1|";

const PROVISIONED: &str = "001F 13 |provisioned 1112131415161718 0|";

const JOIN: &str = "002D 01 00000000000000B1 33BE27A0 05 FFEC FFA1 0000C350 \
     000807060504030201181716151413121101009E7419CE";

const ACCEPT: &str = "0035 11 00000000000000B1 0000C350 33BE27A0 05 05 06 \
     20 964FABE971240AB8E37F72AEFDC360B6FD3C4BE3FB883149AF03F6CC89235E53";

const UPLINK: &str = "0025 01 00000000000000B1 33BE27A0 05 FFEC FFA1 0000C350 \
     4001000054000000073AE48AC412E3";

const UP: &str = "0046 13 |up 1112131415161718 1 0 7 04D2 1 00000000000000B1 868100000 5 -20 -95|";

const QUEUE: &str = "0022 03 |queue 1112131415161718 9 7 u 04D2|";

const QUEUED: &str = "001A 13 |queued 1112131415161718 9|";

// Whether the clients of a life received what they should, what operators were sent, and the link
// of the operator who asked the life to end.
#[derive(Drop)]
struct Said {
    same: bool,
    status: String,
    devices: String,
    reload: String,
    watcher: UnixStream,
    stop: UnixStream,
}

// A gateway's link is taken over by its next one. An application's link ends and comes again, with
// an uplink in between, and the join once more, which is refused. Then the life is asked to end.
fn clients<R: Net<Listener = TcpListener, Stream = TcpStream>>(
    rt: &R,
    alloc: Global,
    address: SocketAddr,
    control: &net::SocketAddr,
) -> Result<Said, Refusal> {
    let watcher = order(rt, control, Order::Watch)?;
    let mut same = starts(alloc, &watcher, WATCHING)?;
    let mut older = connect(rt, alloc, address, GATEWAY)?;
    let mut application = connect(rt, alloc, address, APPLICATION)?;
    say(alloc, &mut application, PROVISION)?;
    same = same && hears(alloc, &mut application, PROVISIONED)?;
    say(alloc, &mut older, JOIN)?;
    same = same && hears(alloc, &mut older, ACCEPT)?;
    let mut newer = connect(rt, alloc, address, GATEWAY)?;
    same = same && ends(&mut older);
    of_socket(application.shutdown(Shutdown::Write))?;
    same = same && ends(&mut application);
    say(alloc, &mut newer, UPLINK)?;
    say(alloc, &mut newer, JOIN)?;
    let mut application = connect(rt, alloc, address, APPLICATION)?;
    same = same && hears(alloc, &mut application, UP)?;
    say(alloc, &mut application, QUEUE)?;
    same = same && hears(alloc, &mut application, QUEUED)?;
    let status = answer(rt, alloc, control, Order::Status)?;
    let devices = answer(rt, alloc, control, Order::Devices)?;
    let reload = answer(rt, alloc, control, Order::Reload)?;
    Ok(Said {
        same,
        status,
        devices,
        reload,
        watcher,
        stop: order(rt, control, Order::Stop)?,
    })
}

// What operators are sent: the counts, the devices, and the events. The moments vary.
const STATUS: &[&str] = &[
    "places 4\n",
    "gateways 1\n",
    "applications 1\n",
    "devices 1\n",
    "slots 8\n",
    "made 4\n",
    "decided 4\n",
    "durable 4\n",
    "taken_over 1\n",
    "unlisted 0\n",
    "checkpoints 0\n",
    "syncs 0\n",
    "last_copy_00000000000000B1 ",
];

const DEVICES: &[&str] = &[
    "0 1112131415161718 1 1 0 0 1 1 ",
    " 00000000000000B1 -20 -95\n",
    "devices 1 seq 4\nnow ",
];

const WATCHED: &[&str] = &[
    "linked gateway 00000000000000B1\n",
    "linked application 3\n",
    "joined 1112131415161718 1 00000000000000B1\n",
    "taken_over gateway 00000000000000B1\n",
    "ended application 3\n",
    "refused 9 DevNonceUsed join 1112131415161718 1 00000000000000B1 868100000 5 -20 -95\n",
];

// The first of these that is missing in a text.
fn lacks<'a>(text: &str, wanted: &[&'a str]) -> Option<&'a str> {
    wanted.iter().copied().find(|it| !text.contains(*it))
}

// How often `on_begun` was called.
#[derive(Drop)]
struct Begun(u64);

impl OnBegun for Begun {
    fn begun(&mut self) {
        self.0 = self.0.saturating_add(1);
    }
}

// How often a life had begun, and the counts of its report.
type Counts = (u64, (u64, u64, u64, u64));

// The result of a life of four places: what was received wrongly, and its counts.
fn live<R>(rt: &R, alloc: Global) -> Result<(Option<&'static str>, Counts), Refusal>
where
    R: Net<Listener = TcpListener, Stream = TcpStream> + Files + Clock + Threads + Wait + Sync,
{
    let mut begun = Begun(0);
    let (said, report) = live_beside(
        rt,
        alloc,
        new_store(alloc)?,
        4,
        None::<&TextNames>,
        &OpenGate,
        &mut begun,
        |address, at| clients(rt, alloc, address, &at),
    )?;
    let counts = (
        report.dropped,
        report.faulted,
        report.taken_over,
        report.made,
    );
    Ok((wrong(alloc, said)?, (begun.0, counts)))
}

// The first thing that was received wrongly in a life, which is over.
fn wrong(alloc: Global, said: Said) -> Result<Option<&'static str>, Refusal> {
    let Said {
        same,
        status,
        devices,
        reload,
        watcher,
        ..
    } = said;
    if !same {
        return Ok(Some("a link"));
    }
    let mut watcher = watcher;
    let mut watched = String::new(alloc);
    of_socket(watcher.read_to_string(&mut watched))?;
    if reload.as_str().trim_end() != NO_NAMES.trim_end() {
        return Ok(Some("no names"));
    }
    Ok(
        lacks(status.as_str(), STATUS)
            .or(lacks(devices.as_str(), DEVICES))
            .or(lacks(watched.as_str(), WATCHED)),
    )
}

#[test]
fn links_come_again(rt: HostRuntime) {
    let lived = live(&rt, rt.alloc());
    assert!(rt; lived == Ok((None, (1, (0, 0, 1, 4)))), "{lived:?}");
}
