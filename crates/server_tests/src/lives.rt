// Lives of a server over loopback.
use crate::wire::wire;
use disk::{Disk, MemDisk};
use lnsd_life::{
    Gate, LifeClock, LifeReport, LinkCount, Monotonic, NameSource, OnBegun, PlaceCount, ServeFault,
    ServedLife, serve_links, serve_on,
};
use lnsd_operator::DiskTimes;
use lw_types::{NetId, Refusal};
use sessions::Slots;
use std::alloc::Global;
use std::io;
use std::io::{Read, Write};
use std::net::{Net, Shutdown, SocketAddr, TcpListener, TcpStream};
use std::os::unix::net;
use std::os::unix::net::{SocketAddrExt, UnixListener};
use std::rt::{Clock, Files};
use std::sync::Wait;
use std::thread::{Threads, join};
use store::{Store, disk_len, format};

/// The number of slots of the stores.
pub const SLOTS: u64 = 8;

/// A disk in memory with a store of network 00002A without devices.
pub fn new_disk(alloc: Global) -> Result<MemDisk, Refusal> {
    let net_id = NetId::new(0x2A).ok_or(Refusal::Damaged)?;
    let len = disk_len(Slots::new(SLOTS).ok_or(Refusal::Damaged)?);
    let disk = MemDisk::new(alloc, vec![in alloc; 0; len as usize]?)?;
    Ok(format(alloc, disk, net_id, SLOTS)?.close())
}

pub fn new_store(alloc: Global) -> Result<Store<MemDisk>, Refusal> {
    store::open(alloc, new_disk(alloc)?)
}

pub fn of_socket<T>(res: io::Result<T>) -> Result<T, Refusal> {
    res.map_err(|_| Refusal::DeviceFailed)
}

/// A listener, and the clients that have connected to it, in order.
#[derive(Drop)]
pub struct Hall {
    listener: TcpListener,
    clients: Vec<TcpStream>,
}

/// Clients that have sent all this, one text each, and send nothing more if `ends` is true.
pub fn clients<R: Net<Listener = TcpListener, Stream = TcpStream>>(
    rt: &R,
    alloc: Global,
    said: &Vec<Vec<u8>>,
    ends: bool,
) -> Result<Hall, Refusal> {
    let listener = of_socket(TcpListener::bind(rt, "127.0.0.1:0"))?;
    let address = of_socket(listener.local_addr())?;
    let mut clients = Vec::new(alloc);
    for bytes in said {
        let mut client = of_socket(TcpStream::connect(rt, address))?;
        of_socket(client.write_all(bytes.as_slice()))?;
        if ends {
            of_socket(client.shutdown(Shutdown::Write))?;
        }
        clients.push(client)?;
    }
    Ok(Hall { listener, clients })
}

/// Serves these clients, and returns them.
pub fn serve<R: Threads + Wait + Sync, D: Disk + Drop, G: Gate + Sync, C: LifeClock + Sync>(
    rt: &R,
    alloc: Global,
    store: Store<D>,
    hall: Hall,
    gate: &G,
    clock: &C,
) -> (ServedLife<D>, Vec<TcpStream>) {
    let Hall { listener, clients } = hall;
    let count = LinkCount::new(clients.len() as u64).unwrap_or(LinkCount::new(1).unwrap());
    let served = serve_links(rt, alloc, store, listener, count, gate, clock);
    (served, clients)
}

/// Runs a life with this number of places over a store, and clients beside it. The clients get the
/// addresses of the life and of its control socket, and have to order the life to end. Returns what
/// the clients return, and the life's report.
pub fn live_beside<R, T, D, S, G, N, F>(
    rt: &R,
    alloc: Global,
    store: Store<D>,
    places: u64,
    names: Option<&S>,
    gate: &G,
    on_begun: &mut N,
    clients: F,
) -> Result<(T, LifeReport), Refusal>
where
    R: Net<Listener = TcpListener, Stream = TcpStream> + Files + Clock + Threads + Wait + Sync,
    T: Send + Drop,
    D: Disk + Drop + Send,
    S: NameSource + Sync,
    G: Gate + Sync,
    N: OnBegun + Send,
    F: FnOnce(SocketAddr, net::SocketAddr) -> Result<T, Refusal> + Send + Drop,
    requires { F.IsAlwaysCallable clients }
{
    let listener = of_socket(TcpListener::bind(rt, "127.0.0.1:0"))?;
    let address = of_socket(listener.local_addr())?;
    let name = format!(in alloc; "bozintar-life-{}", address.port())?;
    let at = of_socket(net::SocketAddr::from_abstract_name(name.as_bytes()))?;
    let control = of_socket(UnixListener::bind_addr(rt, &at))?;
    let clock = of_socket(Monotonic::start(rt))?;
    let count = PlaceCount::new(places).ok_or(Refusal::Damaged)?;
    let times = DiskTimes::new();
    let (served, said) = join(
        rt,
        || serve_on(
            rt, alloc, store, listener, control, count, names, gate, &clock, &times, on_begun,
        ),
        || -> Result<T, Refusal>
            requires { F.IsAlwaysCallable clients }
        { clients(address, at) },
    );
    drop(served.waiting);
    let report = served.result.map_err(|fault| refusal_of(fault))?;
    Ok((said?, report))
}

/// All that a client receives, up to the end of its link, however it ends.
pub fn heard(alloc: Global, client: &mut TcpStream) -> Result<Vec<u8>, Refusal> {
    let mut all = Vec::new(alloc);
    let mut buffer = [0; 256];
    for _ in 0..u64::MAX {
        match client.read(&mut buffer) {
            Ok(0) | Err(_) => return Ok(all),
            Ok(n) => all.extend_from_slice(buffer.get(..n).unwrap_or(&[]))?,
        }
    }
    Ok(all)
}

/// Whether each of these clients receives exactly what is wanted.
pub fn hears(alloc: Global, links: Vec<TcpStream>, wanted: &Vec<Vec<u8>>) -> Result<bool, Refusal> {
    let mut same = links.len() == wanted.len();
    for (link, wanted) in links.into_iter().zip(wanted) {
        let mut link = link;
        same = same && heard(alloc, &mut link)?.as_slice() == wanted.as_slice();
    }
    Ok(same)
}

/// The bytes of several texts, separated by semicolons.
pub fn wires(alloc: Global, texts: &str) -> Result<Vec<Vec<u8>>, Refusal> {
    let mut all = Vec::new(alloc);
    for text in texts.split(';') {
        all.push(wire(alloc, text)?)?;
    }
    Ok(all)
}

/// The refusal of a fault of serving. A listener's fault counts as a device failure.
pub fn refusal_of(fault: ServeFault) -> Refusal {
    match fault {
        ServeFault::Listen => Refusal::DeviceFailed,
        ServeFault::Refused(refusal) => refusal,
        ServeFault::Names(_) => Refusal::BadMessage,
    }
}
