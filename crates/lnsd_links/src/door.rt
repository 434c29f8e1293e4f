// Where the links of a life come from.
use std::io;
use std::net::{Shutdown, SocketAddr, TcpListener, TcpStream};
use std::os::fd::OwnedFd;
use std::sync::{Mutex, Wait};

/// Where the links of a life come from.
#[derive(Drop)]
pub enum Entrance {
    /// Each place has its link before the life begins, and no other comes.
    Filled(Vec<Mutex<Option<TcpStream>>>),
    /// Links come in during the life.
    Open(Door),
}

impl Entrance {
    /// The next link of a place; `None` if there is no other, or if accepting fails.
    pub fn next<R: Wait>(&self, rt: &R, place: usize) -> Option<TcpStream> {
        match self {
            Entrance::Filled(streams) => streams.get(place)?.lock(rt).take(),
            Entrance::Open(door) => door.accept().ok(),
        }
    }

    /// Whether other links may come.
    pub fn is_open(&self) -> bool {
        self.door().is_some()
    }

    /// The listener through which links come.
    pub fn door(&self) -> Option<&Door> {
        match self {
            Entrance::Filled(_) => None,
            Entrance::Open(door) => Some(door),
        }
    }
}

/// A listener that can be shut while threads wait at it.
#[derive(Drop)]
pub struct Door {
    listener: TcpListener,
    // A second handle of the listener. Shutting it down wakes the threads that are blocked in
    // accept(), and Linux then refuses new connections.
    latch: TcpStream,
    address: SocketAddr,
}

impl Door {
    pub fn new(listener: TcpListener) -> io::Result<Self> {
        let address = listener.local_addr()?;
        let latch = TcpStream::from(OwnedFd::from(listener.try_clone()?));
        Ok(Door {
            listener,
            latch,
            address,
        })
    }

    /// The address that links connect to.
    pub fn address(&self) -> SocketAddr {
        self.address
    }

    /// Waits for a link. Fails at once if the door is shut.
    pub fn accept(&self) -> io::Result<TcpStream> {
        let (stream, _) = self.listener.accept()?;
        Ok(stream)
    }

    /// Accepts no more links.
    pub fn shut(&self) {
        let _ = self.latch.shutdown(Shutdown::Both);
    }
}
