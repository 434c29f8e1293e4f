// The control socket, over which operators talk to a life; it is beside the store's file.
ghost use Rattle.std.specs.Prelude.{◌≡◌, IfErr};
ghost use Rattle.lw_types.specs.declared.refusal.Refusal.TheVariants.{OutOfMemory};
ghost use Rattle.lnsd_operator.specs.Faults.{IsOfLinks};

use crate::LastUplinks;
use crate::fault::ServeFault;
use crate::watching::Watch;
use lw_types::Refusal;
use sessions::Slots;
use std::alloc::Global;
use std::io;
use std::net::Shutdown;
use std::os::fd::OwnedFd;
use std::os::unix::net::{UnixListener, UnixStream};
use std::sync::atomic::AtomicU64;
use std::sync::atomic::Ordering::SeqCst;
use std::sync::{Mutex, Wait};
use std::thread::Parker;

/// The most operators that are served at a time.
pub const ATTENDANTS: usize = 8;

/// The control socket of a life, and what operators can see besides its counts.
#[derive(Drop)]
pub struct ControlSocket {
    pub listener: UnixListener,
    // A second handle of the listener. Shutting it down wakes the thread that is blocked in
    // accept().
    latch: UnixStream,
    // For each attendant, the operator that it serves, so that others can close the connection.
    desks: Vec<Mutex<Option<UnixStream>>>,
    // The number of desks with an operator.
    busy: AtomicU64,
    // The operators who asked the life to end. They get an answer when it has ended.
    waiting: Mutex<Vec<UnixStream>>,
    // Never rung: a timer for the pause after a failed accept.
    pub pause: Parker,
    pub watch: Watch,
    pub last_uplinks: Mutex<LastUplinks>,
}

impl ControlSocket {
    /// The control socket of a life whose store has this number of slots.
    pub fn new(alloc: Global, listener: UnixListener, slots: Slots) -> Result<Self, ServeFault>
        ensures { IfErr result IsOfLinks }
    {
        let Ok(latch) = latch_of(&listener) else {
            return Err(ServeFault::Listen);
        };
        match ControlSocket::with_desks(alloc, listener, latch, slots) {
            Ok(control) => Ok(control),
            Err(refusal) => Err(ServeFault::Refused(refusal)),
        }
    }

    fn with_desks(
        alloc: Global,
        listener: UnixListener,
        latch: UnixStream,
        slots: Slots,
    ) -> Result<Self, Refusal>
        ensures { IfErr result (λ e. e ≡ OutOfMemory) }
    {
        let mut desks = Vec::new(alloc);
        for _number in 0..ATTENDANTS {
            desks.push(Mutex::new(None))?;
        }
        Ok(ControlSocket {
            listener,
            latch,
            desks,
            busy: AtomicU64::new(0),
            waiting: Mutex::new(Vec::new(alloc)),
            pause: Parker::new(),
            watch: Watch::new(alloc)?,
            last_uplinks: Mutex::new(LastUplinks::new(alloc, slots)?),
        })
    }

    /// Accepts no more operators, and ends the input of each, so that each attendant ends.
    pub fn close<R: Wait>(&self, rt: &R) {
        let _ = self.latch.shutdown(Shutdown::Both);
        for desk in &self.desks {
            if let Some(stream) = &*desk.lock(rt) {
                let _ = stream.shutdown(Shutdown::Read);
            }
        }
        self.pause.unpark();
        self.watch.ring();
    }

    /// The operators who asked the life to end.
    pub fn into_waiting(self) -> Vec<UnixStream> {
        self.waiting.into_inner()
    }

    /// Keeps an operator who asked the life to end, for the answer when it has ended.
    pub fn keep_waiting<R: Wait>(&self, rt: &R, stream: UnixStream) {
        let _ = self.waiting.lock(rt).push(stream);
    }

    /// Registers the operator that an attendant serves, until [`ControlSocket::hide`] is called.
    pub fn show<R: Wait>(&self, rt: &R, number: usize, stream: UnixStream) {
        self.busy.fetch_add(1, SeqCst);
        self.set_desk(rt, number, Some(stream));
    }

    /// The attendant serves nobody.
    pub fn hide<R: Wait>(&self, rt: &R, number: usize) {
        self.set_desk(rt, number, None);
        self.busy.fetch_sub(1, SeqCst);
    }

    fn set_desk<R: Wait>(&self, rt: &R, number: usize, stream: Option<UnixStream>) {
        if let Some(desk) = self.desks.get(number) {
            *desk.lock(rt) = stream;
        }
    }

    /// Whether each attendant serves an operator, so that others may wait.
    pub fn is_crowded(&self) -> bool {
        self.busy.load(SeqCst) >= ATTENDANTS as u64
    }
}

fn latch_of(listener: &UnixListener) -> io::Result<UnixStream> {
    Ok(UnixStream::from(OwnedFd::from(listener.try_clone()?)))
}
