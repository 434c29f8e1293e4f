// The places of a life, and the links in them.
ghost use Rattle.std.specs.Prelude.{◌≡◌, ℕ, length, IfErr, IfOk, IfSome, MatchResult, Some};
ghost use Rattle.std.specs.Prelude.{slice_get};
ghost use Rattle.lw_types.specs.declared.refusal.Refusal.TheVariants.{OutOfMemory};
ghost use Rattle.lnsd_operator.specs.Faults.{IsOfLinks};

use crate::names::{HeldName, LeftName};
use crate::writing::Spare;
use lnsd_operator::ServeFault;
use lw_types::{Ranged, Refusal};
use session_core::Moment;
use std::alloc::Global;
use std::net::{Shutdown, TcpListener, TcpStream};
use std::sync::atomic::Ordering::SeqCst;
use std::sync::atomic::{AtomicBool, AtomicU64};
use std::sync::{Mutex, Wait};
use std::thread::Parker;
use std::time::Duration;

/// The number of links of a life whose links stay: at most 64 gateways and 16 applications.
pub type LinkCount = Ranged<1, MOST_LINKS>;

pub const MOST_LINKS: u64 = 80;

/// The number of links that a life whose links come and go has at a time: all that have names, and
/// some that haven't greeted yet.
pub type PlaceCount = Ranged<1, MOST_PLACES>;

pub const MOST_PLACES: u64 = 96;

// The number of failed accepts in a row after which the listener is given up.
const ATTEMPTS: u32 = 1000;

// How long one write waits for room, in seconds. After that the sender checks whether to go on.
const WRITE_WAIT: u64 = 1;

/// A place for links, and the bell of their senders. The bell rings when there is something to send
/// or nothing more will come.
#[derive(Drop)]
pub struct Link {
    // From 0.
    place: usize,
    // The current link, so that others can close it.
    current: Mutex<Option<TcpStream>>,
    pub bell: Parker,
    // Wakes the worker of this place while it waits before it hands in copies.
    pub pause: Parker,
    // What the senders of this place use in turn; `None` while a sender has it.
    pub spare: Mutex<Option<Spare>>,
    // The current link has ended: nothing more comes for it.
    over: AtomicBool,
    // The current link lost its name, to a later link or since the name isn't listed any more, and
    // was closed.
    disconnected: AtomicBool,
    // One more than the moment of the last copy on the current link; 0 before the first.
    last_copy: AtomicU64,
}

/// Shows that the link in a place was closed, since it lost its name. Only [`Link::disconnect`]
/// makes it.
#[derive(Clone, Copy)]
pub struct ClosedLink {
    place: usize,
}

/// Shows that the link in a place had its name when that was looked at. Only [`Link::named`] makes
/// it.
#[derive(Clone, Copy)]
pub struct Named {
    place: usize,
}

/// A name that was left, and the place of its link, for which nothing more comes. Only
/// [`Link::set_over`] makes it.
#[derive(Clone, Copy)]
pub struct LeftLink {
    held: HeldName,
    place: usize,
}

impl Link {
    /// A place without a link.
    fn new(place: usize) -> Self
        ensures { result.place ≡ place }
    {
        Link {
            place,
            current: Mutex::new(None),
            bell: Parker::new(),
            pause: Parker::new(),
            spare: Mutex::new(None),
            over: AtomicBool::new(false),
            disconnected: AtomicBool::new(false),
            last_copy: AtomicU64::new(0),
        }
    }

    /// The number of the place, from 0.
    pub fn place(&self) -> usize
        ensures { result ≡ self.now.place }
    {
        self.place
    }

    /// Notes that a copy of a frame came on the current link.
    pub fn set_last_copy(&self, moment: Moment) {
        self.last_copy.store(moment.get().saturating_add(1), SeqCst);
    }

    /// The moment of the last copy that came on the current link.
    pub fn last_copy(&self) -> Option<u64> {
        self.last_copy.load(SeqCst).checked_sub(1)
    }

    /// Ends each read and write of the current link, also those that wait.
    pub fn close<R: Wait>(&self, rt: &R) {
        self.shut(rt, Shutdown::Both);
        self.bell.unpark();
        self.pause.unpark();
    }

    /// Ends the input of the current link, after what has come.
    pub fn close_input<R: Wait>(&self, rt: &R) {
        self.shut(rt, Shutdown::Read);
        self.pause.unpark();
    }

    fn shut<R: Wait>(&self, rt: &R, how: Shutdown) {
        if let Some(stream) = &*self.current.lock(rt) {
            let _ = stream.shutdown(how);
        }
    }

    /// Closes the current link, which loses its name.
    pub(crate) fn disconnect<R: Wait>(&self, rt: &R) -> ClosedLink
        ensures { result.place ≡ self.now.place }
    {
        self.disconnected.store(true, SeqCst);
        self.close(rt);
        ClosedLink { place: self.place }
    }

    /// Whether the current link lost its name.
    pub fn is_disconnected(&self) -> bool {
        self.disconnected.load(SeqCst)
    }

    /// Returns a `Named` if the current link still has its name.
    pub fn named(&self) -> Option<Named>
        ensures { IfSome result (λ named. named.place ≡ self.now.place) }
    {
        if self.is_disconnected() {
            None
        } else {
            Some(Named { place: self.place })
        }
    }

    /// Gives the place what its senders use.
    pub fn set_spare<R: Wait>(&self, rt: &R, spare: Spare)
        requires { spare.place ≡ self.now.place }
    {
        *self.spare.lock(rt) = Some(spare);
    }

    /// Registers the next link, so that others can close it.
    pub fn show<R: Wait>(&self, rt: &R, stream: TcpStream) {
        self.over.store(false, SeqCst);
        self.disconnected.store(false, SeqCst);
        self.last_copy.store(0, SeqCst);
        *self.current.lock(rt) = Some(stream);
    }

    /// Removes the current link.
    pub fn hide<R: Wait>(&self, rt: &R) {
        *self.current.lock(rt) = None;
    }

    /// Says that nothing more comes for the current link, which left its name: its sender writes
    /// what waits, and ends.
    pub fn set_over(&self, left: LeftName) -> LeftLink
        ensures { (result.held ≡ left.held) × (result.place ≡ self.now.place) }
    {
        self.over.store(true, SeqCst);
        self.bell.unpark();
        LeftLink {
            held: left.held(),
            place: self.place,
        }
    }

    /// Whether nothing more comes for the current link.
    pub fn is_over(&self) -> bool {
        self.over.load(SeqCst)
    }
}

/// Sets the socket so that data leaves at once, not together with later data. If the system refuses
/// an option, the link works without it.
pub fn set_options(stream: &TcpStream) {
    let _ = stream.set_nodelay(true);
    let _ = stream.set_write_timeout(Some(Duration::from_secs(WRITE_WAIT)));
}

/// Accepts this number of links and then closes the listener, so that later connections are refused
/// at once.
pub fn accept(
    alloc: Global,
    listener: TcpListener,
    count: LinkCount,
) -> Result<Vec<Mutex<Option<TcpStream>>>, ServeFault>
    ensures { MatchResult result (λ streams. length streams.items ≡ count) IsOfLinks }
{
    let mut streams = Vec::new(alloc);
    for _number in 0..count.get() {
        let stream = accept_one(&listener)?;
        if streams.push(Mutex::new(Some(stream))).is_err() {
            return Err(ServeFault::Refused(Refusal::OutOfMemory));
        }
    }
    Ok(streams)
}

// A connection that is gone before it is accepted counts as a failed accept, which is tried again.
fn accept_one(listener: &TcpListener) -> Result<TcpStream, ServeFault>
    ensures { IfErr result IsOfLinks }
{
    for _ in 0..ATTEMPTS {
        if let Ok((stream, _)) = listener.accept() {
            return Ok(stream);
        }
    }
    Err(ServeFault::Listen)
}

/// This number of places without links, in order. Refused with `OutOfMemory` if memory runs out.
pub fn empty_places(alloc: Global, count: u64) -> Result<Vec<Link>, Refusal>
    ensures count { MatchResult result (λ links. length links.items ≡ count)
        (λ e. e ≡ OutOfMemory) }
    ensures places { IfOk result (λ links. (place : ℕ) (link : Link)
        → slice_get links.items place ≡ Some link → link.place ≡ place) }
{
    let mut links = Vec::new(alloc);
    for place in 0..count as usize {
        links.push(Link::new(place))?;
    }
    Ok(links)
}
