// The result of serving.
ghost use Rattle.std.specs.Prelude.{◌≡◌};

use disk::Disk;
use lnsd_operator::ServeFault;
use std::os::unix::net::UnixStream;
use store::Store;

/// The result of a life whose inputs all ended. Only serving a life makes it.
#[derive(Drop)]
pub struct LifeReport {
    /// The number of effects that weren't sent: their gateway or application had no link, the
    /// link's ring was full, or the link was gone or took nothing any more. When a link fails, all
    /// effects of the current write (at most 64) count as dropped, even those that the peer did
    /// receive.
    pub dropped: u64,
    /// The links that were read no further because of what they sent.
    pub faulted: u64,
    /// The links that lost their name to a later link, if links come and go.
    pub taken_over: u64,
    /// The links that didn't greet in time, if links come and go.
    pub silent: u64,
    /// The decisions that were made.
    pub made: u64,
    pub(crate) shares: Vec<u64>,
}

impl LifeReport {
    /// How many of the decisions each worker made, in the order in which their links were accepted
    /// or of their places; the closer comes last.
    pub fn shares(&self) -> &[u64]
        ensures { result.now ≡ self.now.shares.items }
    {
        self.shares.as_slice()
    }
}

/// The store as the life left it, and the life's result.
#[derive(Drop)]
pub struct ServedLife<D: Disk> {
    pub store: Store<D>,
    pub result: Result<LifeReport, ServeFault>,
    /// The operators who asked the life to end over its control socket, and wait until it has.
    pub waiting: Vec<UnixStream>,
}
