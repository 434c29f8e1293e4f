// What the threads of a life count. Its report and its status print the numbers.
use std::sync::atomic::AtomicU64;
use std::sync::atomic::Ordering::SeqCst;

/// A number that several threads count.
#[derive(Drop)]
pub struct Count(AtomicU64);

impl Count {
    fn zero() -> Self {
        Count(AtomicU64::new(0))
    }

    pub fn add(&self, more: u64) {
        self.0.fetch_add(more, SeqCst);
    }

    pub fn get(&self) -> u64 {
        self.0.load(SeqCst)
    }
}

/// A number that only grows, which one thread sets and others read.
#[derive(Drop)]
pub struct Highest(AtomicU64);

impl Highest {
    fn zero() -> Self {
        Highest(AtomicU64::new(0))
    }

    /// Sets the number, unless it is higher already.
    pub fn raise(&self, number: u64) {
        self.0.fetch_max(number, SeqCst);
    }

    pub fn get(&self) -> u64 {
        self.0.load(SeqCst)
    }
}

/// What is counted since a life began.
#[derive(Drop)]
pub struct Counts {
    /// Links that were read no further because of what they sent.
    pub faulted: Count,
    /// Effects that found no link or no room.
    pub dropped: Count,
    /// Links that lost their name to a later link.
    pub taken_over: Count,
    /// Links that didn't greet in time.
    pub silent: Count,
    /// Links that greeted with a name that isn't listed.
    pub unlisted: Count,
    /// How often a worker waited before it handed in copies.
    pub slowed: Count,
    /// How often decisions became durable.
    pub commits: Count,
    /// The number of a decision that is durable, and so are all before it.
    pub durable: Highest,
}

impl Counts {
    /// Nothing is counted yet.
    pub fn new() -> Self {
        Counts {
            faulted: Count::zero(),
            dropped: Count::zero(),
            taken_over: Count::zero(),
            silent: Count::zero(),
            unlisted: Count::zero(),
            slowed: Count::zero(),
            commits: Count::zero(),
            durable: Highest::zero(),
        }
    }
}
