// The caller's code that a life calls: before each call of a worker, and when the life has begun.

/// Passed by each worker before each of its calls of the sessions, so that a test can hold a worker
/// there.
pub trait Gate {
    /// A worker is about to make a call. Workers are numbered from 1 in the order in which their
    /// links were accepted, and the calls of each from 1.
    fn pass(&self, worker: usize, call: u64);
}

/// The server's own gate, which lets everyone pass at once.
#[derive(Clone, Copy)]
pub struct OpenGate;

impl Gate for OpenGate {
    fn pass(&self, _worker: usize, _call: u64) {}
}

/// What is called when a life has begun.
pub trait OnBegun {
    /// Every thread of the life runs. It is called at most once, by the thread that began the life,
    /// before anything is committed.
    fn begun(&mut self);
}

/// Does nothing when a life has begun.
#[derive(Clone, Copy)]
pub struct NobodyTold;

impl OnBegun for NobodyTold {
    fn begun(&mut self) {}
}
