//! The windows in which the copies of a frame are gathered, so that each frame is decided once.
//!
//! A copy opens a window. The window takes the copies of the same bytes that come within 200 ms;
//! then it is due. Times are in milliseconds.
#![tactic(auto)]

mod gatherings;
pub mod laws;
mod windows;

pub use windows::Windows;

/// How long a window waits for more copies of its frame before it is due, in milliseconds.
pub const WAIT: u64 = 200;

/// The most windows that are open at a time.
pub const MOST_WINDOWS: usize = 1024;
