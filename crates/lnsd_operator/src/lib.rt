//! What operators see of a life and ask of it: events, how each device was last heard, counts, the
//! times of the disk, and the socket over which they come. No decision depends on it.
#![tactic(auto)]

mod control;
mod counts;
mod disk_times;
mod fault;
mod frame_name;
mod last_uplinks;
mod orders;
mod sight;
mod timed;
mod watching;

pub use control::{ATTENDANTS, ControlSocket};
pub use counts::{Count, Counts, Highest};
pub use disk_times::DiskTimes;
pub use fault::{NameListFault, ServeFault};
pub use frame_name::FrameName;
pub use last_uplinks::LastUplinks;
pub use orders::Order;
pub use sight::Sight;
pub use timed::TimedDisk;
pub use watching::{Waiting, Watch};
