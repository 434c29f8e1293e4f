//! Changes of the devices of a table while its store isn't served: devices are imported, amended
//! and retired, and a table grows.
//!
//! Each call makes another table and leaves the old one as it is. The crate `store_edits` puts such
//! a table into a store.
#![tactic(auto)]

mod change;
mod changing;
mod checking;
mod device;
mod fault;
mod growing;
mod importing;
pub mod laws;
mod waiting;

pub use change::{Amendment, Change, Importing, LastJoinNonce, Retirement};
pub use changing::changed_table;
pub use checking::faulty_rows;
pub use fault::{FaultyRow, Refused, RowFault};
pub use growing::{GrowRefused, grown_table};
pub use importing::imported_table;
pub use waiting::waiting_items;
