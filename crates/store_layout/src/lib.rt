//! What the bytes of a store say: the superblock, and entries with the records of devices.
#![tactic(auto)]

mod entries;
pub mod laws;
mod replaying;
mod superblock;

pub use entries::{LONGEST_ENTRY, put_batch, put_entry, put_table};
pub use record_codec::RecordVersion;
pub use replaying::replay;
pub use superblock::{JOURNAL_ROOM, RESERVED_ENTRY, Superblock, opens_area};
