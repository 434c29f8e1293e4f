//! Device records as the store lays them out, in two versions. In each version a record has one
//! spelling, and no two records share one.
#![tactic(auto)]

mod activation_fields;
mod change;
mod device_record;
mod groups;
pub mod laws;
mod parts;
mod queues;
mod version;
mod written_fields;
mod written_groups;

pub use change::{LONGEST_CHANGE, read_change, read_change_v1, write_change, write_change_v1};
pub use device_record::{
    LONGEST_RECORD, read_device, read_device_v1, write_device, write_device_v1,
};
pub use version::{NEWEST, RecordVersion};
