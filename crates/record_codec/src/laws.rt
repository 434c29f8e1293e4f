//! Laws of device records and of changes, for crates that store them.
ghost use Rattle.std.specs.Prelude.{◌≡◌, ◌≤◌, ℕ, List, length};
ghost use Rattle.devices.specs.declared.device.Device.{Device};
ghost use Rattle.record_codec.specs.Change.{IsChangeOf};
ghost use Rattle.record_codec.specs.DeviceRecord.{spelling, IsDevice};
ghost use Rattle.record_codec.specs.Version.{longest_mac_queue, newest};
ghost use Rattle.record_codec.specs.declared.version.RecordVersion.{RecordVersion};
ghost use Rattle.record_codec.specs.declared.version.RecordVersion.TheVariants.{V1, V2};

use crate::{LONGEST_CHANGE, LONGEST_RECORD, NEWEST};

/// In each version no two devices share a record.
pub fn each_record_is_of_one_device()
    ensures { (version : RecordVersion) (a b : Device) → IsDevice version a → IsDevice version b
        → spelling version a ≡ spelling version b → a ≡ b }
{}

/// A record has 50 to 4,180 bytes in version 1, and 58 bytes to [`LONGEST_RECORD`] in version 2.
pub fn records_are_short()
    ensures least { (version : RecordVersion) (device : Device) → IsDevice version device
        → 50 ≤ length (spelling version device) }
    ensures most { (version : RecordVersion) (device : Device) → IsDevice version device
        → length (spelling version device) ≤ LONGEST_RECORD }
    ensures most_of_v1 { (device : Device) → IsDevice V1 device
        → length (spelling V1 device) ≤ 4180 }
    ensures least_of_v2 { (device : Device) → IsDevice V2 device
        → 58 ≤ length (spelling V2 device) }
{}

/// The largest record, and the largest MAC queue, in bytes.
pub fn limits_are_these()
    ensures record { LONGEST_RECORD ≡ 4252 }
    ensures mac_queue_of_v1 { longest_mac_queue V1 ≡ 64 }
    ensures mac_queue_of_v2 { longest_mac_queue V2 ≡ 128 }
{}

/// Version 2 is the one that is written.
pub fn the_newest_version_is_this()
    ensures { NEWEST ≡ newest }
{}

/// In each version a change of one record leads to one record.
pub fn each_change_is_of_one_record()
    ensures { (version : RecordVersion) (before a b : Device) (bytes : List ℕ)
        → IsChangeOf version before a bytes → IsChangeOf version before b bytes → a ≡ b }
{}

/// In each version there is one change from one record to another.
pub fn each_record_has_one_change()
    ensures { (version : RecordVersion) (before after : Device) (a b : List ℕ)
        → IsChangeOf version before after a → IsChangeOf version before after b → a ≡ b }
{}

/// A change has 1 byte to [`LONGEST_CHANGE`], and in version 1 at most 411 bytes.
pub fn changes_are_short()
    ensures least { (version : RecordVersion) (before after : Device) (bytes : List ℕ)
        → IsChangeOf version before after bytes → 1 ≤ length bytes }
    ensures most { (version : RecordVersion) (before after : Device) (bytes : List ℕ)
        → IsChangeOf version before after bytes → length bytes ≤ LONGEST_CHANGE }
    ensures most_of_v1 { (before after : Device) (bytes : List ℕ)
        → IsChangeOf V1 before after bytes → length bytes ≤ 411 }
{}

/// The largest change, in bytes.
pub fn the_longest_change_is_this()
    ensures { LONGEST_CHANGE ≡ 475 }
{}
