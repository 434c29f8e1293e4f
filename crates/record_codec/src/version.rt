// The versions of records, and records and changes in each of them.
ghost use Rattle.std.specs.Prelude.{◌≡◌, ◌≢◌, ◌≤◌, MatchOption, take};
ghost use Rattle.lw_types.specs.declared.refusal.Refusal.TheVariants.{OutOfMemory};
ghost use Rattle.record_codec.specs.Answers.{ReadsChange, ReadsRecord};
ghost use Rattle.record_codec.specs.Version.{longest_mac_queue, newest, version_byte};

use crate::change::change_in;
use crate::device_record::read_record;
use devices::{Device, MacQueue};
use lw_types::Refusal;
use std::alloc::Global;

/// The version of an area's records, which the area's header gives. Version 1 doesn't count
/// uplinks, and its MAC queues have at most 64 bytes.
#[derive(Clone, Copy, Debug, PartialEq, Eq)]
pub enum RecordVersion {
    V1,
    V2,
}

/// Cuts the bytes to this length after memory ran out, and returns `OutOfMemory`.
pub(crate) fn taken_back(out: &mut Vec<u8>, len: usize) -> Refusal
    ensures value { result ≡ OutOfMemory }
    ensures items { out.new.items ≡ take len out.old.items }
{
    out.truncate(len);
    Refusal::OutOfMemory
}

impl RecordVersion {
    /// The version that a header's byte gives, if any.
    pub fn of(byte: u8) -> Option<Self>
        ensures { MatchOption result
            ((version : RecordVersion) → byte ≢ version_byte version)
            (λ version. byte ≡ version_byte version) }
    {
        match byte {
            1 => Some(RecordVersion::V1),
            2 => Some(RecordVersion::V2),
            _ => None,
        }
    }

    /// The version's byte in a header.
    pub fn byte(self) -> u8
        ensures { result ≡ version_byte self }
    {
        match self {
            RecordVersion::V1 => 1,
            RecordVersion::V2 => 2,
        }
    }

    /// The largest MAC queue, in bytes.
    pub(crate) fn longest_mac_queue(self) -> usize
        ensures value { result ≡ longest_mac_queue self }
        ensures few { result ≤ MacQueue.MOST }
    {
        match self {
            RecordVersion::V1 => 64,
            RecordVersion::V2 => MacQueue::MOST,
        }
    }

    /// Returns the device of a record in this version, which is all of the bytes. Bytes that aren't
    /// such a record are refused as `Damaged`, with or without free memory. A record is refused as
    /// `OutOfMemory` if memory runs out.
    pub fn read_device(self, alloc: Global, bytes: &[u8]) -> Result<Device, Refusal>
        ensures { ReadsRecord self bytes.now result }
    {
        match read_record(self, bytes) {
            Some(parts) => parts.device(alloc),
            None => Err(Refusal::Damaged),
        }
    }

    /// Returns the record that a change in this version, which is all of the bytes, makes of the
    /// one before it. Bytes that aren't a change of that record are refused as `Damaged`, with or
    /// without free memory. A change is refused as `OutOfMemory` if memory runs out.
    pub fn read_change(
        self,
        alloc: Global,
        before: &Device,
        bytes: &[u8],
    ) -> Result<Device, Refusal>
        ensures { ReadsChange self before.now bytes.now result }
    {
        // Which commands and how many uplinks a record can have.
        let _commands = before.mac_queue.as_slice();
        let _items = before.items.as_slice();
        match change_in(self, before, bytes) {
            Some((groups, activation)) => groups.device(alloc, before, activation),
            None => Err(Refusal::Damaged),
        }
    }
}

/// The version that is written.
pub const NEWEST: RecordVersion = RecordVersion::V2;
