// The phases of a checkpoint, each spent by one call of the disk.
ghost use Rattle.std.specs.Prelude.{◌≡◌, ◌<◌, ◌≤◌, ◌+◌, ◌++◌, ◌∷◌, ◌^◌, false, true, [], List, ℕ};
ghost use Rattle.std.specs.Prelude.{length, drop, vec_capacity, IfOk, IsOk, OnOk, OnErr};
ghost use Rattle.disk.specs.State.{EveryImage};
ghost use Rattle.gate_log.specs.declared.layout.TheConstants.{EMPTY_AREA_LEN};
ghost use Rattle.gate_log.specs.Areas.{LogContents, Holds, HoldsOneOf, MayFollowContents};
ghost use Rattle.gate_log.specs.Areas.{contents_with_checkpoint, exchanged_areas};
ghost use Rattle.gate_log.specs.Checkpointing.{IsCheckpoint, IsCheckpointOpened};
ghost use Rattle.gate_log.specs.Checkpointing.{IsCheckpointSynced, IsCheckpointWritten, IsRetiring};
ghost use Rattle.gate_log.specs.Checkpointing.{checkpoint_bytes, front_of, opened_front};
ghost use Rattle.gate_log.specs.Checkpointing.{synced_front, written_front};
ghost use Rattle.gate_log.specs.Log.{log_state, log_disk, AreLogCalls, IsAtRest, IsOneLogCall};
ghost use Rattle.gate_log.specs.Log.{OnlyDiskChanges};

use crate::layout::{Areas, CLOSED, EMPTY_AREA_LEN, Header, OPEN};
use crate::log::Log;
use disk::{DeviceFailed, Disk};
use std::alloc::{AllocError, Global};

/// The other area while its gate is being closed.
pub struct Retiring {}

/// A checkpoint of which nothing is written yet.
pub struct Checkpoint {
    // The header, the records, and the closed gate of the first batch.
    bytes: Vec<u8>,
    generation: u64,
}

/// What the log takes over once this checkpoint is live.
#[derive(Clone, Copy)]
pub(crate) struct CheckpointFront {
    pub(crate) generation: u64,
    // The number of bytes from the area's gate to the gate of the first batch.
    pub(crate) len: u64,
}

/// A checkpoint that is written and not synced, so a crash may tear it.
pub struct CheckpointWritten {
    front: CheckpointFront,
}

/// A checkpoint that is on the disk. Its gate is closed.
pub struct CheckpointSynced {
    front: CheckpointFront,
}

/// A checkpoint whose gate is open. That write isn't synced, so a crash may tear it.
pub struct CheckpointOpened {
    front: CheckpointFront,
}

impl<D: Disk> Log<D> {
    /// Closes the other area's gate, which is open.
    pub fn retire(&mut self) -> Result<Retiring, DeviceFailed>
        ensures next { D.honest → (c : LogContents) → IsAtRest (log_state D.state self.old) c
            → (log_state D.state self.old).other_open ≡ true
            → OnOk result (IsRetiring (log_state D.state self.new) c) }
        ensures images { D.honest → (c : LogContents) → IsAtRest (log_state D.state self.old) c
            → (log_state D.state self.old).other_open ≡ true
            → EveryImage (D.state (log_disk self.new)) (Holds c) }
        ensures place { OnlyDiskChanges (log_state D.state self.old) (log_state D.state self.new) }
        ensures same_length { length (D.state (log_disk self.new)).content
            ≡ length (D.state (log_disk self.old)).content }
        ensures call { IsOneLogCall D.failures D.outlook self.old self.new result }
    {
        disk::laws::settled_disk_keeps_its_content();
        disk::laws::a_write_tears_an_image();
        self.disk.write_at(self.areas.other.start, &[CLOSED])?;
        Ok(Retiring {})
    }
}

impl Retiring {
    /// Syncs the other area's closed gate.
    pub fn sync<D: Disk>(self, log: &mut Log<D>) -> Result<(), DeviceFailed>
        ensures next { D.honest → (c : LogContents) → IsRetiring (log_state D.state log.old) c
            → OnOk result (IsAtRest (log_state D.state log.new) c) }
        ensures images { D.honest → (c : LogContents) → IsRetiring (log_state D.state log.old) c
            → EveryImage (D.state (log_disk log.new)) (Holds c) }
        ensures place { OnOk result (log_state D.state log.new ≡ record {
          disk = D.state (log_disk log.new);
          areas = (log_state D.state log.old).areas;
          next = (log_state D.state log.old).next;
          generation = (log_state D.state log.old).generation;
          other_open = false;
        }) }
        ensures same_place { OnErr result
            (OnlyDiskChanges (log_state D.state log.old) (log_state D.state log.new)) }
        ensures same_length { length (D.state (log_disk log.new)).content
            ≡ length (D.state (log_disk log.old)).content }
        ensures call { IsOneLogCall D.failures D.outlook log.old log.new result }
    {
        let Retiring {} = self;
        log.disk.sync()?;
        log.other_open = false;
        Ok(())
    }

    /// Drops it at a crash.
    pub fn lose(self) {
        let Self {} = self;
    }
}

impl Checkpoint {
    /// Room for a header, after which the caller appends `records_len` bytes of records. Appending
    /// them and the gate after them takes no more memory.
    pub fn buffer(alloc: Global, records_len: usize) -> Result<Vec<u8>, AllocError>
        requires { EMPTY_AREA_LEN + records_len < 2 ^ 64 }
        ensures len { IfOk result (λ bytes. length bytes.items ≡ Header.LEN) }
        ensures room { IfOk result (λ bytes. Header.LEN + records_len < vec_capacity bytes) }
    {
        let mut bytes = Vec::with_capacity(alloc, EMPTY_AREA_LEN as usize + records_len)?;
        bytes.extend_from_slice(&[0; Header::LEN])?;
        Ok(bytes)
    }

    /// A checkpoint with this header, and with the records that follow a buffer's room for the
    /// header. All the memory that its phases need is allocated here: none if the buffer has room
    /// for one byte more.
    pub fn new(buffer: Vec<u8>, header: Header) -> Result<Checkpoint, AllocError>
        requires { Header.LEN ≤ length buffer.items }
        ensures checkpoint { IfOk result
            (λ begun. IsCheckpoint begun header (drop Header.LEN buffer.items)) }
        ensures size { IfOk result
            (λ begun. length (checkpoint_bytes begun) ≡ length buffer.items + 1) }
        ensures memory { length buffer.items < vec_capacity buffer → IsOk result }
    {
        let mut bytes = buffer;
        header.put(&mut bytes);
        bytes.push(CLOSED)?;
        Ok(Checkpoint {
            bytes,
            generation: header.generation,
        })
    }

    /// Writes the checkpoint and the closed gate of the first batch into the other area, whose gate
    /// is closed.
    pub fn write<D: Disk>(self, log: &mut Log<D>) -> Result<CheckpointWritten, DeviceFailed>
        requires { (log_state D.state log.old).areas.other.start + length (checkpoint_bytes self)
            < (log_state D.state log.old).areas.other.end }
        ensures next { D.honest → (c : LogContents) (header : Header) (records : List ℕ)
            → IsAtRest (log_state D.state log.old) c
            → (log_state D.state log.old).other_open ≡ false
            → IsCheckpoint self header records → MayFollowContents c header records
            → IfOk result
            (λ phase. IsCheckpointWritten (log_state D.state log.new) c header records
            (written_front phase)) }
        ensures images { D.honest → (c : LogContents) → IsAtRest (log_state D.state log.old) c
            → (log_state D.state log.old).other_open ≡ false
            → EveryImage (D.state (log_disk log.new)) (Holds c) }
        ensures front { IfOk result (λ phase. written_front phase ≡ front_of self) }
        ensures place { OnlyDiskChanges (log_state D.state log.old) (log_state D.state log.new) }
        ensures same_length { length (D.state (log_disk log.new)).content
            ≡ length (D.state (log_disk log.old)).content }
        ensures call { IsOneLogCall D.failures D.outlook log.old log.new result }
    {
        disk::laws::settled_disk_keeps_its_content();
        disk::laws::a_write_tears_an_image();
        let Checkpoint { bytes, generation } = self;
        log.disk.write_at(log.areas.other.start + 1, &bytes)?;
        let len = bytes.len() as u64;
        Ok(CheckpointWritten {
            front: CheckpointFront { generation, len },
        })
    }

    /// Drops the checkpoint at a crash.
    pub fn lose(self) {
        let Checkpoint {
            bytes: _,
            generation: _,
        } = self;
    }
}

impl<D: Disk> Log<D> {
    // Closes the other area's gate if it is open, and syncs that.
    fn shut_other(&mut self) -> Result<(), DeviceFailed>
        ensures closed { OnOk result ((log_state D.state self.new).other_open ≡ false) }
        ensures rest { D.honest → (c : LogContents) → IsAtRest (log_state D.state self.old) c
            → OnOk result (IsAtRest (log_state D.state self.new) c) }
        ensures images { D.honest → (c : LogContents) → IsAtRest (log_state D.state self.old) c
            → OnErr result (EveryImage (D.state (log_disk self.new)) (Holds c)) }
        ensures areas { (log_state D.state self.new).areas ≡ (log_state D.state self.old).areas }
        ensures same_length { length (D.state (log_disk self.new)).content
            ≡ length (D.state (log_disk self.old)).content }
        ensures calls { AreLogCalls D.failures D.outlook self.old self.new result }
    {
        if !self.other_open {
            return Ok(());
        }
        self.retire()?.sync(self)
    }
}

impl Checkpoint {
    /// Makes all calls of a checkpoint, one after another, up to the first one that fails.
    pub fn publish<D: Disk>(self, log: &mut Log<D>) -> Result<(), DeviceFailed>
        requires { (log_state D.state log.old).areas.other.start + length (checkpoint_bytes self)
            < (log_state D.state log.old).areas.other.end }
        ensures done { D.honest → (c : LogContents) (header : Header) (records : List ℕ)
            → IsAtRest (log_state D.state log.old) c
            → IsCheckpoint self header records → MayFollowContents c header records
            → OnOk result (IsAtRest (log_state D.state log.new)
            (contents_with_checkpoint c header records)) }
        ensures images { D.honest → (c : LogContents) (header : Header) (records : List ℕ)
            → IsAtRest (log_state D.state log.old) c
            → IsCheckpoint self header records → MayFollowContents c header records
            → EveryImage (D.state (log_disk log.new))
            (HoldsOneOf c (contents_with_checkpoint c header records)) }
        ensures areas { OnOk result ((log_state D.state log.new).areas
            ≡ exchanged_areas (log_state D.state log.old).areas) }
        ensures same_length { length (D.state (log_disk log.new)).content
            ≡ length (D.state (log_disk log.old)).content }
        ensures calls { AreLogCalls D.failures D.outlook log.old log.new result }
    {
        match log.shut_other() {
            Ok(()) => self.write_and_open(log),
            Err(failed) => {
                self.lose();
                Err(failed)
            }
        }
    }

    // The four calls when the other area's gate is closed.
    fn write_and_open<D: Disk>(self, log: &mut Log<D>) -> Result<(), DeviceFailed>
        requires { (log_state D.state log.old).areas.other.start + length (checkpoint_bytes self)
            < (log_state D.state log.old).areas.other.end }
        ensures done { D.honest → (c : LogContents) (header : Header) (records : List ℕ)
            → IsAtRest (log_state D.state log.old) c
            → (log_state D.state log.old).other_open ≡ false
            → IsCheckpoint self header records → MayFollowContents c header records
            → OnOk result (IsAtRest (log_state D.state log.new)
            (contents_with_checkpoint c header records)) }
        ensures images { D.honest → (c : LogContents) (header : Header) (records : List ℕ)
            → IsAtRest (log_state D.state log.old) c
            → (log_state D.state log.old).other_open ≡ false
            → IsCheckpoint self header records → MayFollowContents c header records
            → EveryImage (D.state (log_disk log.new))
            (HoldsOneOf c (contents_with_checkpoint c header records)) }
        ensures areas { OnOk result ((log_state D.state log.new).areas
            ≡ exchanged_areas (log_state D.state log.old).areas) }
        ensures same_length { length (D.state (log_disk log.new)).content
            ≡ length (D.state (log_disk log.old)).content }
        ensures calls { AreLogCalls D.failures D.outlook log.old log.new result }
    {
        let written = self.write(log)?;
        let synced = written.sync(log)?;
        let opened = synced.open_gate(log)?;
        opened.sync(log)
    }
}

impl CheckpointWritten {
    /// Syncs the checkpoint.
    pub fn sync<D: Disk>(self, log: &mut Log<D>) -> Result<CheckpointSynced, DeviceFailed>
        ensures next { D.honest → (c : LogContents) (header : Header) (records : List ℕ)
            → IsCheckpointWritten (log_state D.state log.old) c header records (written_front self)
            → IfOk result
            (λ phase. IsCheckpointSynced (log_state D.state log.new) c header records
            (synced_front phase)) }
        ensures images { D.honest → (c : LogContents) (header : Header) (records : List ℕ)
            → IsCheckpointWritten (log_state D.state log.old) c header records (written_front self)
            → EveryImage (D.state (log_disk log.new)) (Holds c) }
        ensures front { IfOk result (λ phase. synced_front phase ≡ written_front self) }
        ensures place { OnlyDiskChanges (log_state D.state log.old) (log_state D.state log.new) }
        ensures same_length { length (D.state (log_disk log.new)).content
            ≡ length (D.state (log_disk log.old)).content }
        ensures call { IsOneLogCall D.failures D.outlook log.old log.new result }
    {
        disk::laws::settled_disk_keeps_its_content();
        let CheckpointWritten { front } = self;
        log.disk.sync()?;
        Ok(CheckpointSynced { front })
    }

    /// Drops the checkpoint at a crash.
    pub fn lose(self) {
        let CheckpointWritten { front: _ } = self;
    }
}

impl CheckpointSynced {
    /// Opens the checkpoint's gate.
    pub fn open_gate<D: Disk>(self, log: &mut Log<D>) -> Result<CheckpointOpened, DeviceFailed>
        ensures next { D.honest → (c : LogContents) (header : Header) (records : List ℕ)
            → IsCheckpointSynced (log_state D.state log.old) c header records (synced_front self)
            → IfOk result
            (λ phase. IsCheckpointOpened (log_state D.state log.new) c header records
            (opened_front phase)) }
        ensures images { D.honest → (c : LogContents) (header : Header) (records : List ℕ)
            → IsCheckpointSynced (log_state D.state log.old) c header records (synced_front self)
            → EveryImage (D.state (log_disk log.new))
            (HoldsOneOf c (contents_with_checkpoint c header records)) }
        ensures front { IfOk result (λ phase. opened_front phase ≡ synced_front self) }
        ensures place { OnlyDiskChanges (log_state D.state log.old) (log_state D.state log.new) }
        ensures same_length { length (D.state (log_disk log.new)).content
            ≡ length (D.state (log_disk log.old)).content }
        ensures call { IsOneLogCall D.failures D.outlook log.old log.new result }
    {
        disk::laws::settled_disk_keeps_its_content();
        disk::laws::a_write_tears_an_image();
        let CheckpointSynced { front } = self;
        log.disk.write_at(log.areas.other.start, &[OPEN])?;
        Ok(CheckpointOpened { front })
    }

    /// Drops the checkpoint at a crash.
    pub fn lose(self) {
        let CheckpointSynced { front: _ } = self;
    }
}

impl CheckpointOpened {
    /// Syncs the checkpoint's gate. After that its area is the live one.
    pub fn sync<D: Disk>(self, log: &mut Log<D>) -> Result<(), DeviceFailed>
        requires { (log_state D.state log.old).areas.other.start + (opened_front self).len
            < (log_state D.state log.old).areas.other.end }
        ensures next { D.honest → (c : LogContents) (header : Header) (records : List ℕ)
            → IsCheckpointOpened (log_state D.state log.old) c header records (opened_front self)
            → OnOk result (IsAtRest (log_state D.state log.new)
            (contents_with_checkpoint c header records)) }
        ensures images { D.honest → (c : LogContents) (header : Header) (records : List ℕ)
            → IsCheckpointOpened (log_state D.state log.old) c header records (opened_front self)
            → EveryImage (D.state (log_disk log.new))
            (HoldsOneOf c (contents_with_checkpoint c header records)) }
        ensures place { OnOk result (log_state D.state log.new ≡ record {
          disk = D.state (log_disk log.new);
          areas = exchanged_areas (log_state D.state log.old).areas;
          next = (log_state D.state log.old).areas.other.start + (opened_front self).len;
          generation = (opened_front self).generation;
          other_open = true;
        }) }
        ensures same_place { OnErr result
            (OnlyDiskChanges (log_state D.state log.old) (log_state D.state log.new)) }
        ensures same_length { length (D.state (log_disk log.new)).content
            ≡ length (D.state (log_disk log.old)).content }
        ensures call { IsOneLogCall D.failures D.outlook log.old log.new result }
    {
        let CheckpointOpened { front } = self;
        log.disk.sync()?;
        let Areas { live, other } = log.areas;
        log.areas = Areas {
            live: other,
            other: live,
        };
        log.next = other.start + front.len;
        log.generation = front.generation;
        log.other_open = true;
        Ok(())
    }

    /// Drops the checkpoint at a crash.
    pub fn lose(self) {
        let CheckpointOpened { front: _ } = self;
    }
}
