// The phases of one batch, each spent by one call of the disk.
ghost use Rattle.std.specs.Prelude.{◌≡◌, ◌<◌, ◌≤◌, ◌+◌, ◌^◌, drop, length, vec_capacity, IfOk};
ghost use Rattle.std.specs.Prelude.{IsOk, OnOk, OnErr};
ghost use Rattle.disk.specs.State.{EveryImage};
ghost use Rattle.gate_log.specs.Areas.{LogContents, Holds, HoldsOneOf, contents_with_batch};
ghost use Rattle.gate_log.specs.Layout.{BatchValue};
ghost use Rattle.gate_log.specs.Log.{log_state, log_disk, IsAtRest, IsOneLogCall, OnlyDiskChanges};
ghost use Rattle.gate_log.specs.Phases.{bytes_of, written_size, body_synced_size};
ghost use Rattle.gate_log.specs.Phases.{gate_written_size, IsBegun, IsWritten, IsBodySynced};
ghost use Rattle.gate_log.specs.Phases.{IsGateWritten};

use crate::layout::{BatchHead, CLOSED, ENTRIES_AT, OPEN};
use crate::log::Log;
use disk::{DeviceFailed, Disk};
use std::alloc::{AllocError, Global};

/// A batch of which nothing is written yet.
pub struct Begun {
    // The batch's body, and the closed gate of the next batch.
    pub(crate) bytes: Vec<u8>,
}

/// A batch whose body is written and not synced, so a crash may tear it.
pub struct Written {
    // The number of bytes from the batch's gate to the next one.
    size: u64,
}

/// A batch whose body is on the disk. Its gate is closed.
pub struct BodySynced {
    pub(crate) size: u64,
}

/// A batch whose gate is open. That write isn't synced, so a crash may tear it.
pub struct GateWritten {
    pub(crate) size: u64,
}

/// A batch that every crash leaves.
pub struct Durable {
    pub(crate) size: u64,
}

impl Begun {
    /// Room for a batch's head, after which the caller appends `entries_len` bytes of entries.
    /// Appending them and the gate after them takes no more memory.
    pub fn buffer(alloc: Global, entries_len: usize) -> Result<Vec<u8>, AllocError>
        requires { ENTRIES_AT + entries_len < 2 ^ 64 }
        ensures len { IfOk result (λ bytes. length bytes.items ≡ BatchHead.LEN) }
        ensures room { IfOk result (λ bytes. BatchHead.LEN + entries_len < vec_capacity bytes) }
    {
        let mut bytes = Vec::with_capacity(alloc, ENTRIES_AT as usize + entries_len)?;
        bytes.extend_from_slice(&[0; BatchHead::LEN])?;
        Ok(bytes)
    }

    /// A batch of the entries that follow a buffer's room for its head. All the memory that its
    /// phases need is allocated here: none if the buffer has room for one byte more.
    pub fn new(buffer: Vec<u8>, last_sequence: u64, entry_count: u16) -> Result<Begun, AllocError>
        requires head { BatchHead.LEN ≤ length buffer.items }
        requires short { length buffer.items < 2 ^ 32 }
        ensures begun { IfOk result
            (λ begun. IsBegun begun (record {
              last_sequence = last_sequence;
              entry_count = entry_count;
              entries = drop BatchHead.LEN buffer.items;
            })) }
        ensures size { IfOk result (λ begun. length (bytes_of begun)
            ≡ length buffer.items + 1) }
        ensures memory { length buffer.items < vec_capacity buffer → IsOk result }
    {
        let head = BatchHead {
            entries_len: (buffer.len() - BatchHead::LEN) as u32,
            last_sequence,
            entry_count,
        };
        let mut bytes = buffer;
        head.put(&mut bytes);
        bytes.push(CLOSED)?;
        Ok(Begun { bytes })
    }

    /// Writes the batch's body and the closed gate of the next batch.
    pub fn write<D: Disk>(self, log: &mut Log<D>) -> Result<Written, DeviceFailed>
        requires { (log_state D.state log.old).next + length (bytes_of self)
            < (log_state D.state log.old).areas.live.end }
        ensures next { D.honest → (c : LogContents) (b : BatchValue)
            → IsAtRest (log_state D.state log.old) c → IsBegun self b
            → IfOk result (λ phase. IsWritten (log_state D.state log.new) c b
            (written_size phase)) }
        ensures images { D.honest → (c : LogContents) → IsAtRest (log_state D.state log.old) c
            → EveryImage (D.state (log_disk log.new)) (Holds c) }
        ensures size { IfOk result (λ phase. written_size phase ≡ length (bytes_of self)) }
        ensures place { OnlyDiskChanges (log_state D.state log.old) (log_state D.state log.new) }
        ensures call { IsOneLogCall D.failures D.outlook log.old log.new result }
    {
        disk::laws::settled_disk_keeps_its_content();
        disk::laws::a_write_tears_an_image();
        let Begun { bytes } = self;
        log.disk.write_at(log.next + 1, &bytes)?;
        Ok(Written {
            size: bytes.len() as u64,
        })
    }

    /// Drops the batch at a crash.
    pub fn lose(self) {
        let Begun { bytes: _ } = self;
    }
}

impl Written {
    /// Syncs the batch's body.
    pub fn sync<D: Disk>(self, log: &mut Log<D>) -> Result<BodySynced, DeviceFailed>
        ensures next { D.honest → (c : LogContents) (b : BatchValue)
            → IsWritten (log_state D.state log.old) c b (written_size self)
            → IfOk result (λ phase. IsBodySynced (log_state D.state log.new) c b
            (body_synced_size phase)) }
        ensures images { D.honest → (c : LogContents) (b : BatchValue)
            → IsWritten (log_state D.state log.old) c b (written_size self)
            → EveryImage (D.state (log_disk log.new)) (Holds c) }
        ensures size { IfOk result (λ phase. body_synced_size phase ≡ written_size self) }
        ensures place { OnlyDiskChanges (log_state D.state log.old) (log_state D.state log.new) }
        ensures call { IsOneLogCall D.failures D.outlook log.old log.new result }
    {
        disk::laws::settled_disk_keeps_its_content();
        let Written { size } = self;
        log.disk.sync()?;
        Ok(BodySynced { size })
    }

    /// Drops the batch at a crash.
    pub fn lose(self) {
        let Written { size: _ } = self;
    }
}

impl BodySynced {
    /// Opens the batch's gate.
    pub fn open_gate<D: Disk>(self, log: &mut Log<D>) -> Result<GateWritten, DeviceFailed>
        ensures next { D.honest → (c : LogContents) (b : BatchValue)
            → IsBodySynced (log_state D.state log.old) c b (body_synced_size self)
            → IfOk result (λ phase. IsGateWritten (log_state D.state log.new) c b
            (gate_written_size phase)) }
        ensures images { D.honest → (c : LogContents) (b : BatchValue)
            → IsBodySynced (log_state D.state log.old) c b (body_synced_size self)
            → EveryImage (D.state (log_disk log.new)) (HoldsOneOf c (contents_with_batch c b)) }
        ensures size { IfOk result (λ phase. gate_written_size phase ≡ body_synced_size self) }
        ensures place { OnlyDiskChanges (log_state D.state log.old) (log_state D.state log.new) }
        ensures call { IsOneLogCall D.failures D.outlook log.old log.new result }
    {
        disk::laws::settled_disk_keeps_its_content();
        disk::laws::a_write_tears_an_image();
        let BodySynced { size } = self;
        log.disk.write_at(log.next, &[OPEN])?;
        Ok(GateWritten { size })
    }

    /// Drops the batch at a crash.
    pub fn lose(self) {
        let BodySynced { size: _ } = self;
    }
}

impl GateWritten {
    /// The number of bytes from the batch's gate to the next one.
    pub fn size(&self) -> u64
        ensures { result ≡ gate_written_size self.now }
    {
        self.size
    }

    /// Syncs the batch's gate. After that the batch is durable.
    pub fn sync<D: Disk>(self, log: &mut Log<D>) -> Result<Durable, DeviceFailed>
        requires { (log_state D.state log.old).next + gate_written_size self
            < (log_state D.state log.old).areas.live.end }
        ensures next { D.honest → (c : LogContents) (b : BatchValue)
            → IsGateWritten (log_state D.state log.old) c b (gate_written_size self)
            → OnOk result (IsAtRest (log_state D.state log.new) (contents_with_batch c b)) }
        ensures durable { D.honest → (c : LogContents) (b : BatchValue)
            → IsGateWritten (log_state D.state log.old) c b (gate_written_size self)
            → OnOk result (EveryImage (D.state (log_disk log.new))
            (Holds (contents_with_batch c b))) }
        ensures images { D.honest → (c : LogContents) (b : BatchValue)
            → IsGateWritten (log_state D.state log.old) c b (gate_written_size self)
            → EveryImage (D.state (log_disk log.new)) (HoldsOneOf c (contents_with_batch c b)) }
        ensures place { OnOk result (log_state D.state log.new ≡ record {
          disk = D.state (log_disk log.new);
          areas = (log_state D.state log.old).areas;
          next = (log_state D.state log.old).next + gate_written_size self;
          generation = (log_state D.state log.old).generation;
          other_open = (log_state D.state log.old).other_open;
        }) }
        ensures same_place { OnErr result
            (OnlyDiskChanges (log_state D.state log.old) (log_state D.state log.new)) }
        ensures call { IsOneLogCall D.failures D.outlook log.old log.new result }
    {
        disk::laws::settled_disk_keeps_its_content();
        let GateWritten { size } = self;
        log.disk.sync()?;
        log.next += size;
        Ok(Durable { size })
    }

    /// Drops the batch at a crash.
    pub fn lose(self) {
        let GateWritten { size: _ } = self;
    }
}

impl Durable {
    /// Drops it.
    pub fn finish(self) {
        let Durable { size: _ } = self;
    }
}
