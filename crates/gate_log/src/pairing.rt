// Two batches that share a sync: the gate of one, and the body of the next.
ghost use Rattle.std.specs.Prelude.{◌≡◌, ◌<◌, ◌+◌, length, IfOk, OnErr, OnOk};
ghost use Rattle.disk.specs.State.{EveryImage};
ghost use Rattle.gate_log.specs.Areas.{LogContents, Holds, HoldsOneOf, contents_with_batch};
ghost use Rattle.gate_log.specs.Layout.{BatchValue};
ghost use Rattle.gate_log.specs.Log.{log_state, log_disk, IsOneLogCall, OnlyDiskChanges};
ghost use Rattle.gate_log.specs.Pairing.{IsPaired, paired_next_size, paired_size};
ghost use Rattle.gate_log.specs.Phases.{IsBegun, IsBodySynced, IsGateWritten, body_synced_size};
ghost use Rattle.gate_log.specs.Phases.{bytes_of, gate_written_size};

use crate::log::Log;
use crate::phases::{Begun, BodySynced, Durable, GateWritten};
use disk::{DeviceFailed, Disk};

/// A batch whose gate is open, and after it the body of the next one. A crash may tear both.
pub struct Paired {
    // The number of bytes from each batch's gate to the next one.
    pub(crate) size: u64,
    pub(crate) next_size: u64,
}

impl GateWritten {
    /// Writes the next batch's body and the closed gate after it, before this batch's gate is
    /// synced. The next batch's own gate stays closed, so no crash leaves that batch.
    pub fn write_next<D: Disk>(
        self,
        following: Begun,
        log: &mut Log<D>,
    ) -> Result<Paired, DeviceFailed>
        requires { (log_state D.state log.old).next + gate_written_size self
            + length (bytes_of following) < (log_state D.state log.old).areas.live.end }
        ensures next { D.honest → (c : LogContents) (b n : BatchValue)
            → IsGateWritten (log_state D.state log.old) c b (gate_written_size self)
            → IsBegun following n
            → IfOk result (λ phase. IsPaired (log_state D.state log.new) c b n
            (paired_size phase) (paired_next_size phase)) }
        ensures images { D.honest → (c : LogContents) (b : BatchValue)
            → IsGateWritten (log_state D.state log.old) c b (gate_written_size self)
            → EveryImage (D.state (log_disk log.new)) (HoldsOneOf c (contents_with_batch c b)) }
        ensures size { IfOk result (λ phase. paired_size phase ≡ gate_written_size self) }
        ensures next_size { IfOk result
            (λ phase. paired_next_size phase ≡ length (bytes_of following)) }
        ensures place { OnlyDiskChanges (log_state D.state log.old) (log_state D.state log.new) }
        ensures call { IsOneLogCall D.failures D.outlook log.old log.new result }
    {
        disk::laws::settled_disk_keeps_its_content();
        disk::laws::a_write_tears_an_image();
        let GateWritten { size } = self;
        let Begun { bytes } = following;
        log.disk.write_at(log.next + size + 1, &bytes)?;
        Ok(Paired {
            size,
            next_size: bytes.len() as u64,
        })
    }
}

impl Paired {
    /// Syncs the batch's gate and the next one's body. After that the batch is durable.
    pub fn sync<D: Disk>(self, log: &mut Log<D>) -> Result<(Durable, BodySynced), DeviceFailed>
        requires { (log_state D.state log.old).next + paired_size self
            < (log_state D.state log.old).areas.live.end }
        ensures next { D.honest → (c : LogContents) (b n : BatchValue)
            → IsPaired (log_state D.state log.old) c b n (paired_size self) (paired_next_size self)
            → IfOk result (λ phases. IsBodySynced (log_state D.state log.new)
            (contents_with_batch c b) n (body_synced_size phases.1)) }
        ensures durable { D.honest → (c : LogContents) (b n : BatchValue)
            → IsPaired (log_state D.state log.old) c b n (paired_size self) (paired_next_size self)
            → OnOk result (EveryImage (D.state (log_disk log.new))
            (Holds (contents_with_batch c b))) }
        ensures images { D.honest → (c : LogContents) (b n : BatchValue)
            → IsPaired (log_state D.state log.old) c b n (paired_size self) (paired_next_size self)
            → EveryImage (D.state (log_disk log.new)) (HoldsOneOf c (contents_with_batch c b)) }
        ensures size { IfOk result
            (λ phases. body_synced_size phases.1 ≡ paired_next_size self) }
        ensures place { OnOk result (log_state D.state log.new ≡ record {
          disk = D.state (log_disk log.new);
          areas = (log_state D.state log.old).areas;
          next = (log_state D.state log.old).next + paired_size self;
          generation = (log_state D.state log.old).generation;
          other_open = (log_state D.state log.old).other_open;
        }) }
        ensures same_place { OnErr result
            (OnlyDiskChanges (log_state D.state log.old) (log_state D.state log.new)) }
        ensures call { IsOneLogCall D.failures D.outlook log.old log.new result }
    {
        disk::laws::settled_disk_keeps_its_content();
        let Paired { size, next_size } = self;
        log.disk.sync()?;
        log.next += size;
        Ok((Durable { size }, BodySynced { size: next_size }))
    }

    /// Drops both batches at a crash.
    pub fn lose(self) {
        let Paired {
            size: _,
            next_size: _,
        } = self;
    }
}
