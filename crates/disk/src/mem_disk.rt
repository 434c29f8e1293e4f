// A disk in memory, which fails and crashes on demand.
ghost use Rattle.std.specs.Prelude.{◌≡◌, ◌≢◌, ◌<◌, ◌≤◌, ◌+◌, ◌-◌, ◌^◌, ℕ, length, take, drop, IfOk};
ghost use Rattle.std.specs.Prelude.{OnOk, OnErr, is_ok};
ghost use Rattle.disk.specs.Tracking.{IsTracked};
ghost use Rattle.disk.specs.State.{IsWrite, IsSettledAt, IsPermitted, bytes_after_write};
ghost use Rattle.disk.specs.Crash.{IsCrashed};
ghost use Rattle.disk.specs.Outlook.{IsForeseen, HasCause};
ghost use Rattle.disk.specs.Outlook.Outlook.{AllSucceed, FailsAfter};

use crate::fuse::Fuse;
use crate::{DeviceFailed, Disk, Image, Sim, span};
use std::alloc::{AllocError, Global};

/// A disk in memory. Calls other than `new` take time for what they touch, and no memory. A sync
/// and a crash touch the bytes between the lowest and the highest position written since the last
/// of them.
#[derive(Drop)]
pub struct MemDisk {
    content: Vec<u8>,
    // The bytes of the last good sync.
    synced: Vec<u8>,
    // Which positions were written since then. All of them lie in low..high.
    marks: Vec<bool>,
    low: usize,
    high: usize,
    fuse: Fuse,
    ghost tracked: { IsTracked content.items synced.items marks.items low high },
}

impl MemDisk {
    ghost use Rattle.disk.specs.MemDisk.{state_of, disk_outlook, disk_failures};

    /// A disk that holds these bytes, all of them synced. Its calls succeed.
    pub fn new(alloc: Global, content: Vec<u8>) -> Result<Self, AllocError>
        ensures settled { IfOk result (λ disk. IsSettledAt content.items (state_of disk)) }
        ensures failures { IfOk result (λ disk. disk_failures disk ≡ 0) }
        ensures outlook { IfOk result (λ disk. disk_outlook disk ≡ AllSucceed) }
    {
        let synced = content.to_vec(alloc)?;
        let marks = vec![in alloc; false; content.len()]?;
        Ok(MemDisk {
            content,
            synced,
            marks,
            low: 0,
            high: 0,
            fuse: Fuse::new(),
        })
    }

    /// The bytes that the disk holds now.
    pub fn content(&self) -> &[u8]
        ensures { result.now ≡ (state_of self.now).content }
    {
        &self.content
    }

    // Opens the positions of a write.
    fn open(&mut self, from: usize, to: usize)
        requires order { from ≤ to }
        requires within { to ≤ length (state_of self.old).content }
        ensures opens { IsWrite from (to - from) (state_of self.old) (state_of self.new) }
        ensures content { (state_of self.new).content ≡ (state_of self.old).content }
        ensures covers_from { self.new.low ≤ from }
        ensures covers_to { to ≤ self.new.high }
        ensures outlook { disk_outlook self.new ≡ disk_outlook self.old }
        ensures failures { disk_failures self.new ≡ disk_failures self.old }
    {
        span::mark(&mut self.marks, from, to, true);
        if self.low == self.high {
            self.low = from;
            self.high = to;
        } else {
            self.low = self.low.min(from);
            self.high = self.high.max(to);
        }
    }

    // Makes the content the synced bytes and closes all positions.
    fn settle(&mut self)
        ensures settled { IsSettledAt (state_of self.old).content (state_of self.new) }
        ensures outlook { disk_outlook self.new ≡ disk_outlook self.old }
        ensures failures { disk_failures self.new ≡ disk_failures self.old }
    {
        span::copy(&mut self.synced, &self.content, self.low, self.high);
        span::mark(&mut self.marks, self.low, self.high, false);
        self.low = 0;
        self.high = 0;
    }
}

impl Disk for MemDisk {
    ghost use Rattle.disk.specs.MemDisk.{state_of, disk_outlook, disk_failures};

    ghost state = { state_of };

    ghost failures = { disk_failures };

    ghost outlook = { disk_outlook };

    ghost honest = { Unit {0} };

    fn len(&self) -> u64 {
        self.content.len() as u64
    }

    fn read_at(&mut self, at: u64, buffer: &mut [u8]) -> Result<(), DeviceFailed> {
        self.fuse.burn()?;
        span::read(&self.content, at as usize, buffer);
        Ok(())
    }

    fn write_at(&mut self, at: u64, bytes: &[u8]) -> Result<(), DeviceFailed>
        requires { at + length bytes.now ≤ length (state_of self.old).content }
        ensures written { OnOk result
            ((state_of self.new).content
            ≡ bytes_after_write (state_of self.old).content at bytes.now) }
        ensures opens { IsWrite at (length bytes.now) (state_of self.old) (state_of self.new) }

        // A write that fails leaves the bytes as they were.
        ensures unwritten { OnErr result
            ((state_of self.new).content ≡ (state_of self.old).content) }
        ensures same_length { length (state_of self.new).content
            ≡ length (state_of self.old).content }
        ensures cause { HasCause (disk_failures self.old) (disk_failures self.new) result }
        ensures foreseen { IsForeseen (disk_outlook self.old) (is_ok result)
            (disk_outlook self.new) }
    {
        let from = at as usize;
        self.open(from, from + bytes.len());
        self.fuse.burn()?;
        span::put(&mut self.content, from, bytes);
        Ok(())
    }

    fn sync(&mut self) -> Result<(), DeviceFailed> {
        self.fuse.burn()?;
        self.settle();
        Ok(())
    }
}

impl Sim for MemDisk {
    ghost use Rattle.disk.specs.Fuse.{is_foreseen_from};
    ghost use Rattle.disk.specs.MemDisk.{state_of, disk_outlook, disk_failures};

    fn arm(&mut self, n: u64) {
        self.fuse.arm(n);
    }

    fn crash(&mut self, image: &Image) {
        span::crash(
            &mut self.content,
            &self.synced,
            &self.marks,
            self.low,
            self.high,
            image,
        );
        self.settle();
    }

    ghost is_honest = { tt };

    ghost is_foreseen = { λ disk. is_foreseen_from disk.fuse.left };
}
