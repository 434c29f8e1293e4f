// The log of a disk with two areas.
ghost use Rattle.std.specs.Prelude.{◌≡◌, ◌<◌, ◌≤◌, ◌+◌, ◌-◌, ◌^◌, length};
ghost use Rattle.disk.specs.Outlook.Outlook.{FailsAfter};
ghost use Rattle.gate_log.specs.Areas.{AreLaidOut};

use crate::layout::Areas;
use disk::{Disk, Sim};

/// The log of a disk with two areas. It knows which of them is live, that one's generation and
/// where its next batch's gate stands, and whether the other one's gate is open.
#[derive(Drop)]
pub struct Log<D: Disk> {
    pub(crate) disk: D,
    pub(crate) areas: Areas,
    pub(crate) next: u64,
    pub(crate) generation: u64,
    pub(crate) other_open: bool,
    ghost layout: { AreLaidOut areas (length (D.state disk).content) },
    ghost room: { next < areas.live.end },
    ghost fits: { length (D.state disk).content < 2 ^ 64 },
}

impl<D: Disk> Log<D> {
    ghost use Rattle.gate_log.specs.Log.{log_state, log_disk};

    /// The log of these areas of a disk. The live one is of this generation and has its next
    /// batch's gate at this place. The other one's gate is open or not, as given.
    pub fn new(disk: D, areas: Areas, generation: u64, next: u64, other_open: bool) -> Self
        requires layout { AreLaidOut areas (length (D.state disk).content) }
        requires room { next < areas.live.end }
        ensures log { log_state D.state result ≡ record {
          disk = D.state disk;
          areas = areas;
          next = next;
          generation = generation;
          other_open = other_open;
        } }
        ensures disk { log_disk result ≡ disk }
    {
        let _len = disk.len();
        Log {
            disk,
            areas,
            next,
            generation,
            other_open,
        }
    }

    /// The number of bytes from the next batch's gate to the live area's end. It is at least one.
    pub fn room(&self) -> u64
        ensures room { (log_state D.state self.now).next + result
            ≡ (log_state D.state self.now).areas.live.end }
        ensures some { 0 < result }
    {
        self.areas.live.end - self.next
    }

    /// The generation of the live area.
    pub fn generation(&self) -> u64
        ensures { result ≡ (log_state D.state self.now).generation }
    {
        self.generation
    }

    /// Whether the other area's gate is open. If so, that area has to be retired before a
    /// checkpoint.
    pub fn is_other_open(&self) -> bool
        ensures { result ≡ (log_state D.state self.now).other_open }
    {
        self.other_open
    }

    /// The length of the other area in bytes.
    pub fn other_len(&self) -> u64
        ensures { (log_state D.state self.now).areas.other.start + result
            ≡ (log_state D.state self.now).areas.other.end }
    {
        self.areas.other.end - self.areas.other.start
    }

    /// Returns the disk.
    pub fn close(self) -> D
        ensures { result ≡ log_disk self }
    {
        self.disk
    }
}

impl<D: Sim> Log<D> {
    ghost use Rattle.gate_log.specs.Log.{log_state, log_disk};

    /// Makes the nth call of the disk from now fail.
    pub fn arm(&mut self, n: u64)
        requires { 0 < n }
        ensures armed { D.failures (log_disk self.old) + 1 < 2 ^ 64
            → D.outlook (log_disk self.new) ≡ FailsAfter (n - 1) }
        ensures same { log_state D.state self.new ≡ log_state D.state self.old }
        ensures failures { D.failures (log_disk self.new) ≡ D.failures (log_disk self.old) }
    {
        self.disk.arm(n);
    }
}
