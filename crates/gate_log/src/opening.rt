// Opens the log of a disk.
ghost use Rattle.std.specs.Prelude.{◌≡◌, ◌<◌, ◌≤◌, ◌+◌, Err, length, take, drop, IfOk, IfErr, OnOk};
ghost use Rattle.std.specs.Prelude.{MatchOption, is_ok, is_err};
ghost use Rattle.disk.specs.State.{NothingOpen};
ghost use Rattle.disk.specs.Outlook.{IsForeseen, HasCause};
ghost use Rattle.gate_log.specs.declared.layout.Area.{Area};
ghost use Rattle.gate_log.specs.Areas.{AreLaidOut, AreOf, LogContents, Holds, IsLiveArea};
ghost use Rattle.gate_log.specs.Areas.{NoLiveArea};
ghost use Rattle.gate_log.specs.Layout.{HasRoomFor, spelling};
ghost use Rattle.gate_log.specs.Recover.{OnlyReads, has_device_error};

use crate::error::RecoverError;
use crate::layout::Area;
use crate::live::Live;
use crate::log::Log;
use crate::reading::read_header;
use crate::recover::{Recovered, recover_area};
use disk::{DeviceFailed, Disk};
use std::alloc::Global;

/// A disk whose log is being opened. It is synced first, so none of its positions is open. Opening
/// it again after a fault is like opening it after a crash that leaves the content.
#[derive(Drop)]
pub struct Opening<D: Disk> {
    disk: D,
    ghost settled: { D.honest → NothingOpen (D.state disk) },
}

impl<D: Disk> Opening<D> {
    ghost use Rattle.gate_log.specs.Log.{log_state, log_disk, IsAtRest};
    ghost use Rattle.gate_log.specs.Live.{IsLiveAs};
    ghost use Rattle.gate_log.specs.Opening.{disk_in_opening, synced_disk};
    ghost use Rattle.gate_log.specs.Recovered.{IsRecovered};

    /// Syncs the disk. If that fails, the disk is returned.
    pub fn new(disk: D) -> Result<Self, (DeviceFailed, D)>
        ensures settled { D.honest
            → IfOk result (λ opening. NothingOpen (D.state (disk_in_opening opening))) }
        ensures content { D.honest
            → (D.state (synced_disk result)).content ≡ (D.state disk).content }
        ensures failed { D.honest → IfErr result (λ e. D.state e.1 ≡ D.state disk) }
        ensures same_length { length (D.state (synced_disk result)).content
            ≡ length (D.state disk).content }
        ensures cause { HasCause (D.failures disk) (D.failures (synced_disk result)) result }
        ensures foreseen { IsForeseen (D.outlook disk) (is_ok result)
            (D.outlook (synced_disk result)) }
    {
        let mut disk = disk;
        match disk.sync() {
            Ok(()) => Ok(Opening { disk }),
            Err(error) => Err((error, disk)),
        }
    }

    /// The length of the disk in bytes.
    pub fn len(&self) -> u64
        ensures { result ≡ length (D.state (disk_in_opening self.now)).content }
    {
        self.disk.len()
    }

    /// Fills the buffer with the bytes of the disk that begin at a position.
    #[tactic(auto, using(crate::proofs::ReadsOn::armed_call))]
    pub fn read_at(&mut self, at: u64, buffer: &mut [u8]) -> Result<(), DeviceFailed>
        requires { at + length buffer.old ≤ length (D.state (disk_in_opening self.old)).content }
        ensures bytes { D.honest
            → OnOk result (buffer.new
            ≡ take (length buffer.old) (drop at (D.state (disk_in_opening self.old)).content)) }
        ensures reads { OnlyReads D.honest D.state D.failures D.outlook
            (disk_in_opening self.old) (disk_in_opening self.new) (is_err result) }
    {
        self.disk.read_at(at, buffer)
    }

    /// Returns which of two areas is the live one: the one of the greater generation among those
    /// whose gates are open. Returns `None` if both gates are closed, or both open with the same
    /// generation. It reads both headers, and nothing else of the area that isn't live.
    pub fn live(&mut self, a: Area, b: Area) -> Result<Option<Live>, DeviceFailed>
        requires layout { AreLaidOut (record { live = a; other = b })
            (length (D.state (disk_in_opening self.old)).content) }
        ensures live { D.honest → IfOk result
            (λ live. MatchOption live
            (NoLiveArea a b (D.state (disk_in_opening self.old)).content)
            (λ l. IsLiveAs l (D.state (disk_in_opening self.old)).content)) }
        ensures areas { IfOk result (λ live. MatchOption live (Unit {0}) (λ l. AreOf a b l.areas)) }
        ensures layout { IfOk result (λ live. MatchOption live (Unit {0})
            (λ l. AreLaidOut l.areas (length (D.state (disk_in_opening self.old)).content))) }
        ensures reads { OnlyReads D.honest D.state D.failures D.outlook
            (disk_in_opening self.old) (disk_in_opening self.new) (is_err result) }
    {
        let header_a = read_header(&mut self.disk, a.start)?;
        let header_b = read_header(&mut self.disk, b.start)?;
        Ok(Live::of(a, header_a, b, header_b))
    }

    /// Returns what the disk holds: the live area's checkpoint and the longest list of open batches
    /// after it. `Damaged` is returned only if the disk holds nothing.
    pub fn recover(&mut self, alloc: Global, live: Live) -> Result<Recovered, RecoverError>
        requires layout { AreLaidOut live.areas
            (length (D.state (disk_in_opening self.old)).content) }
        requires room { HasRoomFor live.areas.live live.header }
        ensures recovered { D.honest
            → IsLiveArea live.areas live.header (D.state (disk_in_opening self.old)).content
            → IfOk result (IsRecovered live.areas (D.state (disk_in_opening self.old)).content) }
        ensures header { IfOk result (λ recovered. recovered.header ≡ live.header) }
        ensures next { IfOk result (λ recovered. recovered.next < live.areas.live.end) }
        ensures damaged { D.honest → IsLiveArea live.areas live.header
            (D.state (disk_in_opening self.old)).content
            → result ≡ Err RecoverError.Damaged → (a b : Area) → AreOf a b live.areas
            → (c : LogContents) → AreOf a b c.areas
            → ¬ Holds c (D.state (disk_in_opening self.old)).content }
        ensures reads { OnlyReads D.honest D.state D.failures D.outlook
            (disk_in_opening self.old) (disk_in_opening self.new) (has_device_error result) }
    {
        recover_area(&mut self.disk, alloc, live.areas.live, live.header)
    }

    /// The log of the disk, with the next batch's gate at this place in the live area.
    pub fn into_log(self, live: Live, next: u64) -> Log<D>
        requires layout { AreLaidOut live.areas (length (D.state (disk_in_opening self)).content) }
        requires room { next < live.areas.live.end }
        ensures log { log_state D.state result ≡ record {
          disk = D.state (disk_in_opening self);
          areas = live.areas;
          next = next;
          generation = live.header.generation;
          other_open = live.other_open;
        } }
        ensures disk { log_disk result ≡ disk_in_opening self }
        ensures rest { D.honest → (c : LogContents)
            → Holds c (D.state (disk_in_opening self)).content
            → IsLiveAs live (D.state (disk_in_opening self)).content → c.areas ≡ live.areas
            → c.journal.header ≡ live.header
            → next ≡ c.areas.live.start + length (spelling c.journal)
            → IsAtRest (log_state D.state result) c }
        ensures settled { D.honest → NothingOpen (D.state (disk_in_opening self)) }
    {
        Log::new(
            self.disk,
            live.areas,
            live.header.generation,
            next,
            live.other_open,
        )
    }

    /// Returns the disk.
    pub fn close(self) -> D
        ensures disk { result ≡ disk_in_opening self }
        ensures settled { D.honest → NothingOpen (D.state result) }
    {
        self.disk
    }
}
