// Opens a store.
ghost use Rattle.std.specs.Prelude.{◌≡◌, ◌≢◌, ◌+◌, ◌⊎◌, Err, false, length, take};
ghost use Rattle.std.specs.Prelude.{IfErr, MatchResult};
ghost use Rattle.lw_types.specs.declared.refusal.Refusal.TheVariants.{DeviceFailed, OutOfMemory};
ghost use Rattle.disk.specs.Outlook.{IsArmed};
ghost use Rattle.disk.specs.Outlook.Outlook.{AllSucceed, FailsAfter};
ghost use Rattle.disk.specs.State.{NothingOpen};
ghost use Rattle.gate_log.specs.Areas.{AreLaidOut};
ghost use Rattle.gate_log.specs.Opening.{disk_in_opening};
ghost use Rattle.record_codec.specs.Version.{newest};
ghost use Rattle.store.specs.Found.{IsFound, IsOpeningOf};
ghost use Rattle.store.specs.Made.{IsOpenAnswer};
ghost use Rattle.store.specs.State.{store_state, disk_of, HoldsOn, IsOld, IsOpened};

use crate::Store;
use crate::found::Found;
use crate::recover::read_store;
use disk::Disk;
use gate_log::Opening;
use lw_types::Refusal;
use record_codec::NEWEST;
use std::alloc::Global;

/// Opens the store on a disk, as [`open_back`] does.
pub fn open<D: Disk + Drop>(alloc: Global, disk: D) -> Result<Store<D>, Refusal>
    ensures { IsOpenAnswer D.Disk disk (λ refusal. refusal) result }
{
    match open_back(alloc, disk) {
        Ok(store) => Ok(store),
        Err((_, refusal)) => Err(refusal),
    }
}

/// Opens the store on a disk. The disk is synced first, so opening it again after a fault is like
/// opening it after a crash that leaves the content. Refused with `DeviceFailed` exactly if a call
/// of the disk failed. Otherwise a store that is returned has the table and the number that the
/// disk holds. If the disk holds none, the refusal is `OutOfMemory` (see below) or the first of
/// these:
///
/// - `WrongSize` below 32 bytes;
/// - `NotFormatted` for a closed gate or another name;
/// - `WrongVersion` for another version;
/// - `Damaged` for another field out of range;
/// - `WrongSize` for another length than the superblock's;
/// - `Damaged` if no area is live (the gates of both are closed, or both are open with the same
///   generation);
/// - `WrongVersion` for another version of the live area's records;
/// - `Damaged` for anything else that is wrong there. Of the other area only the gate and the
///   generation count.
///
/// `OutOfMemory` is returned if memory runs out, and only if the superblock and the live area's
/// header are in order. With a refusal the disk is returned. The cost grows with the bytes of the
/// live area's journal.
///
/// If the live area's records are of an older version, the table is published in the other area, in
/// the newest version, before the store is returned. That takes four or six more calls of the disk.
/// A crash between two of them leaves the same table and number, and the disk that is returned with
/// a refusal holds them too.
pub fn open_back<D: Disk>(alloc: Global, disk: D) -> Result<Store<D>, (D, Refusal)>
    ensures made { IsOpenAnswer D.Disk disk (λ error. error.1) result }

    // What the returned disk is like.
    ensures device { IfErr result (λ e. (e.1 ≡ DeviceFailed → D.failures e.0 ≡ D.failures disk + 1)
        × (e.1 ≢ DeviceFailed → D.failures e.0 ≡ D.failures disk)) }
    ensures unarmed { D.outlook disk ≡ AllSucceed
        → IfErr result (λ e. D.outlook e.0 ≡ AllSucceed) }

    // An armed failure is used up.
    ensures fails { D.outlook disk ≡ FailsAfter 0
        → IfErr result (λ e. D.outlook e.0 ≡ AllSucceed) }
    ensures armed { IsArmed (D.outlook disk) → MatchResult result
        (λ store. IsArmed (D.outlook (disk_of store)))
        (λ e. (e.1 ≡ DeviceFailed → D.outlook e.0 ≡ AllSucceed)
        × (e.1 ≢ DeviceFailed → IsArmed (D.outlook e.0))) }

    // The disk is written only if the records are of an older version.
    ensures same { D.honest → ¬ (IsOld (D.state disk).content)
        → IfErr result (λ e. (D.state e.0).content ≡ (D.state disk).content) }
    ensures still { D.honest → ¬ (IsOld (D.state disk).content) → NothingOpen (D.state disk)
        → IfErr result (λ e. NothingOpen (D.state e.0)) }

    // Then nothing is open once the sync has succeeded.
    ensures settled { D.honest → ¬ (IsOld (D.state disk).content) → IfErr result
        (λ e. NothingOpen (D.state e.0)
        ⊎ ((e.1 ≡ DeviceFailed) × (D.state e.0 ≡ D.state disk))) }

    // A refusal that isn't the device's comes before anything is written.
    ensures memory { D.honest → IfErr result (λ e. e.1 ≢ DeviceFailed
        → NothingOpen (D.state e.0) × ((D.state e.0).content ≡ (D.state disk).content)) }

    // Each image that a crash may leave of it holds the tables of some image that a crash might
    // have left of the disk before. So a store whose opening was refused can be opened again, with
    // or without a crash between.
    ensures kept { D.honest → IfErr result (λ e. HoldsOn (D.state disk) (D.state e.0)) }
    ensures same_length { IfErr result
        (λ e. length (D.state e.0).content ≡ length (D.state disk).content) }
{
    disk::laws::settled_disk_keeps_its_content();
    gate_log::laws::what_is_held_is_live();
    let mut opening = match Opening::new(disk) {
        Ok(opening) => opening,
        Err((_, disk)) => return Err((disk, Refusal::DeviceFailed)),
    };
    match read_store(alloc, &mut opening) {
        Ok(found) => found.open(alloc, opening),
        Err(refusal) => Err((opening.close(), refusal)),
    }
}

impl Found {
    /// The store with what was found on this disk: as it is if its records are of the newest
    /// version, otherwise after a checkpoint that migrates it.
    pub(crate) fn open<D: Disk>(
        self,
        alloc: Global,
        opening: Opening<D>,
    ) -> Result<Store<D>, (D, Refusal)>
        requires { AreLaidOut self.live.areas (length (D.state (disk_in_opening opening)).content) }
        ensures { IsOpeningOf D.Disk (disk_in_opening opening) self result }
    {
        if self.version == NEWEST {
            return Ok(self.into_store(opening));
        }
        self.migrate(alloc, opening)
    }

    // The store of the newest version with what was found on this disk.
    fn into_store<D: Disk>(self, opening: Opening<D>) -> Store<D>
        requires layout { AreLaidOut self.live.areas
            (length (D.state (disk_in_opening opening)).content) }
        requires version { self.version ≡ newest }
        ensures opened { D.honest → IsFound (D.state (disk_in_opening opening)).content self
            → IsOpened (D.state (disk_in_opening opening)).content (store_state D.state result) }
        ensures healthy { (store_state D.state result).failed ≡ false }
        ensures disk { disk_of result ≡ disk_in_opening opening }
    {
        let Found {
            table,
            seq,
            version: _,
            live,
            next,
        } = self;
        Store::new(opening.into_log(live, next), table, seq)
    }
}
