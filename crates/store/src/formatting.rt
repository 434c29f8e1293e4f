// Makes a store on a new disk.
ghost use Rattle.std.specs.Prelude.{◌≡◌, ◌≢◌, ◌<◌, ◌≤◌, ◌+◌, false, [], ◌∷◌, length, take, drop};
ghost use Rattle.std.specs.Prelude.{IfOk, IfErr, OnOk, MatchResult, IsTrue, is_ok};
ghost use Rattle.lw_types.specs.declared.refusal.Refusal.TheVariants.{DeviceFailed, OutOfMemory};
ghost use Rattle.disk.specs.Outlook.{HasCause};
ghost use Rattle.disk.specs.Outlook.Outlook.{AllSucceed};
ghost use Rattle.disk.specs.State.{EveryImage, IsTorn, NothingOpen, bytes_after_write};
ghost use Rattle.gate_log.specs.declared.layout.TheConstants.{RECORDS_AT};
ghost use Rattle.gate_log.specs.Areas.{HoldsIn, IsClosedArea};
ghost use Rattle.gate_log.specs.Layout.{checkpoint, fresh_header};
ghost use Rattle.sessions.specs.Table.{IsSlots, empty_table};
ghost use Rattle.store_layout.specs.Superblock.{disk_len, superblock as superblock_bytes};
ghost use Rattle.store_layout.specs.Superblock.{superblock_body};
ghost use Rattle.store.specs.Formatting.{IsFormatImage, IsShut, IsShutImage};
ghost use Rattle.store.specs.Image.{area_a, area_b};
ghost use Rattle.store.specs.Made.{IsFormatAnswer};
ghost use Rattle.store.specs.State.{store_state, disk_of, IsSettled};

use crate::Store;
use crate::areas::{RECORD_VERSION, both_areas, first_area, second_area};
use disk::Disk;
use gate_log::{CLOSED, Log, OPEN, close_area, format_area, laws};
use lw_types::{NetId, Refusal};
use sessions::{Slots, Table};
use std::alloc::Global;
use store_layout::Superblock;

/// The length in bytes of the disk of a store with `slots` slots.
pub fn disk_len(slots: Slots) -> u64
    ensures { result ≡ disk_len slots }
{
    let net_id = NetId::new(0).unwrap();
    Superblock { net_id, slots }.disk_len()
}

/// Makes a store without devices, as [`format_back`] does.
pub fn format<D: Disk + Drop>(
    alloc: Global,
    disk: D,
    net_id: NetId,
    slots: u64,
) -> Result<Store<D>, Refusal>
    ensures { IsFormatAnswer D.Disk disk net_id slots (λ refusal. refusal) result }
{
    match format_back(alloc, disk, net_id, slots) {
        Ok(store) => Ok(store),
        Err((_, refusal)) => Err(refusal),
    }
}

/// Makes a store without devices. Refused with `Damaged` exactly if `slots` is not from 1 to 4,096.
/// Otherwise refused with `WrongSize` exactly if the disk doesn't have the length of such a store,
/// else with `DeviceFailed` exactly if a call of the disk failed. Refused with `OutOfMemory` if
/// memory runs out, before any call. With a refusal the disk is returned, unchanged except after
/// `DeviceFailed`. It makes eight calls of the disk, and its cost grows with the number of slots.
///
/// On a disk with nothing open: if this fails, or is interrupted between two calls, a crash leaves
/// no store, the new one, or everything after the first byte as it was.
pub fn format_back<D: Disk>(
    alloc: Global,
    disk: D,
    net_id: NetId,
    slots: u64,
) -> Result<Store<D>, (D, Refusal)>
    ensures made { IsFormatAnswer D.Disk disk net_id slots (λ error. error.1) result }
    ensures device { IfErr result (λ e. (e.1 ≡ DeviceFailed → D.failures e.0 ≡ D.failures disk + 1)
        × (e.1 ≢ DeviceFailed → e.0 ≡ disk)) }
    ensures images { D.honest → NothingOpen (D.state disk) → IfErr result
        (λ e. EveryImage (D.state e.0) (IsFormatImage net_id slots (D.state disk).content)) }
{
    disk::laws::settled_disk_keeps_its_content();
    laws::a_closed_area_is_older();
    let Some(slots) = Slots::new(slots) else {
        return Err((disk, Refusal::Damaged));
    };
    let superblock = Superblock { net_id, slots };
    if disk.len() != superblock.disk_len() {
        return Err((disk, Refusal::WrongSize));
    }
    let table = match Table::new(alloc, net_id, slots) {
        Ok(table) => table,
        Err(refusal) => return Err((disk, refusal)),
    };
    let mut disk = disk;
    match write_empty(&mut disk, &superblock) {
        Ok(next) => Ok(Store::new(
            Log::new(disk, both_areas(&superblock), 1, next, false),
            table,
            0,
        )),
        Err(_) => Err((disk, Refusal::DeviceFailed)),
    }
}

// Writes a store without devices, and returns the place of the first batch's gate. The superblock's
// gate is closed first, and opened last, when everything else is on the disk.
fn write_empty<D: Disk>(disk: &mut D, superblock: &Superblock) -> Result<u64, disk::DeviceFailed>
    requires { length (D.state disk.old).content ≡ disk_len superblock.now.slots }
    ensures area { D.honest → OnOk result (HoldsIn (area_a superblock.now.slots)
        (checkpoint (fresh_header RECORD_VERSION) []) (D.state disk.new).content) }
    ensures other_area { D.honest → OnOk result
        (IsClosedArea (area_b superblock.now.slots) (D.state disk.new).content) }
    ensures front { D.honest → OnOk result (take Superblock.LEN (D.state disk.new).content
        ≡ superblock_bytes superblock.now.net_id superblock.now.slots) }
    ensures settled { D.honest → OnOk result (NothingOpen (D.state disk.new)) }
    ensures images { D.honest → NothingOpen (D.state disk.old) → EveryImage (D.state disk.new)
        (IsFormatImage superblock.now.net_id superblock.now.slots (D.state disk.old).content) }
    ensures in_range { OnOk result ((superblock.now.net_id < 64) × IsSlots superblock.now.slots) }
    ensures next { IfOk result (λ next. next ≡ (area_a superblock.now.slots).start + RECORDS_AT) }
    ensures same_length { length (D.state disk.new).content ≡ length (D.state disk.old).content }
    ensures cause { HasCause (D.failures disk.old) (D.failures disk.new) result }
    ensures unarmed { D.outlook disk.old ≡ AllSucceed
        → IsTrue (is_ok result) × (D.outlook disk.new ≡ AllSucceed) }
{
    laws::a_journal_stays_where_others_change();
    laws::a_closed_area_is_older();
    let next = write_shut(disk, superblock)?;
    open_front(disk)?;
    Ok(next)
}

// Writes all except the superblock's open gate, and syncs it. While that gate is closed the disk
// holds no store.
pub(crate) fn write_shut<D: Disk>(
    disk: &mut D,
    superblock: &Superblock,
) -> Result<u64, disk::DeviceFailed>
    requires { length (D.state disk.old).content ≡ disk_len superblock.now.slots }
    ensures area { D.honest → OnOk result (HoldsIn (area_a superblock.now.slots)
        (checkpoint (fresh_header RECORD_VERSION) []) (D.state disk.new).content) }
    ensures other_area { D.honest → OnOk result
        (IsClosedArea (area_b superblock.now.slots) (D.state disk.new).content) }
    ensures body { D.honest → OnOk result (drop 1 (take Superblock.LEN (D.state disk.new).content)
        ≡ superblock_body superblock.now.net_id superblock.now.slots) }
    ensures shut { D.honest → OnOk result (IsShut (D.state disk.new)) }
    ensures settled { D.honest → OnOk result (NothingOpen (D.state disk.new)) }
    ensures images { D.honest → NothingOpen (D.state disk.old)
        → EveryImage (D.state disk.new) (IsShutImage (D.state disk.old).content) }
    ensures in_range { OnOk result ((superblock.now.net_id < 64) × IsSlots superblock.now.slots) }
    ensures next { IfOk result (λ next. next ≡ (area_a superblock.now.slots).start + RECORDS_AT) }
    ensures same_length { length (D.state disk.new).content ≡ length (D.state disk.old).content }
    ensures cause { HasCause (D.failures disk.old) (D.failures disk.new) result }
    ensures unarmed { D.outlook disk.old ≡ AllSucceed
        → IsTrue (is_ok result) × (D.outlook disk.new ≡ AllSucceed) }
{
    disk::laws::settled_disk_keeps_its_content();
    shut(disk)?;
    let next = write_closed(disk, superblock)?;
    disk.sync()?;
    Ok(next)
}

/// Closes the superblock's gate.
pub(crate) fn shut<D: Disk>(disk: &mut D) -> Result<(), disk::DeviceFailed>
    requires { 1 ≤ length (D.state disk.old).content }
    ensures shut { D.honest → OnOk result (IsShut (D.state disk.new)) }
    ensures images { D.honest → NothingOpen (D.state disk.old) → EveryImage (D.state disk.new)
        (λ image. drop 1 image ≡ drop 1 (D.state disk.old).content) }
    ensures same_length { length (D.state disk.new).content ≡ length (D.state disk.old).content }
    ensures cause { HasCause (D.failures disk.old) (D.failures disk.new) result }
    ensures unarmed { D.outlook disk.old ≡ AllSucceed
        → IsTrue (is_ok result) × (D.outlook disk.new ≡ AllSucceed) }
{
    disk::laws::one_write_tears_its_range();
    disk::laws::settled_disk_keeps_its_content();
    disk.write_at(0, &[CLOSED])?;
    disk.sync()
}

// Opens the superblock's gate.
pub(crate) fn open_front<D: Disk>(disk: &mut D) -> Result<(), disk::DeviceFailed>
    requires { 1 ≤ length (D.state disk.old).content }
    ensures opened { D.honest → OnOk result ((D.state disk.new).content
        ≡ bytes_after_write (D.state disk.old).content 0 (OPEN ∷ [])) }
    ensures settled { D.honest → OnOk result (NothingOpen (D.state disk.new)) }
    ensures images { D.honest → NothingOpen (D.state disk.old) → EveryImage (D.state disk.new)
        (IsTorn 0 1 (D.state disk.old).content) }
    ensures same_length { length (D.state disk.new).content ≡ length (D.state disk.old).content }
    ensures cause { HasCause (D.failures disk.old) (D.failures disk.new) result }
    ensures unarmed { D.outlook disk.old ≡ AllSucceed
        → IsTrue (is_ok result) × (D.outlook disk.new ≡ AllSucceed) }
{
    disk::laws::one_write_tears_its_range();
    disk::laws::settled_disk_keeps_its_content();
    disk.write_at(0, &[OPEN])?;
    disk.sync()
}

// Writes the superblock after its gate, and the gates of both areas.
fn write_closed<D: Disk>(disk: &mut D, superblock: &Superblock) -> Result<u64, disk::DeviceFailed>
    requires { length (D.state disk.old).content ≡ disk_len superblock.now.slots }
    ensures area { D.honest → OnOk result (HoldsIn (area_a superblock.now.slots)
        (checkpoint (fresh_header RECORD_VERSION) []) (D.state disk.new).content) }
    ensures other_area { D.honest → OnOk result
        (IsClosedArea (area_b superblock.now.slots) (D.state disk.new).content) }
    ensures body { D.honest → OnOk result (drop 1 (take Superblock.LEN (D.state disk.new).content)
        ≡ superblock_body superblock.now.net_id superblock.now.slots) }
    ensures shut { D.honest → IsShut (D.state disk.old) → IsShut (D.state disk.new) }
    ensures in_range { (superblock.now.net_id < 64) × IsSlots superblock.now.slots }
    ensures next { IfOk result (λ next. next ≡ (area_a superblock.now.slots).start + RECORDS_AT) }
    ensures same_length { length (D.state disk.new).content ≡ length (D.state disk.old).content }
    ensures cause { HasCause (D.failures disk.old) (D.failures disk.new) result }
    ensures unarmed { D.outlook disk.old ≡ AllSucceed
        → IsTrue (is_ok result) × (D.outlook disk.new ≡ AllSucceed) }
{
    let bytes = superblock.to_bytes();
    disk.write_at(1, &bytes[1..])?;
    close_area(disk, second_area(superblock))?;
    format_area(disk, first_area(superblock), RECORD_VERSION)
}
