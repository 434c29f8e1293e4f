// Reads what the disk of a store holds.
ghost use Rattle.std.specs.Prelude.{◌≡◌, ◌≢◌, ◌<◌, ◌≤◌, ◌+◌, ◌⊎◌, ℕ, length, take, IfOk, IfErr};
ghost use Rattle.std.specs.Prelude.{MatchResult};
ghost use Rattle.lw_types.specs.declared.refusal.Refusal.TheVariants.{Damaged, DeviceFailed};
ghost use Rattle.lw_types.specs.declared.refusal.Refusal.TheVariants.{OutOfMemory, WrongVersion};
ghost use Rattle.gate_log.specs.declared.layout.TheConstants.{EMPTY_AREA_LEN};
ghost use Rattle.gate_log.specs.declared.layout.Area.{Area};
ghost use Rattle.gate_log.specs.Areas.{AreLaidOut, AreOf, LogContents, Holds};
ghost use Rattle.gate_log.specs.Live.{IsLiveAs};
ghost use Rattle.gate_log.specs.Opening.{disk_in_opening};
ghost use Rattle.gate_log.specs.Recover.{OnlyReads};
ghost use Rattle.gate_log.specs.Recovered.{IsRecovered};
ghost use Rattle.record_codec.specs.Version.{version_byte};
ghost use Rattle.store_layout.specs.Superblock.{disk_len};
ghost use Rattle.store.specs.Faults.{HasGoodFront, HeaderFault, IsFault, IsKnown, IsStoreOf};
ghost use Rattle.store.specs.Faults.{IsUsable};
ghost use Rattle.store.specs.Found.{IsFound, is_device_refusal};
ghost use Rattle.store.specs.Image.{AreAreas};

use crate::area_table::area_table;
use crate::areas::{first_area, last_generation, second_area};
use crate::found::Found;
use disk::Disk;
use gate_log::{Area, Header, Live, Opening, RecoverError, Recovered};
use lw_types::Refusal;
use std::alloc::Global;
use store_layout::{RecordVersion, Superblock, laws};

/// What stands at the beginning of a store's disk: its superblock, the live area, and the version
/// of the records there.
#[derive(Clone, Copy)]
struct StoreFront {
    superblock: Superblock,
    live: Live,
    version: RecordVersion,
}

/// Reads the store on a disk.
pub(crate) fn read_store<D: Disk>(alloc: Global, opening: &mut Opening<D>) -> Result<Found, Refusal>
    ensures found { D.honest → IfOk result
        (IsFound (D.state (disk_in_opening opening.old)).content) }
    ensures layout { IfOk result
        (λ found. AreLaidOut found.live.areas
        (length (D.state (disk_in_opening opening.old)).content)) }
    ensures refused { D.honest → IfErr result (λ e. e ≢ DeviceFailed → e ≢ OutOfMemory
        → IsFault (D.state (disk_in_opening opening.old)).content e) }
    ensures memory { D.honest → IfErr result (λ e. e ≡ OutOfMemory
        → HasGoodFront (D.state (disk_in_opening opening.old)).content) }
    ensures reads { OnlyReads D.honest D.state D.failures D.outlook
        (disk_in_opening opening.old) (disk_in_opening opening.new) (is_device_refusal result) }
{
    gate_log::laws::what_is_held_is_live();
    gate_log::laws::one_area_is_live();
    gate_log::laws::none_live_holds_nothing();
    gate_log::laws::a_disk_holds_one_contents();
    laws::entries_keep_the_network();
    let front = read_store_front(opening)?;
    let recovered = recover(alloc, opening, front.live)?;
    let (table, seq) = area_table(alloc, &front.superblock, front.version, &recovered)?;
    Ok(Found {
        table,
        seq,
        version: front.version,
        live: front.live,
        next: recovered.next,
    })
}

// The superblock, and the live area. Takes no memory.
fn read_store_front<D: Disk>(opening: &mut Opening<D>) -> Result<StoreFront, Refusal>
    ensures store { D.honest → IfOk result
        (λ f. IsStoreOf (D.state (disk_in_opening opening.old)).content f.superblock.net_id
        f.superblock.slots) }
    ensures only { D.honest → IfOk result (λ f. (net_id slots : ℕ)
        → IsStoreOf (D.state (disk_in_opening opening.old)).content net_id slots
        → (net_id ≡ f.superblock.net_id) × (slots ≡ f.superblock.slots)) }
    ensures long { IfOk result
        (λ f. length (D.state (disk_in_opening opening.old)).content
        ≡ disk_len f.superblock.slots) }
    ensures layout { IfOk result
        (λ f. AreLaidOut f.live.areas (length (D.state (disk_in_opening opening.old)).content)) }
    ensures areas { IfOk result (λ f. AreAreas f.superblock.slots f.live.areas) }
    ensures live { D.honest → IfOk result
        (λ f. IsLiveAs f.live (D.state (disk_in_opening opening.old)).content) }
    ensures version { IfOk result (λ f. f.live.header.version ≡ version_byte f.version) }
    ensures usable { IfOk result (λ f. IsUsable f.live.areas.live f.live.header) }
    ensures refused { D.honest → IfErr result (λ e. e ≢ DeviceFailed
        → IsFault (D.state (disk_in_opening opening.old)).content e) }
    ensures memory { IfErr result (λ e. e ≢ OutOfMemory) }
    ensures reads { OnlyReads D.honest D.state D.failures D.outlook
        (disk_in_opening opening.old) (disk_in_opening opening.new) (is_device_refusal result) }
{
    gate_log::laws::what_is_held_is_live();
    gate_log::laws::one_area_is_live();
    gate_log::laws::none_live_holds_nothing();
    gate_log::laws::a_disk_holds_one_contents();
    let superblock = read_superblock(opening)?;
    let (live, version) = read_live(opening, &superblock)?;
    Ok(StoreFront {
        superblock,
        live,
        version,
    })
}

// The superblock of a store whose disk has its length.
fn read_superblock<D: Disk>(opening: &mut Opening<D>) -> Result<Superblock, Refusal>
    ensures found { D.honest → IfOk result
        (λ s. IsStoreOf (D.state (disk_in_opening opening.old)).content s.net_id s.slots) }
    ensures only { D.honest → IfOk result (λ s. (net_id slots : ℕ)
        → IsStoreOf (D.state (disk_in_opening opening.old)).content net_id slots
        → (net_id ≡ s.net_id) × (slots ≡ s.slots)) }
    ensures length { IfOk result
        (λ s. length (D.state (disk_in_opening opening.old)).content ≡ disk_len s.slots) }
    ensures refused { D.honest → IfErr result (λ e. e ≢ DeviceFailed
        → IsFault (D.state (disk_in_opening opening.old)).content e) }
    ensures memory { IfErr result (λ e. e ≢ OutOfMemory) }
    ensures reads { OnlyReads D.honest D.state D.failures D.outlook
        (disk_in_opening opening.old) (disk_in_opening opening.new) (is_device_refusal result) }
{
    if opening.len() < Superblock::LEN as u64 {
        return Err(Refusal::WrongSize);
    }
    let bytes = superblock_bytes(opening)?;
    let superblock = Superblock::from_bytes(&bytes)?;
    if opening.len() != superblock.disk_len() {
        return Err(Refusal::WrongSize);
    }
    Ok(superblock)
}

// The first bytes of the disk.
fn superblock_bytes<D: Disk>(opening: &mut Opening<D>) -> Result<[u8; 32], Refusal>
    requires { Superblock.LEN ≤ length (D.state (disk_in_opening opening.old)).content }
    ensures bytes { D.honest → IfOk result
        (λ bytes. bytes ≡ take Superblock.LEN (D.state (disk_in_opening opening.old)).content) }
    ensures refused { IfErr result (λ e. e ≡ DeviceFailed) }
    ensures reads { OnlyReads D.honest D.state D.failures D.outlook
        (disk_in_opening opening.old) (disk_in_opening opening.new) (is_device_refusal result) }
{
    let mut bytes = [0; Superblock::LEN];
    match opening.read_at(0, &mut bytes) {
        Ok(()) => Ok(bytes),
        Err(_) => Err(Refusal::DeviceFailed),
    }
}

// The live area, if its header is usable, and the version of its records.
fn read_live<D: Disk>(
    opening: &mut Opening<D>,
    superblock: &Superblock,
) -> Result<(Live, RecordVersion), Refusal>
    requires { length (D.state (disk_in_opening opening.old)).content
        ≡ disk_len superblock.now.slots }
    ensures layout { IfOk result
        (λ r. AreLaidOut r.0.areas (length (D.state (disk_in_opening opening.old)).content)) }
    ensures areas { IfOk result (λ r. AreAreas superblock.now.slots r.0.areas) }
    ensures live { D.honest → IfOk result
        (λ r. IsLiveAs r.0 (D.state (disk_in_opening opening.old)).content) }
    ensures version { IfOk result (λ r. r.0.header.version ≡ version_byte r.1) }
    ensures usable { IfOk result (λ r. IsUsable r.0.areas.live r.0.header) }
    ensures refused { D.honest → IfErr result (λ e. e ≢ DeviceFailed
        → HeaderFault (D.state (disk_in_opening opening.old)).content superblock.now.slots e) }
    ensures memory { IfErr result (λ e. e ≢ OutOfMemory) }
    ensures reads { OnlyReads D.honest D.state D.failures D.outlook
        (disk_in_opening opening.old) (disk_in_opening opening.new) (is_device_refusal result) }
{
    match opening.live(first_area(superblock), second_area(superblock)) {
        Ok(Some(live)) => {
            let version = usable_version(live.header, live.areas.live)?;
            Ok((live, version))
        }
        Ok(None) => Err(Refusal::Damaged),
        Err(_) => Err(Refusal::DeviceFailed),
    }
}

// The version of the records after a header, if the header is usable.
fn usable_version(header: Header, area: Area) -> Result<RecordVersion, Refusal>
    requires { area.start + EMPTY_AREA_LEN ≤ area.end }
    ensures { MatchResult result
        (λ version. (header.version ≡ version_byte version) × IsUsable area header)
        (λ e. ((¬ (IsKnown header.version)) × (e ≡ WrongVersion))
        ⊎ (IsKnown header.version × ((¬ (IsUsable area header)) × (e ≡ Damaged)))) }
{
    let Some(version) = RecordVersion::of(header.version) else {
        return Err(Refusal::WrongVersion);
    };
    if header.generation > last_generation(version) || !header.fits(area) {
        return Err(Refusal::Damaged);
    }
    Ok(version)
}

// What the live area holds.
fn recover<D: Disk>(
    alloc: Global,
    opening: &mut Opening<D>,
    live: Live,
) -> Result<Recovered, Refusal>
    requires layout { AreLaidOut live.areas
        (length (D.state (disk_in_opening opening.old)).content) }
    requires usable { IsUsable live.areas.live live.header }
    ensures recovered { D.honest → IsLiveAs live (D.state (disk_in_opening opening.old)).content
        → IfOk result (IsRecovered live.areas (D.state (disk_in_opening opening.old)).content) }
    ensures header { IfOk result (λ recovered. recovered.header ≡ live.header) }
    ensures next { IfOk result (λ recovered. recovered.next < live.areas.live.end) }
    ensures refused { D.honest → IsLiveAs live (D.state (disk_in_opening opening.old)).content
        → IfErr result (λ e. e ≢ DeviceFailed → e ≢ OutOfMemory → (e ≡ Damaged)
        × ((a b : Area) → AreOf a b live.areas → (c : LogContents) → AreOf a b c.areas
        → ¬ Holds c (D.state (disk_in_opening opening.old)).content)) }
    ensures reads { OnlyReads D.honest D.state D.failures D.outlook
        (disk_in_opening opening.old) (disk_in_opening opening.new) (is_device_refusal result) }
{
    match opening.recover(alloc, live) {
        Ok(recovered) => Ok(recovered),
        Err(RecoverError::Device) => Err(Refusal::DeviceFailed),
        Err(RecoverError::OutOfMemory) => Err(Refusal::OutOfMemory),
        Err(RecoverError::Damaged) => Err(Refusal::Damaged),
    }
}
