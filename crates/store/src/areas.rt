// The areas of a store's disk.
ghost use Rattle.std.specs.Prelude.{◌≡◌};
ghost use Rattle.store.specs.Image.{area_a, area_b, last_generation};

use gate_log::{Area, Areas};
use store_layout::{RecordVersion, Superblock};

/// The version of the records in an area of a new store.
pub const RECORD_VERSION: u8 = 2;

/// The greatest generation of an area.
pub const LAST_GENERATION: u64 = (1 << 63) - 1;

/// The greatest generation of an area with records of an older version. One more generation has to
/// follow it.
pub const LAST_OLD_GENERATION: u64 = LAST_GENERATION - 1;

/// The greatest generation of an area with records of a version.
pub(crate) fn last_generation(version: RecordVersion) -> u64
    ensures { result ≡ last_generation version }
{
    match version {
        RecordVersion::V1 => LAST_OLD_GENERATION,
        RecordVersion::V2 => LAST_GENERATION,
    }
}

/// The area after the superblock.
pub(crate) fn first_area(superblock: &Superblock) -> Area
    ensures { result ≡ area_a superblock.now.slots }
{
    let start = Superblock::LEN as u64;
    Area {
        start,
        end: start + superblock.area_len(),
    }
}

/// The area after the first one.
pub(crate) fn second_area(superblock: &Superblock) -> Area
    ensures { result ≡ area_b superblock.now.slots }
{
    let first = first_area(superblock);
    Area {
        start: first.end,
        end: first.end + superblock.area_len(),
    }
}

/// Both areas, as they lie on a new disk: the first one is the live one.
pub(crate) fn both_areas(superblock: &Superblock) -> Areas
    ensures { result ≡ record {
      live = area_a superblock.now.slots;
      other = area_b superblock.now.slots;
    } }
{
    Areas {
        live: first_area(superblock),
        other: second_area(superblock),
    }
}
