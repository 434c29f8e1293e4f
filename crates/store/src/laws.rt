//! What follows from a store's definitions alone. These functions do nothing: their contracts are
//! the laws.
ghost use Rattle.std.specs.Prelude.{◌≡◌, ◌+◌, ◌^◌, ℕ, List};
ghost use Rattle.disk.specs.State.{EveryImage};
ghost use Rattle.sessions.specs.Marks.{IsSound};
ghost use Rattle.sessions.specs.Table.{TableState};
ghost use Rattle.store.specs.Image.{HoldsTable};
ghost use Rattle.store.specs.State.{StoreState, IsSettled};

use crate::{LARGEST_BATCH, LAST_GENERATION, LAST_OLD_GENERATION, RECORD_VERSION};

/// If a store has nothing under way, each image that a crash may leave of its disk holds its table
/// and its number.
pub fn a_settled_store_is_on_its_disk()
    ensures { (s : StoreState) → IsSettled s → EveryImage s.log.disk (HoldsTable s.table s.seq) }
{
    disk::laws::settled_disk_keeps_its_content();
}

/// Each table that an image holds, in records of any version, is sound: each DevEUI stands at one
/// slot, and the sessions of each device are in order.
pub fn what_is_held_is_sound()
    ensures { (t : TableState) (seq : ℕ) (image : List ℕ) → HoldsTable t seq image → IsSound t }
{
    sessions::laws::no_mark_stands_twice();
    store_layout::laws::entries_lead_to_sound_tables();
}

/// The size of the largest batch, the greatest generation of an area, in general and for records of
/// an older version, and the version of a new store's records.
pub fn limits_are_these()
    ensures largest { LARGEST_BATCH ≡ 275536 }
    ensures generation { LAST_GENERATION + 1 ≡ 2 ^ 63 }
    ensures old_generation { LAST_OLD_GENERATION + 2 ≡ 2 ^ 63 }
    ensures version { RECORD_VERSION ≡ 2 }
{}
