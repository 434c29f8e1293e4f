// The groups of a change, read one after another.
ghost use Rattle.std.specs.Prelude.{◌≡◌, ◌≤◌, ◌/◌, ℕ, IfSome, List, length, option_map};
ghost use Rattle.byte_fields.specs.Reading.{Gives, GivesSeen};
ghost use Rattle.record_codec.specs.Reading.{awaited_at, current_at, mac_queue_at, optional_by};
ghost use Rattle.record_codec.specs.Reading.{session_at};
ghost use Rattle.record_codec.specs.ChangeReading.{change_at, counters_at, group_at, is_odd};
ghost use Rattle.record_codec.specs.ChangeReading.{item_change_at, last_bit_at, nonces_at};
ghost use Rattle.record_codec.specs.Parts.{groups_of_parts, item_change_of_parts, AreShort};
ghost use Rattle.record_codec.specs.Parts.{IsShortChange};

use crate::activation_fields::{read_granted, read_optional_current, read_optional_session};
use crate::device_record::{read_awaited, read_dev_nonce};
use crate::parts::{Counters, GroupParts, ItemChangePart, Nonces};
use crate::queues::{read_item, read_mac_queue};
use crate::version::RecordVersion;
use byte_fields::FieldReader;
use devices::{CurrentSession, MacQueue, NextDown, Session, Tag};

// Which groups are present: a bit for each, the lowest for the next one. After them comes one bit
// for the count of uplinks.
#[derive(Clone, Copy)]
struct Mask {
    bits: u8,
}

impl Mask {
    // Whether the next group is present.
    fn next(&mut self) -> bool
        ensures value { result ≡ is_odd self.old.bits }
        ensures others { self.new.bits ≡ self.old.bits / 2 }
    {
        let is_there = self.bits % 2 == 1;
        self.bits /= 2;
        is_there
    }

    // Whether the count grew, from the bit that is left. Version 1 has no such bit.
    fn last(self, version: RecordVersion) -> Option<bool>
        ensures { (bytes : List ℕ) → Gives result bytes (last_bit_at version self.bits bytes) }
    {
        match (version, self.bits) {
            (_, 0) => Some(false),
            (RecordVersion::V2, 1) => Some(true),
            _ => None,
        }
    }
}

fn read_nonces(fields: &mut FieldReader<'_>, is_there: bool) -> Option<Option<Nonces>>
    ensures { Gives result fields.new.rest.now (group_at nonces_at is_there fields.old.rest.now) }
{
    if is_there {
        let dev_nonce = read_dev_nonce(fields)?;
        Some(Some((dev_nonce, read_granted(fields)?)))
    } else {
        Some(None)
    }
}

fn read_current(
    fields: &mut FieldReader<'_>,
    is_there: bool,
) -> Option<Option<Option<CurrentSession>>>
    ensures { Gives result fields.new.rest.now
        (group_at (optional_by current_at) is_there fields.old.rest.now) }
{
    if is_there {
        Some(Some(read_optional_current(fields)?))
    } else {
        Some(None)
    }
}

fn read_counters(fields: &mut FieldReader<'_>, is_there: bool) -> Option<Option<Counters>>
    ensures { Gives result fields.new.rest.now (group_at counters_at is_there fields.old.rest.now) }
{
    if is_there {
        let last_up = fields.u32_be()?;
        Some(Some((last_up, NextDown::new(fields.u64_be()?)?)))
    } else {
        Some(None)
    }
}

fn read_pending(fields: &mut FieldReader<'_>, is_there: bool) -> Option<Option<Option<Session>>>
    ensures { Gives result fields.new.rest.now
        (group_at (optional_by session_at) is_there fields.old.rest.now) }
{
    if is_there {
        Some(Some(read_optional_session(fields)?))
    } else {
        Some(None)
    }
}

fn read_tag(fields: &mut FieldReader<'_>, is_there: bool) -> Option<Option<Option<Tag>>>
    ensures { Gives result fields.new.rest.now (group_at awaited_at is_there fields.old.rest.now) }
{
    if is_there {
        Some(Some(read_awaited(fields)?))
    } else {
        Some(None)
    }
}

fn read_commands<'a>(
    fields: &mut FieldReader<'a>,
    version: RecordVersion,
    is_there: bool,
) -> Option<Option<&'a [u8]>>
    ensures field { GivesSeen (λ o. option_map (λ bytes. bytes.now) o) result fields.new.rest.now
        (group_at (mac_queue_at version) is_there fields.old.rest.now) }
    ensures few { IfSome result (λ o. IfSome o (λ bytes. length bytes.now ≤ MacQueue.MOST)) }
{
    if is_there {
        Some(Some(read_mac_queue(fields, version)?))
    } else {
        Some(None)
    }
}

// Whether the first item is removed, or which item is added.
#[tactic(auto, unfolding(crate::specs::ChangeReading::item_change_at))]
fn read_item_change<'a>(fields: &mut FieldReader<'a>) -> Option<ItemChangePart<'a>>
    ensures field { GivesSeen item_change_of_parts result fields.new.rest.now
        (item_change_at fields.old.rest.now) }
    ensures short { IfSome result IsShortChange }
{
    if fields.flag()? {
        match read_item(fields) {
            Some(item) => Some(Some(item)),
            None => None,
        }
    } else {
        Some(None)
    }
}

fn read_items<'a>(
    fields: &mut FieldReader<'a>,
    is_there: bool,
) -> Option<Option<ItemChangePart<'a>>>
    ensures field { GivesSeen (λ o. option_map item_change_of_parts o) result fields.new.rest.now
        (group_at item_change_at is_there fields.old.rest.now) }
    ensures short { IfSome result (λ o. IfSome o IsShortChange) }
{
    if is_there {
        match read_item_change(fields) {
            Some(items) => Some(Some(items)),
            None => None,
        }
    } else {
        Some(None)
    }
}

/// The mask of a change, and each group whose bit is set.
#[tactic(auto, unfolding(crate::specs::ChangeReading::change_at))]
pub(crate) fn read_groups<'a>(
    fields: &mut FieldReader<'a>,
    version: RecordVersion,
) -> Option<GroupParts<'a>>
    ensures field { GivesSeen groups_of_parts result fields.new.rest.now
        (change_at version fields.old.rest.now) }
    ensures short { IfSome result AreShort }
{
    let mut mask = Mask {
        bits: fields.byte()?,
    };
    let nonces = read_nonces(fields, mask.next())?;
    let current = read_current(fields, mask.next())?;
    let counters = read_counters(fields, mask.next())?;
    let pending = read_pending(fields, mask.next())?;
    let awaited = read_tag(fields, mask.next())?;
    let mac_queue = read_commands(fields, version, mask.next())?;
    let Some(items) = read_items(fields, mask.next()) else {
        return None;
    };
    let Some(grew) = mask.last(version) else {
        return None;
    };
    Some(GroupParts {
        nonces,
        current,
        counters,
        pending,
        awaited,
        mac_queue,
        items,
        grew,
    })
}
