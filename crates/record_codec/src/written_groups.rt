// The groups of a change, appended to the bytes so far.
ghost use Rattle.std.specs.Prelude.{◌≡◌, ◌++◌, ◌≤◌, ◌<◌, ◌^◌, ℕ, IfSome, OnOk, length};
ghost use Rattle.std.specs.Prelude.{option_map};
ghost use Rattle.lw_types.specs.Hex.{IsBytes};
ghost use Rattle.byte_fields.specs.Spelling.{counted_bytes};
ghost use Rattle.record_codec.specs.DeviceRecord.{awaited_bytes, optional_current};
ghost use Rattle.record_codec.specs.DeviceRecord.{optional_session, IsCurrentSession, IsSession};
ghost use Rattle.record_codec.specs.Change.{change_bytes, counters_bytes, group_bytes};
ghost use Rattle.record_codec.specs.Change.{item_change_bytes, mask, nonces_bytes, there};
ghost use Rattle.record_codec.specs.Change.{AreCounters, AreInRange, AreNonces, IsItemChange};
ghost use Rattle.record_codec.specs.Parts.{groups_of_parts, item_change_of_parts, AreShort};
ghost use Rattle.record_codec.specs.Parts.{FitVersion, IsShortChange};
ghost use Rattle.record_codec.specs.Writing.{KeepsFront};

use crate::activation_fields::{
    put_counters, put_granted, put_optional_current, put_optional_session,
};
use crate::device_record::{put_awaited, put_dev_nonce};
use crate::parts::{Counters, GroupParts, ItemChangePart, Nonces};
use crate::queues::put_item;
use crate::version::RecordVersion;
use crate::written_fields::put_counted;
use devices::{CurrentSession, MacQueue, Session, Tag};
use std::alloc::AllocError;

// 1 for a group that is present.
fn there<T>(group: &Option<T>) -> u8
    ensures value { result ≡ there group.now }
    ensures bit { result ≤ 1 }
{
    match group {
        None => 0,
        Some(_) => 1,
    }
}

// A bit for each group, the lowest for the first, and the highest for the count.
fn mask(groups: &GroupParts<'_>) -> u8
    ensures { result ≡ mask (groups_of_parts groups.now) }
{
    let queues = there(&groups.mac_queue) + 2 * (there(&groups.items) + 2 * u8::from(groups.grew));
    let waiting = there(&groups.pending) + 2 * (there(&groups.awaited) + 2 * queues);
    let in_use = there(&groups.current) + 2 * (there(&groups.counters) + 2 * waiting);
    there(&groups.nonces) + 2 * in_use
}

fn put_nonces(out: &mut Vec<u8>, nonces: &Option<Nonces>) -> Result<(), AllocError>
    ensures written { OnOk result (out.new.items
        ≡ out.old.items ++ group_bytes nonces_bytes nonces.now) }
    ensures in_range { OnOk result (IfSome nonces.now AreNonces) }
    ensures keeps { KeepsFront out.old.items out.new.items }
{
    match nonces {
        None => (),
        Some((dev_nonce, granted)) => {
            put_dev_nonce(out, *dev_nonce)?;
            put_granted(out, *granted)?;
        }
    }
    Ok(())
}

fn put_current(
    out: &mut Vec<u8>,
    current: &Option<Option<CurrentSession>>,
) -> Result<(), AllocError>
    ensures written { OnOk result (out.new.items
        ≡ out.old.items ++ group_bytes optional_current current.now) }
    ensures in_range { OnOk result (IfSome current.now (λ o. IfSome o IsCurrentSession)) }
    ensures keeps { KeepsFront out.old.items out.new.items }
{
    match current {
        None => (),
        Some(current) => put_optional_current(out, current)?,
    }
    Ok(())
}

fn put_counts(out: &mut Vec<u8>, counters: &Option<Counters>) -> Result<(), AllocError>
    ensures written { OnOk result (out.new.items
        ≡ out.old.items ++ group_bytes counters_bytes counters.now) }
    ensures in_range { OnOk result (IfSome counters.now AreCounters) }
    ensures keeps { KeepsFront out.old.items out.new.items }
{
    match counters {
        None => (),
        Some((last_up, next_down)) => put_counters(out, *last_up, *next_down)?,
    }
    Ok(())
}

fn put_pending(out: &mut Vec<u8>, pending: &Option<Option<Session>>) -> Result<(), AllocError>
    ensures written { OnOk result (out.new.items
        ≡ out.old.items ++ group_bytes optional_session pending.now) }
    ensures in_range { OnOk result (IfSome pending.now (λ o. IfSome o IsSession)) }
    ensures keeps { KeepsFront out.old.items out.new.items }
{
    match pending {
        None => (),
        Some(pending) => put_optional_session(out, pending)?,
    }
    Ok(())
}

fn put_tag(out: &mut Vec<u8>, awaited: &Option<Option<Tag>>) -> Result<(), AllocError>
    ensures written { OnOk result (out.new.items
        ≡ out.old.items ++ group_bytes awaited_bytes awaited.now) }
    ensures in_range { OnOk result (IfSome awaited.now (λ o. IfSome o (λ tag. tag.0 < 2 ^ 32))) }
    ensures keeps { KeepsFront out.old.items out.new.items }
{
    match awaited {
        None => (),
        Some(awaited) => put_awaited(out, *awaited)?,
    }
    Ok(())
}

fn put_commands(out: &mut Vec<u8>, commands: &Option<&[u8]>) -> Result<(), AllocError>
    requires { IfSome commands.now (λ bytes. length bytes.now ≤ MacQueue.MOST) }
    ensures written { let waiting = option_map (λ bytes. bytes.now) commands.now in
        OnOk result (out.new.items ≡ out.old.items ++ group_bytes counted_bytes waiting) }
    ensures in_range { (most : ℕ) → IfSome commands.now (λ bytes. length bytes.now ≤ most)
        → OnOk result (IfSome (option_map (λ bytes. bytes.now) commands.now)
        (λ bytes. IsBytes bytes × (length bytes ≤ most))) }
    ensures keeps { KeepsFront out.old.items out.new.items }
{
    match commands {
        None => (),
        Some(bytes) => put_counted(out, bytes)?,
    }
    Ok(())
}

// 00 if the first item is removed; 01 and the item that is added.
fn put_item_change(out: &mut Vec<u8>, added: &ItemChangePart<'_>) -> Result<(), AllocError>
    requires { IsShortChange added.now }
    ensures written { OnOk result (out.new.items
        ≡ out.old.items ++ item_change_bytes (item_change_of_parts added.now)) }
    ensures in_range { OnOk result (IsItemChange (item_change_of_parts added.now)) }
    ensures keeps { KeepsFront out.old.items out.new.items }
{
    match added {
        None => out.push(0)?,
        Some(item) => {
            out.push(1)?;
            put_item(out, item)?;
        }
    }
    Ok(())
}

fn put_items(out: &mut Vec<u8>, items: &Option<ItemChangePart<'_>>) -> Result<(), AllocError>
    requires { IfSome items.now IsShortChange }
    ensures written { let change = option_map item_change_of_parts items.now in
        OnOk result (out.new.items ≡ out.old.items ++ group_bytes item_change_bytes change) }
    ensures in_range { OnOk result (IfSome (option_map item_change_of_parts items.now)
        IsItemChange) }
    ensures keeps { KeepsFront out.old.items out.new.items }
{
    match items {
        None => (),
        Some(change) => put_item_change(out, change)?,
    }
    Ok(())
}

/// Appends the mask of a change and the groups that are present.
#[tactic(auto, unfolding(crate::specs::Change::change_bytes))]
pub(crate) fn put_groups(
    out: &mut Vec<u8>,
    version: RecordVersion,
    groups: &GroupParts<'_>,
) -> Result<(), AllocError>
    requires short { AreShort groups.now }
    requires fit { FitVersion version groups.now }
    ensures written { OnOk result (out.new.items
        ≡ out.old.items ++ change_bytes (groups_of_parts groups.now)) }
    ensures in_range { OnOk result (AreInRange version (groups_of_parts groups.now)) }
    ensures keeps { KeepsFront out.old.items out.new.items }
{
    out.push(mask(groups))?;
    put_nonces(out, &groups.nonces)?;
    put_current(out, &groups.current)?;
    put_counts(out, &groups.counters)?;
    put_pending(out, &groups.pending)?;
    put_tag(out, &groups.awaited)?;
    put_commands(out, &groups.mac_queue)?;
    put_items(out, &groups.items)?;
    Ok(())
}
