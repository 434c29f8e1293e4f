// The queues of a device.
ghost use Rattle.std.specs.Prelude.{◌≡◌, ◌∷◌, ◌++◌, ◌≤◌, IfOk, IfSome, IsSome, OnOk, length};
ghost use Rattle.std.specs.List.{AllByRecursion};
ghost use Rattle.lw_types.specs.Hex.{IsBytes};
ghost use Rattle.byte_fields.specs.Reading.{GivesSeen};
ghost use Rattle.byte_fields.specs.Spelling.{counted_bytes, flag};
ghost use Rattle.record_codec.specs.DeviceRecord.{item, item_queue, IsItem};
ghost use Rattle.record_codec.specs.Parts.{item_of_part, items_of_parts};
ghost use Rattle.record_codec.specs.Reading.{item_at, item_queue_at, items_at, items_in};
ghost use Rattle.record_codec.specs.Reading.{mac_queue_at, payload_at};
ghost use Rattle.record_codec.specs.Writing.{KeepsFront};

use crate::parts::ItemPart;
use crate::version::RecordVersion;
use crate::written_fields::{put_counted, put_flag};
use byte_fields::FieldReader;
use devices::{Item, ItemQueue, MacQueue, Payload, Port, Ranged, Tag};
use lw_types::LONGEST_PAYLOAD;
use std::alloc::{AllocError, Global};

/// The bytes of the MAC queue, at most as many as the version allows. It isn't tested whether they
/// are whole commands.
pub(crate) fn read_mac_queue<'a>(
    fields: &mut FieldReader<'a>,
    version: RecordVersion,
) -> Option<&'a [u8]>
    ensures field { GivesSeen (λ bytes. bytes.now) result fields.new.rest.now
        (mac_queue_at version fields.old.rest.now) }
    ensures few { IfSome result (λ bytes. length bytes.now ≤ MacQueue.MOST) }
{
    let bytes = fields.counted()?;
    if bytes.len() <= version.longest_mac_queue() {
        Some(bytes)
    } else {
        None
    }
}

fn read_payload<'a>(fields: &mut FieldReader<'a>) -> Option<&'a [u8]>
    ensures field { GivesSeen (λ bytes. bytes.now) result fields.new.rest.now
        (payload_at fields.old.rest.now) }
    ensures few { IfSome result (λ bytes. length bytes.now ≤ LONGEST_PAYLOAD) }
{
    let bytes = fields.counted()?;
    if bytes.len() <= LONGEST_PAYLOAD {
        Some(bytes)
    } else {
        None
    }
}

/// An item whose payload is still in the bytes.
#[tactic(auto, unfolding(crate::specs::Reading::item_at))]
pub(crate) fn read_item<'a>(fields: &mut FieldReader<'a>) -> Option<ItemPart<'a>>
    ensures field { GivesSeen item_of_part result fields.new.rest.now
        (item_at fields.old.rest.now) }
    ensures few { IfSome result (λ i. length i.payload.now ≤ LONGEST_PAYLOAD) }
{
    let tag = Tag(fields.u32_be()?);
    let port = fields.ranged()?;
    let confirmed = fields.flag()?;
    let payload = read_payload(fields)?;
    Some(ItemPart {
        tag,
        port,
        confirmed,
        payload,
    })
}

/// At most 16 items, still in the record: they stand at the front of the bytes.
#[derive(Clone, Copy)]
pub(crate) struct ItemParts<'a> {
    count: u8,
    bytes: &'a [u8],
}

// Reads `count` items and skips them.
fn pass_items(count: u8, fields: &mut FieldReader<'_>) -> Option<()>
    ensures { GivesSeen (λ _. items_in count fields.old.rest.now) result fields.new.rest.now
        (items_at count fields.old.rest.now) }
{
    for _ in 0..count {
        match read_item(fields) {
            Some(_) => (),
            None => return None,
        }
    }
    Some(())
}

/// The items, at most 16.
#[tactic(auto, unfolding(crate::specs::Reading::item_queue_at))]
pub(crate) fn read_items<'a>(fields: &mut FieldReader<'a>) -> Option<ItemParts<'a>>
    ensures field { GivesSeen items_of_parts result fields.new.rest.now
        (item_queue_at fields.old.rest.now) }
    ensures few { IfSome result (λ i. i.count ≤ ItemQueue.MOST) }
    ensures there { IfSome result (λ i. IsSome (items_at i.count i.bytes.now)) }
{
    let count: Ranged<0, 16> = fields.ranged()?;
    let count = count.get() as u8;
    let bytes = fields.rest;
    pass_items(count, fields)?;
    Some(ItemParts { count, bytes })
}

impl ItemParts<'_> {
    /// The items, with payloads of their own.
    pub fn queue(self, alloc: Global) -> Result<ItemQueue, AllocError>
        requires few { self.count ≤ ItemQueue.MOST }
        requires there { IsSome (items_at self.count self.bytes.now) }
        ensures { IfOk result (λ queue. queue ≡ items_of_parts self.entry) }
    {
        let mut fields = FieldReader { rest: self.bytes };
        let mut queue = ItemQueue::empty(alloc);
        for _ in 0..self.count {
            match read_item(&mut fields) {
                Some(part) => queue.push(part.item(alloc)?)?,
                None => unreachable!(),
            }
        }
        Ok(queue)
    }
}

/// Appends an item.
pub(crate) fn put_item(out: &mut Vec<u8>, i: &ItemPart<'_>) -> Result<(), AllocError>
    requires { length i.now.payload.now ≤ LONGEST_PAYLOAD }
    ensures written { OnOk result (out.new.items ≡ out.old.items ++ item (item_of_part i.now)) }
    ensures in_range { OnOk result (IsItem (item_of_part i.now)) }
    ensures keeps { KeepsFront out.old.items out.new.items }
{
    out.extend_from_slice(&i.tag.0.to_be_bytes())?;
    out.push(i.port.get() as u8)?;
    put_flag(out, i.confirmed)?;
    put_counted(out, i.payload)?;
    Ok(())
}

/// Appends a byte with the number of items, and each item.
pub(crate) fn put_item_queue(out: &mut Vec<u8>, queue: &ItemQueue) -> Result<(), AllocError>
    ensures written { OnOk result (out.new.items ≡ out.old.items ++ item_queue queue.now) }
    ensures in_range { OnOk result ((length queue.now ≤ 16) × AllByRecursion IsItem queue.now) }
    ensures keeps { KeepsFront out.old.items out.new.items }
{
    let items = queue.as_slice();
    out.push(items.len() as u8)?;
    for item in items {
        put_item(out, &ItemPart::of(item))?;
    }
    Ok(())
}
