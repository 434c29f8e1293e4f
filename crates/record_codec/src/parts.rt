// Items and changes whose parts that need memory are elsewhere: in a record, or in bytes.
ghost use Rattle.std.specs.Prelude.{◌≡◌, ◌≤◌, IfOk, length};
ghost use Rattle.record_codec.specs.Parts.{item_of_part};

use devices::{CurrentSession, Item, NextDown, Payload, Port, Session, Tag};
use lw_types::{JoinNonce, LONGEST_PAYLOAD};
use std::alloc::{AllocError, Global};

/// An item whose payload is elsewhere.
#[derive(Clone, Copy)]
pub(crate) struct ItemPart<'a> {
    pub tag: Tag,
    pub port: Port,
    pub confirmed: bool,
    pub payload: &'a [u8],
}

impl<'a> ItemPart<'a> {
    /// The item, with its payload where it is.
    pub fn of(item: &'a Item) -> Self
        ensures value { item_of_part result ≡ item.now }
        ensures few { length result.payload.now ≤ LONGEST_PAYLOAD }
    {
        ItemPart {
            tag: item.tag,
            port: item.port,
            confirmed: item.confirmed,
            payload: item.payload.as_slice(),
        }
    }
}

impl ItemPart<'_> {
    /// The item, with a payload of its own.
    pub fn item(&self, alloc: Global) -> Result<Item, AllocError>
        requires { length self.now.payload.now ≤ LONGEST_PAYLOAD }
        ensures { IfOk result (λ item. item ≡ item_of_part self.now) }
    {
        Ok(Item {
            tag: self.tag,
            port: self.port,
            confirmed: self.confirmed,
            payload: Payload::from_slice(alloc, self.payload)?,
        })
    }
}

/// The last DevNonce and the last JoinNonce granted.
pub(crate) type Nonces = (Option<u16>, Option<JoinNonce>);

/// The counter of a session's last uplink and that of its next downlink.
pub(crate) type Counters = (u32, NextDown);

/// The item that is added at the end, with its payload elsewhere; none if the first item is
/// removed.
pub(crate) type ItemChangePart<'a> = Option<ItemPart<'a>>;

/// The groups of a change, each present or absent, and whether one more uplink is counted. What
/// needs memory is elsewhere.
#[derive(Clone, Copy)]
pub(crate) struct GroupParts<'a> {
    pub nonces: Option<Nonces>,
    pub current: Option<Option<CurrentSession>>,
    pub counters: Option<Counters>,
    pub pending: Option<Option<Session>>,
    pub awaited: Option<Option<Tag>>,
    pub mac_queue: Option<&'a [u8]>,
    pub items: Option<ItemChangePart<'a>>,
    pub grew: bool,
}
