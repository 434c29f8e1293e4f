// The requests of applications.
ghost use Rattle.std.specs.Prelude.{◌≡◌, ◌↔◌, ◌∷◌, ◌⊎◌, ◌<◌, ◌^◌, Bool, ℕ, List, [], IfSome, IfOk};
ghost use Rattle.std.specs.Prelude.{IfErr, Some, Err, MatchResult, codes};
ghost use Rattle.lw_types.specs.declared.refusal.Refusal.TheVariants.{BadMessage, OutOfMemory};
ghost use Rattle.lw_types.specs.WordsLeft.{words_left};
ghost use Rattle.gateway_wire.specs.declared.request.Request.{Request};
ghost use Rattle.lw_types.specs.declared.identifiers.Eui.{Eui};
ghost use Rattle.lw_types.specs.declared.key.Key.{Key};
ghost use Rattle.devices.specs.declared.Tag.{Tag};
ghost use Rattle.devices.specs.Command.{as_command};
ghost use Rattle.gateway_wire.specs.Request.{command_of, request_words, request_line};
ghost use Rattle.gateway_wire.specs.Request.{IsRequestInRange, IsRequestLine, IsRequestOf};
ghost use Rattle.gateway_wire.specs.Request.{AreRequestWords};
ghost use Rattle.gateway_wire.specs.Finding.{item_words, AreItemFields, Finds};

use crate::word_values::{Confirmed, last_bytes, next_ranged, next_value};
use devices::{
    Application, ApplicationCommand, AskedBytes, Command, MacQueueing, Provisioning, Queueing,
    Rx1Offset, RxDelay, Tag,
};
use lw_types::{Eui, Key, Refusal, Words, laws};
use std::alloc::Global;

/// A request that an application sends on its link.
#[derive(Clone, PartialEq, Eq, Drop)]
pub enum Request {
    /// `provision`: a new device is provisioned.
    Provision {
        dev_eui: Eui,
        join_eui: Eui,
        app_key: Key,
        rx1_offset: Rx1Offset,
        rx_delay: RxDelay,
    },
    /// `queue`: an item is queued for a device.
    Queue {
        dev_eui: Eui,
        tag: Tag,
        port: u8,
        confirmed: bool,
        payload: AskedBytes,
    },
    /// `mac`: MAC commands are queued for a device.
    Mac {
        dev_eui: Eui,
        commands: AskedBytes,
    },
}

impl Request {
    /// The command of this request, for the application that asks.
    pub fn into_command(self, application: Application) -> Command
        ensures { result ≡ command_of application self }
    {
        self.asked_by(application).into_command()
    }

    /// The application command of this request, for the application that asks.
    pub fn asked_by(self, application: Application) -> ApplicationCommand
        ensures { as_command result ≡ command_of application self }
    {
        match self {
            Request::Provision {
                dev_eui,
                join_eui,
                app_key,
                rx1_offset,
                rx_delay,
            } => ApplicationCommand::Provision(Provisioning {
                application,
                dev_eui,
                join_eui,
                app_key,
                rx1_offset,
                rx_delay,
            }),
            Request::Queue {
                dev_eui,
                tag,
                port,
                confirmed,
                payload,
            } => ApplicationCommand::Queue(Queueing {
                application,
                dev_eui,
                tag,
                port,
                confirmed,
                payload,
            }),
            Request::Mac { dev_eui, commands } => ApplicationCommand::QueueMac(MacQueueing {
                application,
                dev_eui,
                commands,
            }),
        }
    }
}

/// The request of a line. Any other line is refused as `BadMessage`, whether or not memory is
/// available.
pub fn read_line(alloc: Global, line: &str) -> Result<Request, Refusal>
    ensures found { IfOk result (λ r. IsRequestInRange r × (line.now ≡ request_line r)) }
    ensures only { (r : Request) → IsRequestInRange r → line.now ≡ request_line r
        → MatchResult result (λ x. x ≡ r) (λ e. e ≡ OutOfMemory) }
    ensures malformed { (result ≡ Err BadMessage) ↔ ¬ (IsRequestLine line.now) }
    ensures refused { IfErr result (λ e. (e ≡ BadMessage) ⊎ (e ≡ OutOfMemory)) }
{
    laws::a_line_is_its_words();
    laws::each_text_is_a_word();
    let mut words = Words::of(line);
    match words.next() {
        Some(name) => read_request(alloc, name, words),
        None => Err(Refusal::BadMessage),
    }
}

/// The request of this name with these fields, each a word. Anything else is refused as
/// `BadMessage`, whether or not memory is available.
pub fn read_request(alloc: Global, name: &str, fields: Words<'_>) -> Result<Request, Refusal>
    ensures found { IfOk result (λ r. IsRequestInRange r
        × (name.now ∷ words_left fields.entry ≡ request_words r)) }
    ensures only { (r : Request) → IsRequestInRange r
        → name.now ∷ words_left fields.entry ≡ request_words r
        → MatchResult result (λ x. x ≡ r) (λ e. e ≡ OutOfMemory) }
    ensures malformed { (result ≡ Err BadMessage)
        ↔ ¬ (AreRequestWords (name.now ∷ words_left fields.entry)) }
    ensures refused { IfErr result (λ e. (e ≡ BadMessage) ⊎ (e ≡ OutOfMemory)) }
{
    laws::each_text_is_of_one_value();
    find_request(alloc, name, fields)
}

fn find_request(alloc: Global, name: &str, fields: Words<'_>) -> Result<Request, Refusal>
    ensures { Finds (IsRequestOf (name.now ∷ words_left fields.entry)) result }
{
    match name {
        "provision" => provision(fields).ok_or(Refusal::BadMessage),
        "queue" => queue(alloc, fields),
        "mac" => mac(alloc, fields),
        _ => Err(Refusal::BadMessage),
    }
}

// The device to be provisioned: DevEUI, JoinEUI, AppKey, RX1DROffset and RX1's delay.
fn provision(mut fields: Words<'_>) -> Option<Request>
    ensures found { IfSome result (λ r. IsRequestInRange r
        × (codes "provision" ∷ words_left fields.entry ≡ request_words r)) }
    ensures only { (dev_eui : Eui) (join_eui : Eui) (app_key : Key) (rx1_offset : ℕ) (rx_delay : ℕ)
        → IsRequestInRange (Request.Provision dev_eui join_eui app_key rx1_offset rx_delay)
        → codes "provision" ∷ words_left fields.entry
        ≡ request_words (Request.Provision dev_eui join_eui app_key rx1_offset rx_delay)
        → result ≡ Some (Request.Provision dev_eui join_eui app_key rx1_offset rx_delay) }
{
    let dev_eui = next_value(&mut fields)?;
    let join_eui = next_value(&mut fields)?;
    let app_key = next_value(&mut fields)?;
    let rx1_offset = next_ranged(&mut fields)?;
    let rx_delay = next_ranged(&mut fields)?;
    match fields.next() {
        Some(_) => None,
        None => Some(provisioning(dev_eui, join_eui, app_key, rx1_offset, rx_delay)),
    }
}

// The request for a device. Since the fields are in range by their types, it is a request.
fn provisioning(
    dev_eui: Eui,
    join_eui: Eui,
    app_key: Key,
    rx1_offset: Rx1Offset,
    rx_delay: RxDelay,
) -> Request
    ensures value { result ≡ Request.Provision dev_eui join_eui app_key rx1_offset rx_delay }
    ensures in_range { IsRequestInRange result }
{
    Request::Provision {
        dev_eui,
        join_eui,
        app_key,
        rx1_offset,
        rx_delay,
    }
}

// The item to be queued: DevEUI, tag, port, whether it is confirmed, and its payload.
fn queue(alloc: Global, mut fields: Words<'_>) -> Result<Request, Refusal>
    ensures { Finds (IsRequestOf (codes "queue" ∷ words_left fields.entry)) result }
{
    match item_fields(&mut fields) {
        None => Err(Refusal::BadMessage),
        Some((dev_eui, tag, port, confirmed)) => match last_bytes(alloc, fields) {
            Err(e) => Err(e),
            Ok(payload) => Ok(Request::Queue {
                dev_eui,
                tag,
                port,
                confirmed,
                payload,
            }),
        },
    }
}

fn item_fields(fields: &mut Words<'_>) -> Option<(Eui, Tag, u8, bool)>
    ensures found { IfSome result (λ x. AreItemFields x.0 x.1 x.2
        × (words_left fields.old ≡ item_words x.0 x.1 x.2 x.3 (words_left fields.new))) }
    ensures only { (dev_eui : Eui) (tag : Tag) (port : ℕ) (confirmed : Bool) (rest : List (List ℕ))
        → AreItemFields dev_eui tag port
        → words_left fields.old ≡ item_words dev_eui tag port confirmed rest
        → (result ≡ Some (dev_eui, tag, port, confirmed)) × (words_left fields.new ≡ rest) }
{
    let dev_eui = next_value(fields)?;
    let tag: u32 = next_value(fields)?;
    let port = next_value(fields)?;
    let confirmed: Confirmed = next_value(fields)?;
    Some((dev_eui, Tag(tag), port, confirmed.0))
}

// The MAC commands to be queued: DevEUI and the commands.
fn mac(alloc: Global, mut fields: Words<'_>) -> Result<Request, Refusal>
    ensures { Finds (IsRequestOf (codes "mac" ∷ words_left fields.entry)) result }
{
    match next_value(&mut fields) {
        None => Err(Refusal::BadMessage),
        Some(dev_eui) => match last_bytes(alloc, fields) {
            Err(e) => Err(e),
            Ok(commands) => Ok(Request::Mac { dev_eui, commands }),
        },
    }
}
