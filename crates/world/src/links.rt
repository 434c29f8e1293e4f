// The links of a life, and the events that result from what is said on them.
ghost use Rattle.std.specs.Prelude.{◌≡◌, ◌≢◌, ◌≤◌, ◌++◌, ◌⊎◌, ◌↔◌, ℕ, Some, None, [], length};
ghost use Rattle.std.specs.Prelude.{vec_capacity, IfOk, IfErr, IsSome, IsTrue, OnErr, MatchResult};
ghost use Rattle.lw_types.specs.declared.refusal.Refusal.TheVariants.{OutOfMemory};
ghost use Rattle.link_messages.specs.Feeding.{fault_in, new_feed, Feeds};
ghost use Rattle.link_messages.specs.Stream.{peer_after_one};
ghost use Rattle.link_messages.specs.declared.message.Peer.TheVariants.{Application as Asking};
ghost use Rattle.world.specs.Links.{before_others, heard_on, AreHandedIn, AsksFor, HandsIn};
ghost use Rattle.world.specs.Links.{SaysMore};

use crate::{Event, EventTurn};
use devices::Application;
use gateway_wire::read_line;
use link_messages::{Fed, Feeder, Line, Message, Peer};
use lw_types::Refusal;
use std::alloc::{AllocError, Global};
use std::collections::BTreeMap;

/// What the links of a life have said, by the links' numbers.
#[derive(Drop)]
pub(crate) struct Links {
    alloc: Global,
    feeders: BTreeMap<u64, Feeder>,
}

/// The events of a piece, the fault after them, and room for their turns.
#[derive(Drop)]
pub(crate) struct HandedIn {
    pub(crate) events: Vec<Event>,
    pub(crate) fault: Option<Refusal>,
    pub(crate) room: Vec<EventTurn>,
}

impl Links {
    /// Links that have said nothing yet. Takes no memory.
    pub(crate) fn new(alloc: Global) -> Self
        ensures { (link : ℕ) → heard_on result link ≡ new_feed }
    {
        Links {
            alloc,
            feeders: BTreeMap::new(alloc),
        }
    }

    /// Adds the bytes that arrive on this link. A refusal leaves what the links have said.
    pub(crate) fn say(&mut self, link: u64, piece: &[u8]) -> Result<HandedIn, Refusal>
        ensures said { IfOk result (λ r. SaysMore self.old link piece.now self.new r.events.items
            r.fault) }
        ensures room { IfOk result (λ r. (r.room.items ≡ [])
            × (length r.events.items ≤ vec_capacity r.room)) }
        ensures refused { IfErr result (λ e. (e ≡ OutOfMemory)
            × ((other : ℕ) → heard_on self.new other ≡ heard_on self.old other)) }
        ensures wanted { OnErr result ((piece.now ≢ [])
            × ¬ (IsSome (fault_in (heard_on self.old link).end))) }
    {
        if self.adds_nothing(link, piece) {
            return Ok(HandedIn {
                events: Vec::new(self.alloc),
                fault: self.fault_on(link),
                room: Vec::new(self.alloc),
            });
        }
        let mut feeder = self.feeder_on(link)?;
        let peer = feeder.peer();
        let Fed { messages, fault } = feeder.feed(piece)?;
        let events = events_of(self.alloc, peer, messages)?;
        let room = Vec::with_capacity(self.alloc, events.len())?;
        self.feeders.insert(link, feeder)?;
        Ok(HandedIn {
            events,
            fault,
            room,
        })
    }

    // Whether a piece adds nothing to what was heard on this link.
    fn adds_nothing(&self, link: u64, piece: &[u8]) -> bool
        ensures nothing { IsTrue result
            → Feeds (heard_on self.now link) piece.now [] (heard_on self.now link) }
        ensures only { IsTrue result
            ↔ ((piece.now ≡ []) ⊎ IsSome (fault_in (heard_on self.now link).end)) }
    {
        match self.feeders.get(&link) {
            Some(feeder) => feeder.adds_nothing(piece),
            None => Feeder::new(self.alloc).adds_nothing(piece),
        }
    }

    fn fault_on(&self, link: u64) -> Option<Refusal>
        ensures { result ≡ fault_in (heard_on self.now link).end }
    {
        self.feeders.get(&link)?.fault()
    }

    fn feeder_on(&self, link: u64) -> Result<Feeder, AllocError>
        ensures { IfOk result (λ feeder. feeder ≡ heard_on self.now link) }
    {
        match self.feeders.get(&link) {
            Some(feeder) => feeder.clone(),
            None => Ok(Feeder::new(self.alloc)),
        }
    }
}

/// The events of messages of a link, which had this peer before them: each copy, and the command of
/// each line that is a request of an application. Refused only with `OutOfMemory`, and only if a
/// copy or a request is among them.
pub fn events_of(
    alloc: Global,
    peer: Option<Peer>,
    messages: Vec<Message>,
) -> Result<Vec<Event>, Refusal>
    ensures events { MatchResult result (λ events. AreHandedIn peer messages.items events.items)
        (λ e. e ≡ OutOfMemory) }
    ensures wanted { OnErr result (¬ (AreHandedIn peer messages.items [])) }
{
    let mut events = Vec::new(alloc);
    let mut speaker = peer;
    for message in messages {
        let event = event_of(alloc, &mut speaker, message)?;
        add(&mut events, event)?;
    }
    Ok(events)
}

// Adds an event, if there is one.
fn add(events: &mut Vec<Event>, event: Option<Event>) -> Result<(), Refusal>
    ensures added { MatchResult result
        (λ _. events.new.items ≡ events.old.items ++ before_others event [])
        (λ e. e ≡ OutOfMemory) }
    ensures wanted { OnErr result (event ≢ None) }
{
    if let Some(event) = event {
        events.push(event)?;
    }
    Ok(())
}

// The event of a message, if it has one. A greeting has none, but names the peer; a line that is no
// request has none either. Neither needs memory.
fn event_of(
    alloc: Global,
    speaker: &mut Option<Peer>,
    message: Message,
) -> Result<Option<Event>, Refusal>
    ensures event { MatchResult result (HandsIn speaker.old message) (λ e. e ≡ OutOfMemory) }
    ensures wanted { OnErr result (¬ (HandsIn speaker.old message None)) }
    ensures speaker { speaker.new ≡ peer_after_one speaker.old message }
{
    match message {
        Message::Greeting(greeted) => {
            *speaker = Some(greeted);
            Ok(None)
        }
        Message::Copy(copy) => Ok(Some(Event::Hear(copy))),
        Message::Line(line) => asked(alloc, speaker, &line),
    }
}

fn asked(alloc: Global, speaker: &Option<Peer>, line: &Line) -> Result<Option<Event>, Refusal>
    ensures event { MatchResult result (AsksFor speaker.now line.now) (λ e. e ≡ OutOfMemory) }
    ensures wanted { OnErr result (¬ (AsksFor speaker.now line.now None)) }
{
    match speaker {
        Some(Peer::Application(application)) => request_of(alloc, *application, line),
        _ => Ok(None),
    }
}

// The command of the request that a line of this application is, if it is one.
fn request_of(
    alloc: Global,
    application: Application,
    line: &Line,
) -> Result<Option<Event>, Refusal>
    ensures event { MatchResult result (AsksFor (Some (Asking application)) line.now)
        (λ e. e ≡ OutOfMemory) }
    ensures wanted { OnErr result (¬ (AsksFor (Some (Asking application)) line.now None)) }
{
    match read_line(alloc, line.as_str()) {
        Ok(request) => Ok(Some(Event::Ask(request.into_command(application)))),
        Err(Refusal::BadMessage) => Ok(None),
        Err(refusal) => Err(refusal),
    }
}
