// The messages of a link, from the pieces in which its bytes come.
ghost use Rattle.std.specs.Prelude.{◌≡◌, ◌≤◌, ◌++◌, ◌<◌, ◌+◌, ◌-◌, min, length, take, drop, IfErr};
ghost use Rattle.std.specs.Prelude.{◌⊎◌, ◌↔◌, [], IfOk, IsSome, IsTrue, OnErr, OnOk};
ghost use Rattle.lw_types.specs.declared.refusal.Refusal.TheVariants.{OutOfMemory};
ghost use Rattle.link_messages.specs.Stream.{peer_after_one, stated_length, BeginsWithMessage};
ghost use Rattle.link_messages.specs.Stream.{IsPart, WantsMemory};
ghost use Rattle.link_messages.specs.Feeding.{end_of, end_answer, fault_in, new_feed, Feeds};
ghost use Rattle.link_messages.specs.Feeding.{FeedWantsMemory};
ghost use Rattle.link_messages.specs.Steps.{IsFirstFrame, IsNext, Finishes, HasGathered, Tells};

use crate::message::{LONGEST_CONTENT, Message, Peer};
use crate::read_message::read_message;
use lw_types::Refusal;
use std::alloc::{AllocError, Global};
use std::marker::Model;

// The number of bytes for the length, before the content of a frame.
pub(crate) const HEAD: usize = 2;

// The most bytes of a frame.
const LONGEST: usize = HEAD + LONGEST_CONTENT;

/// The messages in a piece of a link's bytes.
#[derive(PartialEq, Eq, Drop)]
pub struct Fed {
    /// The messages that became whole, in order.
    pub messages: Vec<Message>,
    /// What is wrong after them.
    pub fault: Option<Refusal>,
}

/// Reads the messages of a link, whose bytes come in pieces of any length. In contracts it is the
/// peer at the other end, and how the bytes so far end: in a part of a frame, or in a fault.
#[derive(Drop)]
pub struct Feeder {
    alloc: Global,
    peer: Option<Peer>,
    fault: Option<Refusal>,
    // The frame that isn't whole yet.
    rest: Vec<u8>,
}

impl Model for Feeder {
    ghost use Rattle.link_messages.specs.Feeding.{FeedState, end_of};
    ghost use Rattle.link_messages.specs.Stream.{IsPart};

    ghost Value = { FeedState };

    ghost view = { λ f. record { peer = f.peer; end = end_of f.fault f.rest.items } };

    ghost invariant = { λ f. IsPart f.rest.items };
}

// The length of the content, as the first two bytes state it.
fn stated_length(stream: &[u8]) -> Option<usize>
    ensures { result ≡ stated_length stream.now }
{
    let (head, _) = stream.split_first_chunk::<HEAD>()?;
    Some(usize::from(u16::from_be_bytes(*head)))
}

// The content of the first frame and what follows it; `None` if the frame isn't whole.
fn first_frame(stream: &[u8]) -> Result<Option<(&[u8], &[u8])>, Refusal>
    ensures { IsFirstFrame stream.now result }
{
    match stated_length(stream) {
        None => Ok(None),
        Some(len) if len > LONGEST_CONTENT => Err(Refusal::FrameTooLong),
        Some(len) => Ok(stream[HEAD..].split_at_checked(len)),
    }
}

// The length of the content, as the first two bytes of both together state it.
fn stated_across(kept: &[u8], piece: &[u8]) -> Option<usize>
    requires { 0 < length kept.now }
    ensures { result ≡ stated_length (kept.now ++ piece.now) }
{
    let (high, others) = kept.split_first()?;
    let low = match others.first() {
        Some(low) => *low,
        None => *piece.first()?,
    };
    Some(usize::from(u16::from_be_bytes([*high, low])))
}

// The number of bytes of the piece that come before this length of both together.
fn up_to(len: usize, kept: &[u8], piece: &[u8]) -> usize
    ensures { result ≡ min (len - length kept.now) (length piece.now) }
{
    len.saturating_sub(kept.len()).min(piece.len())
}

// How many bytes of the piece finish the frame of which these bytes were kept.
fn finishing(kept: &[u8], piece: &[u8]) -> usize
    requires begun { 0 < length kept.now }
    requires part { IsPart kept.now }
    ensures some { result ≤ length piece.now }
    ensures finished { Finishes (kept.now ++ take result piece.now) (drop result piece.now) }
    ensures short { length kept.now + result ≤ LONGEST }
{
    match stated_across(kept, piece) {
        None => 0,
        Some(len) if len > LONGEST_CONTENT => up_to(HEAD, kept, piece),
        Some(len) => up_to(HEAD + len, kept, piece),
    }
}

// The message of this content, if it may be said.
fn message_of_content(alloc: Global, peer: Option<Peer>, content: &[u8]) -> Result<Message, Refusal>
    ensures { Tells peer content.now result }
{
    read_message(alloc, peer, content)
}

// What comes next in a stream.
#[derive(Drop)]
pub(crate) enum Next<'a> {
    // A message, and what follows it.
    Message(Message, &'a [u8]),
    // A part of a frame.
    Nothing,
    Fault(Refusal),
}

fn next_message<'a>(
    alloc: Global,
    peer: &Option<Peer>,
    stream: &'a [u8],
) -> Result<Next<'a>, Refusal>
    ensures { IsNext peer.now stream.now result }
{
    match first_frame(stream) {
        Err(fault) => Ok(Next::Fault(fault)),
        Ok(None) => Ok(Next::Nothing),
        Ok(Some((content, behind))) => match message_of_content(alloc, *peer, content) {
            Ok(message) => Ok(Next::Message(message, behind)),
            Err(Refusal::BadMessage) => Ok(Next::Fault(Refusal::BadMessage)),
            Err(_) => Err(Refusal::OutOfMemory),
        },
    }
}

// A greeting says which peer is at the other end.
fn greet(peer: &mut Option<Peer>, message: &Message)
    ensures { peer.new ≡ peer_after_one peer.old message.now }
{
    if let Message::Greeting(greeted) = message {
        *peer = Some(*greeted);
    }
}

// Adds the messages of a stream. Returns what is left of it, and the fault there.
fn collect<'a>(
    alloc: Global,
    peer: &mut Option<Peer>,
    stream: &'a [u8],
    messages: &mut Vec<Message>,
) -> Result<(&'a [u8], Option<Refusal>), Refusal>
    ensures heard { IfOk result (λ r. HasGathered peer.old stream.now messages.old.items
        messages.new.items peer.new (end_of r.1 r.0.now)) }
    ensures refused { IfErr result
        (λ e. (e ≡ OutOfMemory) × BeginsWithMessage peer.old stream.now) }
{
    let mut left = stream;
    loop {
        match next_message(alloc, peer, left)? {
            Next::Nothing => return Ok((left, None)),
            Next::Fault(fault) => return Ok((left, Some(fault))),
            Next::Message(message, behind) => {
                greet(peer, &message);
                messages.push(message)?;
                left = behind;
            }
        }
    }
}

// Keeps a part of a frame in place of what was kept. Room for the longest is taken only once.
fn keep(kept: &mut Vec<u8>, part: &[u8]) -> Result<(), AllocError>
    requires { IsPart part.now }
    ensures ok { OnOk result (kept.new.items ≡ part.now) }
    ensures err { OnErr result (kept.new.items ≡ kept.old.items) }
{
    if !part.is_empty() {
        kept.reserve(LONGEST.saturating_sub(kept.len()))?;
    }
    kept.clear();
    kept.extend_from_slice(part)
}

// Reads a stream after these messages, and keeps its rest. Returns the fault there.
fn collect_and_keep(
    alloc: Global,
    peer: &mut Option<Peer>,
    kept: &mut Vec<u8>,
    stream: &[u8],
    messages: &mut Vec<Message>,
) -> Result<Option<Refusal>, Refusal>
    ensures heard { IfOk result (λ fault. IsPart kept.new.items
        × HasGathered peer.old stream.now messages.old.items messages.new.items peer.new
        (end_of fault kept.new.items)) }
    ensures refused { IfErr result (λ e. (e ≡ OutOfMemory) × (kept.new.items ≡ kept.old.items)) }
    ensures wanted { IfErr result (λ _. WantsMemory peer.old stream.now) }
{
    let (left, fault) = collect(alloc, peer, stream, messages)?;
    match fault {
        Some(fault) => {
            kept.clear();
            Ok(Some(fault))
        }
        None => {
            keep(kept, left)?;
            Ok(None)
        }
    }
}

// These bytes, one after the other.
fn joined<'a>(buffer: &'a mut [u8; LONGEST], kept: &[u8], front: &[u8]) -> &'a [u8]
    requires { length kept.now + length front.now ≤ LONGEST }
    ensures { result.now ≡ kept.now ++ front.now }
{
    let len = kept.len() + front.len();
    buffer[..kept.len()].copy_from_slice(kept);
    buffer[kept.len()..len].copy_from_slice(front);
    &buffer[..len]
}

// Reads a piece after the bytes that were kept, and keeps the rest. Returns the fault there. The
// frame that the piece finishes is put together on the stack, so that content that is no message
// takes no memory.
fn collect_piece(
    alloc: Global,
    peer: &mut Option<Peer>,
    kept: &mut Vec<u8>,
    piece: &[u8],
    messages: &mut Vec<Message>,
) -> Result<Option<Refusal>, Refusal>
    requires part { IsPart kept.old.items }
    ensures heard { IfOk result (λ fault. IsPart kept.new.items
        × HasGathered peer.old (kept.old.items ++ piece.now) messages.old.items messages.new.items
        peer.new (end_of fault kept.new.items)) }
    ensures refused { IfErr result (λ e. (e ≡ OutOfMemory) × (kept.new.items ≡ kept.old.items)) }
    ensures wanted { IfErr result (λ _. WantsMemory peer.old (kept.old.items ++ piece.now)) }
{
    if kept.is_empty() {
        return collect_and_keep(alloc, peer, kept, piece, messages);
    }
    let (front, behind) = piece.split_at(finishing(kept.as_slice(), piece));
    let mut buffer = [0; LONGEST];
    let frame = joined(&mut buffer, kept.as_slice(), front);
    match next_message(alloc, peer, frame)? {
        Next::Nothing => {
            kept.extend_from_slice(front)?;
            Ok(None)
        }
        Next::Fault(fault) => {
            kept.clear();
            Ok(Some(fault))
        }
        Next::Message(message, _) => {
            greet(peer, &message);
            messages.push(message)?;
            collect_and_keep(alloc, peer, kept, behind, messages)
        }
    }
}

impl Clone for Feeder {
    ghost is_clone = { λ s t. t ≡ s };

    fn clone(&self) -> Result<Self, AllocError> {
        Ok(Feeder {
            alloc: self.alloc,
            peer: self.peer,
            fault: self.fault,
            rest: self.rest.clone()?,
        })
    }
}

impl Feeder {
    /// The feeder of a new link. Takes no memory.
    pub fn new(alloc: Global) -> Self
        ensures { result ≡ new_feed }
    {
        Feeder {
            alloc,
            peer: None,
            fault: None,
            rest: Vec::new(alloc),
        }
    }

    /// Returns the messages that this piece completes, and the fault after them: `FrameTooLong` as
    /// soon as a length above 700 is read, `BadMessage` for content that is no message or may not
    /// be said. After a fault nothing more is read, and each further piece gets the same fault. The
    /// only refusal is `OutOfMemory`, which leaves the feeder as it was before the piece. It comes
    /// only if a message is at the front, or a part of a frame that has to be kept.
    pub fn feed(&mut self, piece: &[u8]) -> Result<Fed, Refusal>
        ensures fed { IfOk result (λ fed. Feeds self.old piece.now fed.messages.items self.new
            × (fed.fault ≡ fault_in self.new.end)) }
        ensures refused { IfErr result (λ e. (e ≡ OutOfMemory) × (self.new ≡ self.old)) }
        ensures wanted { IfErr result (λ _. FeedWantsMemory self.old piece.now) }
    {
        let mut messages = Vec::new(self.alloc);
        if self.fault.is_some() {
            let fault = self.fault;
            return Ok(Fed { messages, fault });
        }
        let mut peer = self.peer;
        match collect_piece(self.alloc, &mut peer, &mut self.rest, piece, &mut messages) {
            Ok(fault) => {
                self.peer = peer;
                self.fault = fault;
                Ok(Fed { messages, fault })
            }
            Err(_) => Err(Refusal::OutOfMemory),
        }
    }

    /// Whether a piece adds nothing to what was read: it is empty, or a fault came before it. Takes
    /// no memory.
    pub fn adds_nothing(&self, piece: &[u8]) -> bool
        ensures nothing { IsTrue result → Feeds self.now piece.now [] self.now }
        ensures only { IsTrue result ↔ ((piece.now ≡ []) ⊎ IsSome (fault_in self.now.end)) }
    {
        piece.is_empty() || self.fault.is_some()
    }

    /// What is wrong with the bytes so far. Nothing after it is read. Takes no memory.
    pub fn fault(&self) -> Option<Refusal>
        ensures { result ≡ fault_in self.now.end }
    {
        self.fault
    }

    /// The peer at the other end; `None` before the greeting.
    pub fn peer(&self) -> Option<Peer>
        ensures { result ≡ self.now.peer }
    {
        self.peer
    }

    /// What the end of the input means: `CutShort` exactly if a part of a frame is left; after a
    /// fault, that fault. Takes no memory.
    pub fn end(&self) -> Result<(), Refusal>
        ensures { result ≡ end_answer self.now.end }
    {
        match self.fault {
            Some(fault) => Err(fault),
            None if self.rest.is_empty() => Ok(()),
            None => Err(Refusal::CutShort),
        }
    }
}
