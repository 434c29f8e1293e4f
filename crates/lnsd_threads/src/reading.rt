// A worker, which reads a link and hands in what is sent on it.
ghost use Rattle.std.specs.Prelude.{◌≡◌, ◌<◌, ◌+◌, ◌^◌, ◌↔◌, ◌++◌, ◌⊎◌, ℕ, [], IfSome, IsTrue};
ghost use Rattle.std.specs.Prelude.{List, MatchResult, None, Some, false, true};
ghost use Rattle.link_messages.specs.Feeding.{Feeds, fault_in, new_feed};
ghost use Rattle.link_messages.specs.declared.message.Message.TheVariants as said;
ghost use Rattle.link_messages.specs.declared.message.Peer.TheVariants as peers;
ghost use Rattle.lnsd_threads.specs.Hearing.{copies_in, AreHeard, ArePaidFor, IsAnswered};
ghost use Rattle.lnsd_threads.specs.Hearing.{IsOneHeard, IsTold};
ghost use Rattle.lnsd_threads.specs.Named.{peer_name};
ghost use Rattle.lw_types.specs.declared.identifiers.Eui.{Eui};
ghost use Rattle.session_core.specs.Seats.{HasMade};
ghost use Rattle.session_core.specs.declared.event.CallKind.TheVariants.{Asked, Heard};
ghost use Rattle.session_core.specs.declared.turn.Turn.{Turn};

use crate::context::Context;
use crate::sending::Sending;
use crate::server::LiveServer;
use crate::{Gate, LifeClock, moved_on};
use devices::Application;
use gateway_wire::{Recipient, Request, read_line};
use link_messages::{Fed, Feeder, Line, Message, Peer};
use lnsd_links::{Allowance, Link};
use lnsd_operator::{FrameName, Sight};
use lw_types::{FrameCopy, Refusal};
use rtrb::Producer;
use session_core::{Books, Event, Moment, Seat, Turn};
use std::io::{ErrorKind, Read};
use std::net::TcpStream;
use std::sync::Wait;

// The most bytes that are read at a time. They are fewer copies than a limited link may send at
// once: a copy has 24 bytes or more.
pub(crate) const PIECE: usize = 8192;

// The longest wait before copies are handed in, in milliseconds. After that the worker checks
// whether the link is to be read on.
const LONGEST_PAUSE: u64 = 200;

/// A link's worker.
#[derive(Drop)]
pub struct Worker<'x, B: Books, R: Wait, G: Gate, C: LifeClock> {
    pub context: &'x Context<'x, R, G, C>,
    pub server: &'x LiveServer<B>,
    pub link: &'x Link,
    // The number of its link's place, from 0.
    pub number: usize,
    // The number of calls of the sessions so far.
    pub calls: u64,
    pub feeder: Feeder,
    pub seat: Seat<B>,
    pub refusals: Producer<Refusal>,
    // The copies that may come on the link, if they are limited.
    pub allowance: Option<Allowance>,
    // The worker hands nothing in any more.
    pub has_ended: bool,
}

/// The result of one read.
pub(crate) enum Incoming {
    Bytes(usize),
    Nothing,
    /// Nothing came in the socket's time.
    Late,
    End,
}

/// Reads what has come, or waits. A link that was reset counts as closed.
pub(crate) fn read_some(stream: &TcpStream, buffer: &mut [u8]) -> Incoming {
    let mut stream = stream;
    match stream.read(buffer) {
        Ok(0) => Incoming::End,
        Ok(n) => Incoming::Bytes(n),
        Err(e) if e.kind() == ErrorKind::Interrupted => Incoming::Nothing,
        Err(e) if e.kind() == ErrorKind::WouldBlock => Incoming::Late,
        Err(_) => Incoming::End,
    }
}

// The application at the other end of a link.
fn asking(peer: Option<Peer>) -> Option<Application>
    ensures found { (application : ℕ) → peer ≡ Some (peers.Application application)
        → result ≡ Some application }
    ensures only { IfSome result (λ application. peer ≡ Some (peers.Application application)) }
{
    match peer? {
        Peer::Application(application) => Some(application),
        Peer::Gateway(_) => None,
    }
}

// How many of these messages are copies.
fn copies_in(messages: &Vec<Message>) -> u64
    ensures { result ≡ copies_in messages.now.items }
{
    let mut copies = 0;
    for message in messages {
        if let Message::Copy(_) = message {
            copies += 1;
        }
    }
    copies
}

// Whether a turn has decisions.
fn has_decided(turn: &Turn) -> bool
    ensures { IsTrue result ↔ (turn.now.from < turn.now.to) }
{
    turn.from < turn.to
}

/// The recipient that a peer is for effects.
pub(crate) fn recipient_of(peer: &Peer) -> Recipient
    ensures { result ≡ peer_name peer.now }
{
    match peer {
        Peer::Gateway(gateway) => Recipient::Gateway(*gateway),
        Peer::Application(application) => Recipient::Application(*application),
    }
}

impl<'x, B: Books, R: Wait, G: Gate, C: LifeClock> Worker<'x, B, R, G, C> {
    /// The worker of the link with this place. Nothing has come on it yet.
    pub fn new(
        context: &'x Context<'x, R, G, C>,
        server: &'x LiveServer<B>,
        link: &'x Link,
        number: usize,
        seat: Seat<B>,
        refusals: Producer<Refusal>,
    ) -> Self
        requires { link.now.place ≡ number }
        ensures { result ≡ record {
          context = context.entry;
          server = server.entry;
          link = link.entry;
          number = number;
          calls = 0;
          feeder = new_feed;
          seat = seat;
          refusals = refusals;
          allowance = None;
          has_ended = false;
        } }
    {
        Worker {
            context,
            server,
            link,
            number,
            calls: 0,
            feeder: Feeder::new(context.alloc),
            seat,
            refusals,
            allowance: None,
            has_ended: false,
        }
    }

    /// Says, once, that the worker hands nothing in any more.
    pub(crate) fn end_input(&mut self)
        ensures { self.new ≡ record self.old { has_ended = true } }
    {
        if !self.has_ended {
            self.has_ended = true;
            self.server.signals.end_input();
        }
    }

    /// Reads a link, which has a sender, until it sends nothing more or may not go on.
    pub(crate) fn read(&mut self, stream: &TcpStream, _sending: &Sending) {
        let mut buffer = [0u8; PIECE];
        for _ in self.context.rt.forever() {
            match read_some(stream, &mut buffer) {
                Incoming::Nothing | Incoming::Late => {}
                Incoming::End => {
                    self.end();
                    break;
                }
                Incoming::Bytes(n) => {
                    let piece = buffer.get(..n).unwrap_or(&[]);
                    if !self.handle_piece(piece) || self.is_closed() {
                        break;
                    }
                }
            }
        }
    }

    // Whether this side closed the link: what came before that is no longer of use.
    fn is_closed(&self) -> bool {
        self.link.is_disconnected() || self.server.signals.is_stopped()
    }

    /// The input has ended. Inside a frame that is a fault, unless this side ended the input.
    pub(crate) fn end(&self) {
        let is_cut = self.link.is_disconnected() || self.server.signals.is_ending();
        if self.feeder.end().is_err() && !is_cut {
            self.count_fault();
        }
    }

    /// Counts the link as faulted: it is read no further because of what it sent.
    pub(crate) fn count_fault(&self) {
        self.server.signals.counts.faulted.add(1);
        let name = self.feeder.peer().map(|peer| recipient_of(&peer));
        self.server.tell(self.context.rt, Sight::Faulted(name));
    }

    // Whether the link is read on. Without memory it isn't, but that doesn't count as its fault.
    fn handle_piece(&mut self, piece: &[u8]) -> bool
        ensures heard { IsTrue result → (messages : List Message)
            × (Feeds self.old.feeder piece.now messages self.new.feeder
            × ((fault_in self.new.feeder.end ≡ None)
            × (AreHeard self.new.feeder.peer messages self.old.seat self.old.refusals
            self.new.seat self.new.refusals
            × ArePaidFor (copies_in messages) self.old.allowance self.new.allowance))) }
        ensures same { self.new ≡ record self.old {
          feeder = self.new.feeder;
          seat = self.new.seat;
          calls = self.new.calls;
          refusals = self.new.refusals;
          allowance = self.new.allowance;
        } }
    {
        match self.feeder.feed(piece) {
            Ok(fed) => self.handle_all(fed),
            Err(_) => false,
        }
    }

    /// Pays for copies, handles the messages, and counts the fault after them. Returns whether the
    /// link is read on. If the copies aren't paid for, no message is handled.
    pub(crate) fn handle_all(&mut self, fed: Fed) -> bool
        ensures fault { IsTrue result → fed.fault ≡ None }
        ensures paid { (self.new ≡ self.old)
            ⊎ ArePaidFor (copies_in fed.messages.items) self.old.allowance self.new.allowance }
        ensures whole { IsTrue result → ArePaidFor (copies_in fed.messages.items)
            self.old.allowance self.new.allowance }
        ensures heard { (heard : List Message) × ((left : List Message)
            × ((fed.messages.items ≡ heard ++ left)
            × (AreHeard self.old.feeder.peer heard self.old.seat self.old.refusals
            self.new.seat self.new.refusals × (IsTrue result → left ≡ [])))) }
        ensures same { self.new ≡ record self.old {
          seat = self.new.seat;
          calls = self.new.calls;
          refusals = self.new.refusals;
          allowance = self.new.allowance;
        } }
    {
        let Fed { messages, fault } = fed;
        if !self.pay(copies_in(&messages)) {
            return false;
        }
        for message in messages {
            if !self.handle_message(message) {
                return false;
            }
        }
        if fault.is_some() {
            self.count_fault();
        }
        fault.is_none()
    }

    // Pays for copies before they are handed in, and waits until they may come. Returns false, and
    // pays nothing, if the link is closed meanwhile, if the life ends and they may not come yet
    // after one wait, or if they are more than may ever come at once.
    fn pay(&mut self, copies: u64) -> bool
        ensures paid { IsTrue result
            → ArePaidFor copies self.old.allowance self.new.allowance }
        ensures unpaid { result ≡ false → self.new ≡ self.old }
        ensures same { self.new ≡ record self.old { allowance = self.new.allowance } }
    {
        let mut has_waited = false;
        for _ in self.context.rt.forever() {
            let now = self.context.clock.now();
            let Err(until) = self.pay_now(copies, now) else {
                return true;
            };
            let comes_later = now < until;
            if !comes_later || self.is_closed() || has_waited && self.server.signals.is_ending() {
                return false;
            }
            if !has_waited {
                self.server.signals.counts.slowed.add(1);
            }
            has_waited = true;
            self.wait_until(until.min(moved_on(now, LONGEST_PAUSE)));
        }
        false
    }

    // Pays for copies if they may come now. Otherwise nothing is changed, and the result is the
    // first moment at which they may come.
    fn pay_now(&mut self, copies: u64, now: Moment) -> Result<(), Moment>
        ensures paid { MatchResult result
            (λ _. ArePaidFor copies self.old.allowance self.new.allowance)
            (λ _. self.new ≡ self.old) }
        ensures same { self.new ≡ record self.old { allowance = self.new.allowance } }
    {
        match &mut self.allowance {
            Some(allowance) => allowance.pay(copies, now),
            None => Ok(()),
        }
    }

    // Waits until this moment, or until the link is closed.
    fn wait_until(&self, until: Moment) {
        self.context
            .clock
            .wait(self.context.rt, &self.link.pause, until);
    }

    // Handles a message. Returns whether the link is read on.
    fn handle_message(&mut self, message: Message) -> bool
        ensures heard { IsOneHeard self.old.feeder.peer message self.old.seat self.old.refusals
            self.new.seat self.new.refusals }
        ensures same { self.new ≡ record self.old
            { seat = self.new.seat; calls = self.new.calls; refusals = self.new.refusals } }
    {
        match message {
            // the name was given before
            Message::Greeting(_) => true,
            Message::Copy(copy) => {
                self.handle_copy(copy);
                true
            }
            Message::Line(line) => {
                self.handle_line(&line);
                true
            }
        }
    }

    // If the copy is refused, only the operators who watch learn of it.
    fn handle_copy(&mut self, copy: FrameCopy)
        ensures counted { self.old.calls + 1 < 2 ^ 64 → self.new.calls ≡ self.old.calls + 1 }
        ensures heard { (moment : ℕ) × ((turn : Turn)
            × HasMade self.old.seat self.new.seat moment (Heard copy.reception.gateway) turn) }
        ensures same { self.new ≡ record self.old
            { seat = self.new.seat; calls = self.new.calls } }
    {
        self.pass_gate();
        let rt = self.context.rt;
        let moment = self.context.clock.now();
        self.link.set_last_copy(moment);
        let reception = copy.reception;
        let name = if self.server.is_watched() {
            FrameName::of(copy.phy_payload.as_slice())
        } else {
            FrameName::Other
        };
        let event = Event::Hear(copy);
        let turn = self.server.handle(rt, &mut self.seat, moment, event);
        if let Some(refusal) = turn.refused {
            let sight = Sight::of_copy(refusal, name, reception);
            self.server.tell(rt, sight);
        }
        if has_decided(&turn) {
            self.server.signals.tell_frames();
        }
        self.server.signals.tell_opened();
    }

    // Answers an application's request: a refusal goes to the application.
    fn handle_line(&mut self, line: &Line)
        ensures gateway { (gateway : Eui) → self.old.feeder.peer ≡ Some (peers.Gateway gateway)
            → self.new ≡ self.old }
        ensures heard { IsOneHeard self.old.feeder.peer (said.Line line.now) self.old.seat
            self.old.refusals self.new.seat self.new.refusals }
        ensures same { self.new ≡ record self.old
            { seat = self.new.seat; calls = self.new.calls; refusals = self.new.refusals } }
    {
        let Some(application) = asking(self.feeder.peer()) else {
            return;
        };
        let refused = self.answer(application, line);
        self.tell_asker(refused);
    }

    // Handles a line. Returns why it is refused, if it is.
    fn answer(&mut self, application: Application, line: &Line) -> Option<Refusal>
        ensures answered { IsAnswered application line.now self.old.seat self.new.seat result }
        ensures same { self.new ≡ record self.old
            { seat = self.new.seat; calls = self.new.calls } }
    {
        match read_line(self.context.alloc, line.as_str()) {
            Ok(request) => self.ask(application, request),
            Err(refusal) => Some(refusal),
        }
    }

    fn tell_asker(&mut self, refused: Option<Refusal>)
        ensures told { IsTold refused self.old.refusals self.new.refusals }
        ensures same { self.new ≡ record self.old { refusals = self.new.refusals } }
    {
        if let Some(refusal) = refused {
            let _ = self.refusals.push(refusal);
            self.link.bell.unpark();
        }
    }

    fn ask(&mut self, application: Application, request: Request) -> Option<Refusal>
        ensures counted { self.old.calls + 1 < 2 ^ 64 → self.new.calls ≡ self.old.calls + 1 }
        ensures asked { (moment : ℕ) × ((turn : Turn)
            × (HasMade self.old.seat self.new.seat moment (Asked application) turn
            × (result ≡ turn.refused))) }
        ensures same { self.new ≡ record self.old
            { seat = self.new.seat; calls = self.new.calls } }
    {
        self.pass_gate();
        let moment = self.context.clock.now();
        let event = Event::Ask(request.into_command(application));
        let rt = self.context.rt;
        let turn = self.server.handle(rt, &mut self.seat, moment, event);
        if has_decided(&turn) {
            self.server.signals.ring_flusher();
        }
        turn.refused
    }

    fn pass_gate(&mut self)
        ensures counted { self.old.calls + 1 < 2 ^ 64 → self.new.calls ≡ self.old.calls + 1 }
        ensures same { self.new ≡ record self.old { calls = self.new.calls } }
    {
        self.calls = self.calls.saturating_add(1);
        self.context
            .gate
            .pass(self.number.saturating_add(1), self.calls);
    }
}
