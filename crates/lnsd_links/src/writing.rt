// A sender, which writes to a link.
ghost use Rattle.std.specs.Prelude.{◌≡◌, ◌≤◌, ◌+◌, ◌⊎◌, ◌↔◌, [], length, IfSome, IsTrue, None};
ghost use Rattle.lnsd_links.specs.declared.link.Named.{Named};
ghost use Rattle.lnsd_links.specs.declared.writing.MayWrite.TheVariants.{Still};
ghost use Rattle.outbox.specs.Ring.{seen_by, taken_from};
ghost use Rattle.rtrb.specs.Ring.{known_items, received};
ghost use Rattle.lnsd_links.specs.Sending.{AreGathered, HaveAnswered, IsHandedOver, IsWrittenTo};

use crate::gathering::{Gathered, SOME, gather};
use crate::link::{Link, Named};
use crate::outgoing::{MUCH, Outgoing};
use crate::rings::WaitingLines;
use crate::signals::Signals;
use gateway_wire::Recipient;
use lnsd_operator::{Sight, Watch};
use lw_types::Refusal;
use outbox::Inlet;
use rtrb::Consumer;
use std::alloc::Global;
use std::io::{ErrorKind, Write};
use std::net::{Shutdown, TcpStream};
use std::sync::Wait;

// How many refusals are put together before they are sent.
const SOME_REFUSALS: u32 = 64;

// The number of writes in a row that may time out after nothing more comes. Each waits a second.
const PATIENCE: u32 = 8;

/// A link's sender.
#[derive(Drop)]
pub struct Sender<'x, R: Wait> {
    pub rt: &'x R,
    pub alloc: Global,
    pub signals: &'x Signals,
    // The operators who watch, if there are any.
    pub watch: Option<&'x Watch>,
    pub link: &'x Link,
    pub stream: &'x TcpStream,
    // The name of the link's peer.
    pub name: &'x Recipient,
    pub inlet: Inlet,
    pub refusals: Consumer<Refusal>,
    pub outgoing: Outgoing,
    // What wasn't sent when the link broke waits for the next link of its name.
    pub keeps: bool,
    // The link takes no more data.
    pub is_broken: bool,
}

// What shows that a sender may write what waits.
#[derive(Clone, Copy)]
pub(crate) enum MayWrite {
    // What waits is for this link alone.
    Alone,
    // What waits is for the link of a name, and this link still has that name.
    Still(Named),
}

impl<'x, R: Wait> Sender<'x, R> {
    /// Writes to the link until nothing more can come, and then ends its output. Returns what the
    /// next sender of the place uses.
    pub fn run(self) -> Spare
        ensures { result.place ≡ self.entry.link.now.place }
    {
        let mut sender = self;
        let link = sender.link;
        let _ = sender.outgoing.reserve();
        for _ in sender.rt.forever() {
            if sender.signals.is_stopped() {
                break;
            }
            let Some(may_write) = sender.may_write() else {
                break;
            };
            // This is read first: if it is true, everything that was put before is seen by the
            // reads after it.
            let is_last = sender.is_last();
            if sender.send_some(may_write) {
                continue;
            }
            if is_last {
                break;
            }
            link.bell.park(sender.rt);
        }
        let _ = sender.stream.shutdown(Shutdown::Write);
        Spare {
            place: link.place(),
            inlet: sender.inlet,
            outgoing: sender.outgoing,
        }
    }

    // `None` if the sender leaves what waits for the next link of this name: if the link is broken,
    // or lost the name.
    fn may_write(&self) -> Option<MayWrite>
        ensures kept { IsTrue self.now.keeps → IfSome result (λ may. (named : Named)
            × ((may ≡ Still named) × (named.place ≡ self.now.link.now.place))) }
        ensures broken { IsTrue self.now.keeps → IsTrue self.now.is_broken → result ≡ None }
        ensures left { result ≡ None → IsTrue self.now.keeps }
    {
        if !self.keeps {
            return Some(MayWrite::Alone);
        }
        if self.is_broken {
            return None;
        }
        Some(MayWrite::Still(self.link.named()?))
    }

    // Whether nothing more is put into the ring for this link.
    fn is_last(&mut self) -> bool
        ensures { self.new ≡ record self.old { inlet = self.new.inlet } }
    {
        self.link.is_over() || self.inlet.is_finished()
    }

    // Sends some of what waits, refusals first. Returns whether there was something.
    fn send_some(&mut self, may_write: MayWrite) -> bool
        requires { IsTrue self.old.keeps → (named : Named)
            × ((may_write ≡ Still named) × (named.place ≡ self.old.link.now.place)) }
    {
        let _ = may_write;
        let mut stream = self.stream;
        let handed = self.hand_over(&mut stream);
        self.count_dropped(handed.dropped);
        handed.is_some
    }

    // Gathers some of what waits, and writes it.
    fn hand_over<W: Write>(&mut self, stream: &mut W) -> HandedOver
        ensures written { IsHandedOver self.new.name.now
            (received self.old.refusals) (received self.new.refusals)
            (taken_from self.old.inlet) (taken_from self.new.inlet) result.is_some
            self.old.is_broken self.new.is_broken result.dropped
            (W.contents stream.old) (W.contents stream.new) }
        ensures refusals { (length (received self.new.refusals)
            ≡ length (received self.old.refusals) + SOME_REFUSALS)
            ⊎ (known_items self.new.refusals ≡ []) }
        ensures keeps { self.new.keeps ≡ self.old.keeps }
        ensures name { self.new.name ≡ self.old.name }
    {
        self.outgoing.clear();
        let is_told = self.gather_refusals();
        let Gathered { taken, lost } = self.gather_effects();
        let is_sent = self.is_broken
            || send_bytes(
                self.rt,
                self.signals,
                self.link,
                &mut self.inlet,
                self.outgoing.as_slice(),
                stream,
            );
        if !is_sent {
            self.is_broken = true;
        }
        HandedOver {
            is_some: is_told || taken > 0,
            dropped: if is_sent { lost } else { taken },
        }
    }

    fn count_dropped(&self, lost: u64) {
        if lost == 0 {
            return;
        }
        self.signals.counts.dropped.add(lost);
        if let Some(watch) = self.watch {
            watch.tell(self.rt, Sight::Dropped(*self.name, lost));
        }
    }

    // Takes refusals and puts their answers after the outgoing frames; on a broken link none are
    // put. Returns whether there were any.
    fn gather_refusals(&mut self) -> bool
        ensures answered { HaveAnswered self.old.is_broken (received self.old.refusals)
            (received self.new.refusals) result self.old.outgoing self.new.outgoing }
        ensures enough { (length (received self.new.refusals)
            ≡ length (received self.old.refusals) + SOME_REFUSALS)
            ⊎ (known_items self.new.refusals ≡ []) }
        ensures inlet { self.new.inlet ≡ self.old.inlet }
        ensures broken { self.new.is_broken ≡ self.old.is_broken }
        ensures keeps { self.new.keeps ≡ self.old.keeps }
        ensures name { self.new.name ≡ self.old.name }
    {
        let mut some = false;
        for _ in 0..SOME_REFUSALS {
            let Ok(refusal) = self.refusals.pop() else {
                break;
            };
            some = true;
            if !self.is_broken {
                let _ = self.outgoing.add_refusal(self.alloc, refusal);
            }
        }
        some
    }

    // Takes effects for the link's name.
    fn gather_effects(&mut self) -> Gathered
        ensures gathered { AreGathered self.new.name.now
            (taken_from self.old.inlet) (taken_from self.new.inlet) result.taken result.lost
            self.old.outgoing self.new.outgoing }
        ensures enough { (result.taken ≡ SOME)
            ⊎ ((MUCH ≤ length self.new.outgoing) ⊎ (seen_by self.new.inlet ≡ [])) }
        ensures broken { (self.new.is_broken ≡ self.old.is_broken)
            × (IsTrue self.old.is_broken → result.lost ≡ result.taken) }
        ensures refusals { self.new.refusals ≡ self.old.refusals }
        ensures keeps { self.new.keeps ≡ self.old.keeps }
        ensures name { self.new.name ≡ self.old.name }
    {
        gather(
            self.alloc,
            self.name,
            &mut self.inlet,
            &mut self.outgoing,
            self.is_broken,
        )
    }
}

// Returns whether the link took all of these bytes. While the link takes nothing, the sender keeps
// waiting; but if nothing more comes, it gives up the link after eight waits.
fn send_bytes<R: Wait, W: Write>(
    rt: &R,
    signals: &Signals,
    link: &Link,
    inlet: &mut Inlet,
    bytes: &[u8],
    stream: &mut W,
) -> bool
    ensures written { IsWrittenTo bytes.now result (W.contents stream.old)
        (W.contents stream.new) }
    ensures inlet { taken_from inlet.new ≡ taken_from inlet.old }
{
    let mut rest = bytes;
    let mut waits: u32 = 0;
    for _ in rt.forever() {
        if rest.is_empty() {
            return true;
        }
        if signals.is_stopped() || waits >= PATIENCE {
            return false;
        }
        match stream.write(rest) {
            Ok(0) => return false,
            Ok(count) => {
                rest = &rest[count..];
                waits = 0;
            }
            Err(error) if !is_passing(error.kind()) => return false,
            Err(_) if link.is_over() || inlet.is_finished() => {
                waits = waits.saturating_add(1);
            }
            Err(_) => {}
        }
    }
    unreachable!()
}

// Whether there was something to be sent, and how many effects were lost.
#[derive(Clone, Copy)]
struct HandedOver {
    is_some: bool,
    dropped: u64,
}

/// What the senders of a place use, one after another.
#[derive(Drop)]
pub struct Spare {
    /// The number of the place, from 0.
    pub place: usize,
    pub inlet: Inlet,
    pub outgoing: Outgoing,
}

/// A link whose peer has greeted: its socket and its name.
#[derive(Drop)]
pub struct GreetedLink {
    pub stream: TcpStream,
    pub name: Recipient,
}

/// What a sender of a place uses for one link.
#[derive(Drop)]
pub struct HostSender<'x, R: Wait> {
    pub rt: &'x R,
    pub alloc: Global,
    pub signals: &'x Signals,
    pub watch: Option<&'x Watch>,
    // The lines that wait, if the peer is an application with a ring of its own.
    pub lines: Option<&'x WaitingLines>,
    // All links: the sender of another link may wait for these lines.
    pub links: &'x [Link],
    pub link: &'x Link,
    pub greeted: &'x GreetedLink,
}

impl<'x, R: Wait> HostSender<'x, R> {
    /// Writes to the link with what the place has for it. A gateway's effects come from the ring of
    /// the place, an application's from its own ring.
    pub fn run(self, refusals: Consumer<Refusal>) {
        let Some(spare) = self.link.spare.lock(self.rt).take() else {
            return;
        };
        let spare = match self.lines {
            None => self.send(spare, refusals),
            Some(lines) => self.send_lines(lines, spare, refusals),
        };
        *self.link.spare.lock(self.rt) = Some(spare);
    }

    // The ring of an application is available after the sender of its older link has ended. That
    // sender then rings.
    fn send_lines(&self, lines: &WaitingLines, spare: Spare, refusals: Consumer<Refusal>) -> Spare {
        let Some(inlet) = self.wait_for(lines) else {
            return spare;
        };
        let Spare {
            place,
            inlet: unused,
            outgoing,
        } = spare;
        let spare = Spare {
            place,
            inlet,
            outgoing,
        };
        let Spare {
            place,
            inlet,
            outgoing,
        } = self.send(spare, refusals);
        lines.give_back(self.rt, inlet);
        for link in self.links {
            link.bell.unpark();
        }
        Spare {
            place,
            inlet: unused,
            outgoing,
        }
    }

    // `None` if the link ended, or the life was stopped, before the ring was available.
    fn wait_for(&self, lines: &WaitingLines) -> Option<Inlet> {
        for _ in self.rt.forever() {
            let inlet = lines.take(self.rt);
            if inlet.is_some() {
                return inlet;
            }
            if self.link.is_over() || self.link.is_disconnected() || self.signals.is_stopped() {
                return None;
            }
            self.link.bell.park(self.rt);
        }
        None
    }

    fn send(&self, spare: Spare, refusals: Consumer<Refusal>) -> Spare {
        let Spare {
            inlet,
            outgoing,
            ..
        } = spare;
        let sender = Sender {
            rt: self.rt,
            alloc: self.alloc,
            signals: self.signals,
            watch: self.watch,
            link: self.link,
            stream: &self.greeted.stream,
            name: &self.greeted.name,
            inlet,
            refusals,
            outgoing,
            keeps: self.lines.is_some(),
            is_broken: false,
        };
        sender.run()
    }
}

/// Whether a write with this error may be tried again: it was interrupted, or nothing was taken in
/// its time.
pub fn is_passing(kind: ErrorKind) -> bool
    ensures { IsTrue result
        ↔ ((kind ≡ ErrorKind.Interrupted) ⊎ (kind ≡ ErrorKind.WouldBlock)) }
{
    kind == ErrorKind::Interrupted || kind == ErrorKind::WouldBlock
}
