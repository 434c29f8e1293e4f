// The worker of a place, which takes one link after another.
ghost use Rattle.std.specs.Prelude.{◌≡◌, ◌<◌, ◌+◌, ◌-◌, ◌/◌, ◌↔◌, ℕ, Err, IfOk, IfSome, IsOk};
ghost use Rattle.std.specs.Prelude.{IsTrue, None, Some, cond, false, max, option_map};
ghost use Rattle.lnsd_links.specs.Linked.{IsHeld, is_listed, may_greet, may_take_over};
ghost use Rattle.lnsd_links.specs.declared.names.Ungranted.TheVariants.{Unlisted};
ghost use Rattle.lnsd_links.specs.declared.allowance.CopyRate.TheVariants.{PerSecond, Unlimited};
ghost use Rattle.lnsd_links.specs.declared.link.LeftLink.{LeftLink};
ghost use Rattle.lnsd_threads.specs.declared.hosting.Farewell.TheVariants.{Left};
ghost use Rattle.lnsd_threads.specs.Hearing.{CameWithGreeting};
ghost use Rattle.lnsd_threads.specs.Named.{IsFarewell, peer_name};

use crate::lasting::Lasting;
use crate::reading::{Incoming, PIECE, Worker, read_some, recipient_of};
use crate::sending::start_sender;
use crate::{Gate, LifeClock, moved_on};
use gateway_wire::Recipient;
use link_messages::{Fed, Feeder};
use lnsd_links::{
    Allowance, ClosedLink, Directory, Ending, GreetedLink, HeldName, HostSender, LeftLink, Link,
    PLACES, Policy, Ungranted, drop_all, set_options,
};
use lnsd_operator::Sight;
use lw_types::Refusal;
use rtrb::{Consumer, Producer, RingBuffer};
use session_core::{Books, Moment, Seat};
use std::net::TcpStream;
use std::sync::Wait;
use std::thread;
use std::thread::{Scope, Threads};
use std::time::Duration;

// How long a read waits after that time is over, in milliseconds: the shortest time that a read may
// wait.
const SHORTEST_WAIT: u64 = 1;

// After how many milliseconds a worker looks again how long its link has to greet, if that may get
// shorter.
const GREETING_LOOK: u64 = 20;

// The pause after a failed accept, in seconds. An accept fails if the process has no descriptors
// left, or no memory.
const ACCEPT_PAUSE: u64 = 1;

/// The name that greeted on a link, and what came with the greeting.
#[derive(Drop)]
struct Greeted {
    name: Recipient,
    fed: Fed,
}

/// What happened to a link's name at the end of the link's input: it was left; or it stays, for
/// what is still to be sent, since the life ends or keeps its links.
#[derive(Clone, Copy)]
enum Farewell {
    Left(LeftLink),
    Kept(Ending),
    Stays(Lasting),
}

impl<'x, B: Books, R: Threads + Wait + Sync, G: Gate, C: LifeClock> Worker<'x, B, R, G, C> {
    /// Serves each link of its place to its end, until the life ends or no other link comes.
    /// Returns the seat.
    pub fn run(self) -> Seat<B> {
        let mut worker = self;
        let (rt, server) = (worker.context.rt, worker.server);
        for _ in rt.forever() {
            let next = server.entrance.next(rt, worker.number);
            if server.signals.is_ending() {
                break;
            }
            match next {
                Some(stream) => worker.serve(stream),
                None if server.entrance.is_open() => worker.pause(),
                None => break,
            }
        }
        worker.end_input();
        worker.seat
    }

    fn pause(&self) {
        let pause = Duration::from_secs(ACCEPT_PAUSE);
        self.link.bell.park_timeout(self.context.rt, pause);
    }

    // Register the link before serving it, so that shutdown can close it. Shutdown sets its flag
    // before it closes links, so check the flag after registering. A link that can't be registered
    // isn't served.
    fn serve(&mut self, stream: TcpStream) {
        let Ok(shown) = stream.try_clone() else {
            return;
        };
        set_options(&stream);
        let link = self.link;
        let rt = self.context.rt;
        let signals = &self.server.signals;
        link.show(rt, shown);
        signals.count_linked();
        if !signals.is_ending() {
            self.welcome(stream);
        }
        signals.count_unlinked();
        if !self.server.policy.keeps_links {
            link.hide(rt);
        }
    }

    fn welcome(&mut self, stream: TcpStream) {
        let context = self.context;
        self.feeder = Feeder::new(context.alloc);
        self.server.signals.count_stranger();
        let greeted = self.handle_greeting(&stream);
        self.server.signals.count_known();
        let Some(greeted) = greeted else {
            return;
        };
        // each link has its own ring of refusals, so that no refusal goes to the next link; if
        // there is no memory for the ring, an older link of this name stays
        let Ok((refused, refusals)) = RingBuffer::new(context.alloc, PLACES) else {
            return;
        };
        let name = greeted.name;
        if let Some(held) = self.take_over(&name) {
            self.begin_link(refused);
            let _ = self.converse(stream, greeted, refusals, held);
            self.drop_rest(name);
        }
    }

    // Gives the link its own ring of refusals, and an allowance of which nothing was earned yet.
    fn begin_link(&mut self, refused: Producer<Refusal>)
        ensures same { self.new ≡ record self.old
            { refusals = refused; allowance = self.new.allowance } }
        ensures unlimited { self.old.server.now.policy.copies ≡ Unlimited
            → self.new.allowance ≡ None }
        ensures limited { (copies : ℕ) (burst : ℕ)
            → self.old.server.now.policy.copies ≡ PerSecond copies burst
            → (now : ℕ) × (self.new.allowance ≡ Some (record
            { per_second = copies; burst = burst; level = 0; at = now })) }
    {
        self.refusals = refused;
        self.allowance = Allowance::new(self.server.policy.copies, self.context.clock.now());
    }

    fn converse(
        &mut self,
        stream: TcpStream,
        greeted: Greeted,
        refusals: Consumer<Refusal>,
        held: HeldName,
    ) -> Farewell
        ensures { IsFarewell held result }
    {
        let Greeted { name, fed } = greeted;
        let context = self.context;
        let greeted = GreetedLink { stream, name };
        let worker = &mut *self;
        thread::scope(
            thread::scope_env(),
            context.rt,
            |scope|
                ensures { IsFarewell held result }
            { hold(scope, worker, &greeted, fed, refusals, held) },
        )
    }

    // Drops what was for the link that has ended: it is of no use to the next one.
    fn drop_rest(&self, name: Recipient) {
        let rt = self.context.rt;
        let mut lost = 0;
        if let Some(spare) = self.link.spare.lock(rt).as_mut() {
            lost = drop_all(&mut spare.inlet);
        }
        if lost > 0 {
            self.server.signals.counts.dropped.add(lost);
            self.server.tell(rt, Sight::Dropped(name, lost));
        }
    }
}

// Gives a link a sender while it is read, and until what waits for it is written.
fn hold<'s, 'x: 's, E, B: Books, R: Threads + Wait + Sync, G: Gate, C: LifeClock>(
    scope: &Scope<'s, E>,
    worker: &mut Worker<'x, B, R, G, C>,
    greeted: &'s GreetedLink,
    fed: Fed,
    refusals: Consumer<Refusal>,
    held: HeldName,
) -> Farewell
    ensures { IsFarewell held result }
{
    let context = worker.context;
    let sender = HostSender {
        rt: context.rt,
        alloc: context.alloc,
        signals: &worker.server.signals,
        watch: worker.server.watch(),
        lines: worker.server.lines_of(&greeted.name),
        links: worker.server.links.as_slice(),
        link: worker.link,
        greeted,
    };
    let sending = start_sender(scope, worker.number, sender, refusals);
    if let Some(sending) = &sending
        && worker.handle_all(fed)
    {
        worker.read(&greeted.stream, sending);
    }
    worker.end_link(held, sending.is_some())
}

// Gives a link a name that is listed: one that another link has only if names are taken over. Then
// the other link is closed. Returns the name that the link holds then, and that another link was
// closed.
fn named<R: Wait>(
    rt: &R,
    directory: &mut Directory,
    links: &[Link],
    name: &Recipient,
    link: usize,
    takes_over: bool,
) -> Result<(HeldName, Option<ClosedLink>), Ungranted>
    ensures held { IfOk result (λ named. IsHeld name.now link named.0) }
    ensures granted { IsOk result ↔ IsTrue (cond takes_over
        (may_take_over directory.old name.now) (may_greet directory.old name.now)) }
    ensures unlisted { (result ≡ Err Unlisted) ↔ (is_listed directory.old name.now ≡ false) }
{
    if takes_over {
        return directory.take_over(rt, links, name, link);
    }
    match directory.greet(name, link) {
        Ok(held) => Ok((held, None)),
        Err(ungranted) => Err(ungranted),
    }
}

// How long a read waits until this moment, in milliseconds. After this moment a read still takes
// what has come: the link may have greeted in time while the process was stopped.
fn wait_until(now: Moment, until: Moment) -> u64
    ensures { result ≡ max (until - now) 1 }
{
    until.get().saturating_sub(now.get()).max(SHORTEST_WAIT)
}

// How long a link has to greet, in milliseconds, if that is limited. `crowd` is the number of links
// that haven't greeted, if all places are taken.
fn greeting_time(policy: &Policy, crowd: Option<u64>) -> Option<u64>
    ensures calm { crowd ≡ None → result ≡ policy.now.greeting_wait }
    ensures alike { policy.now.crowded_wait ≡ None → result ≡ policy.now.greeting_wait }
    ensures crowded { (wait : ℕ) (links : ℕ) → policy.now.crowded_wait ≡ Some wait
        → crowd ≡ Some links → result ≡ Some (wait / max links 1) }
{
    match (policy.crowded_wait, crowd) {
        (Some(wait), Some(crowd)) => Some(wait / crowd.max(1)),
        _ => policy.greeting_wait,
    }
}

// A read of a link that hasn't greeted.
#[derive(Clone, Copy)]
struct GreetingRead {
    // How long it waits, in milliseconds, if that is limited.
    wait: Option<u64>,
    // If nothing came meanwhile, the link's time is over.
    is_last: bool,
}

impl GreetingRead {
    // The read of a link whose time ends at this moment, if it does. If the time may get shorter
    // meanwhile, the read waits only until that is to be looked at again.
    fn new(policy: &Policy, now: Moment, until: Option<Moment>) -> Self
        ensures last { IsTrue result.is_last
            → result.wait ≡ option_map (λ moment. max (moment - now) 1) until }
        ensures alike { policy.now.crowded_wait ≡ None → IsTrue result.is_last }
        ensures short { result.is_last ≡ false
            → (result.wait ≡ Some 20) × IfSome until (λ moment. now + 20 < moment) }
    {
        let wait = until.map(|until| wait_until(now, until));
        match (policy.crowded_wait, wait) {
            (Some(_), Some(wait)) if wait > GREETING_LOOK => GreetingRead {
                wait: Some(GREETING_LOOK),
                is_last: false,
            },
            _ => GreetingRead {
                wait,
                is_last: true,
            },
        }
    }
}

impl<'x, B: Books, R: Wait, G: Gate, C: LifeClock> Worker<'x, B, R, G, C> {
    // Reads until the peer has greeted. `None` if nothing more has come when its time is over, if
    // it sends something else, or if it has gone.
    fn handle_greeting(&mut self, stream: &TcpStream) -> Option<Greeted>
        ensures named { IfSome result
            (λ greeted. option_map peer_name self.new.feeder.peer ≡ Some greeted.name) }
        ensures fed { self.old.feeder.peer ≡ None → IfSome result
            (λ greeted. CameWithGreeting greeted.fed.messages.items greeted.fed.fault
            self.new.feeder) }
        ensures same { self.new ≡ record self.old { feeder = self.new.feeder } }
    {
        let since = self.context.clock.now();
        let mut buffer = [0u8; PIECE];
        for _ in self.context.rt.forever() {
            match self.next_piece(stream, since, &mut buffer) {
                Incoming::Nothing => {}
                Incoming::Late => {
                    self.server.signals.counts.silent.add(1);
                    self.server.tell(self.context.rt, Sight::Silent);
                    break;
                }
                Incoming::End => {
                    self.end();
                    break;
                }
                Incoming::Bytes(n) => {
                    let piece = buffer.get(..n).unwrap_or(&[]);
                    let Ok(fed) = self.feeder.feed(piece) else {
                        break;
                    };
                    if let Some(peer) = self.feeder.peer() {
                        let _ = stream.set_read_timeout(None);
                        let name = recipient_of(&peer);
                        return Some(Greeted { name, fed });
                    }
                    if fed.fault.is_some() {
                        self.count_fault();
                        break;
                    }
                }
            }
        }
        None
    }

    // The next bytes of a link that came at this moment and hasn't greeted; `Late` if its time is
    // over.
    fn next_piece(&self, stream: &TcpStream, since: Moment, buffer: &mut [u8]) -> Incoming {
        let read = self.greeting_read(since);
        if let Some(wait) = read.wait
            && stream
                .set_read_timeout(Some(Duration::from_millis(wait)))
                .is_err()
        {
            return Incoming::Late;
        }
        match read_some(stream, buffer) {
            Incoming::Late if !read.is_last => Incoming::Nothing,
            incoming => incoming,
        }
    }

    // How long the next read of a link waits that came at this moment and hasn't greeted.
    fn greeting_read(&self, since: Moment) -> GreetingRead {
        let policy = &self.server.policy;
        let now = self.context.clock.now();
        let time = greeting_time(policy, self.server.signals.crowd());
        GreetingRead::new(policy, now, time.map(|time| moved_on(since, time)))
    }

    // Gives the link its name, and closes the link that had it, if names are taken over. The
    // directory stays locked meanwhile. The older link's worker has to leave the directory before
    // its place goes to the next link, so the next link isn't closed in place of the older one. If
    // the link gets no name, it counts as unlisted or as faulted.
    fn take_over(&self, name: &Recipient) -> Option<HeldName>
        ensures held { IfSome result (IsHeld name.now self.now.number) }
    {
        let rt = self.context.rt;
        let links = self.server.links.as_slice();
        let takes_over = self.server.policy.takes_over;
        let mut directory = self.server.directory.lock(rt);
        let named = named(rt, &mut directory, links, name, self.number, takes_over);
        let (held, taken) = match named {
            Ok(given) => given,
            Err(Ungranted::Unlisted) => {
                self.server.signals.counts.unlisted.add(1);
                self.server.tell(rt, Sight::Unlisted(*name));
                return None;
            }
            Err(_) => {
                self.count_fault();
                return None;
            }
        };
        if taken.is_some() {
            self.server.signals.counts.taken_over.add(1);
            self.server.tell(rt, Sight::TakenOver(*name));
        }
        self.server.tell(rt, Sight::Linked(*name));
        Some(held)
    }

    // Ends the reading of the link. `is_sent` says whether it has a sender. If the name was left,
    // the sender of this very link knows that nothing more comes.
    fn end_link(&mut self, held: HeldName, is_sent: bool) -> Farewell
        ensures farewell { IsFarewell held result }
        ensures over { (left : LeftLink) → result ≡ Left left
            → left.place ≡ self.old.link.now.place }
        ensures ended { IsTrue self.old.has_ended → IsTrue self.new.has_ended }
        ensures same { self.new ≡ record self.old { has_ended = self.new.has_ended } }
    {
        if let Some(ending) = self.server.signals.ending() {
            self.end_input();
            return Farewell::Kept(ending);
        }
        if is_sent && let Some(lasting) = Lasting::of(&self.server.policy) {
            self.end_input();
            return Farewell::Stays(lasting);
        }
        let rt = self.context.rt;
        let mut directory = self.server.directory.lock(rt);
        let left = directory.leave(held);
        drop(directory);
        let over = self.link.set_over(left);
        if left.is_free() {
            self.server.tell(rt, Sight::Ended(left.name()));
        }
        Farewell::Left(over)
    }
}
