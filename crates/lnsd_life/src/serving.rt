// One life of a server.
ghost use Rattle.std.specs.Prelude.{◌≡◌, ◌≢◌, ◌≤◌, ◌+◌, length, sum, Err, IfErr, IfOk, IsOkAnd};
ghost use Rattle.std.specs.Prelude.{ℕ, cond, map, slice_get, IsOk, IsTrue, MatchResult, None};
ghost use Rattle.std.specs.Prelude.{OnOk, Option, Some, false, true};
ghost use Rattle.session_core.specs.History.{HasAllDecisions};
ghost use Rattle.lnsd_links.specs.declared.door.Entrance.TheVariants.{Filled};
ghost use Rattle.lnsd_links.specs.declared.allowance.CopyRate.TheVariants.{PerSecond};
ghost use Rattle.lnsd_links.specs.declared.link.Link.{Link};
ghost use Rattle.lnsd_links.specs.declared.name_list.NameList.{NameList};
ghost use Rattle.lw_types.specs.declared.refusal.Refusal.TheVariants.{OutOfMemory, OutOfStep};
ghost use Rattle.lnsd_operator.specs.declared.fault.NameListFault.{NameListFault};
ghost use Rattle.lnsd_operator.specs.declared.fault.ServeFault.TheVariants.{Names, Refused};
ghost use Rattle.lnsd_operator.specs.Faults.{IsOfBeginning, IsOfLinks};
ghost use Rattle.lnsd_life.specs.FirstList.{IsFirstList, IsListFault};
ghost use Rattle.lnsd_life.specs.Served.{IsNotOfNames, IsServed, IsUntold, first_core};
ghost use Rattle.store.specs.State.{store_state};

use crate::parts::Parts;
use crate::running::{LifeEnd, run};
use crate::{LifeReport, ServedLife};
use disk::Disk;
use lnsd_links::{
    CopyCount, CopyRate, Directory, Door, Entrance, Link, LinkCount, NameList, NameListFault,
    NameSource, OwnRing, PlaceCount, Policy, Signals, WaitingLines, accept, empty_places,
    read_names,
};
use lnsd_operator::{ControlSocket, Counts, DiskTimes, ServeFault};
use lnsd_threads::{Context, Gate, LifeClock, LiveServer, NobodyTold, OnBegun};
use lw_types::Refusal;
use session_core::{BlankHistory, Books, Core, History, Seat, Shared};
use std::alloc::Global;
use std::marker::Brand;
use std::net::TcpListener;
use std::os::unix::net::UnixListener;
use std::sync::ledger::Blank;
use std::sync::{Mutex, Wait};
use std::thread::Threads;
use store::Store;

/// Accepts this number of links, closes the listener, and serves the links until all their inputs
/// have ended. What they send is decided and committed to the store, and released effects are sent
/// on them. Returns the store, and the result of the life.
///
/// Each link has a worker, which passes the gate before each of its calls, and a sender, with a
/// ring of 1,024 effects and one of 1,024 refusals. A link is at fault, and read no further, after
/// bytes that are no message, a length above 700, or an end inside a frame. The same holds after a
/// greeting with a name that a link already has, or a greeting of a gateway when 64 have links. A
/// link is also read no further if memory for its messages runs out, which doesn't count as a
/// fault. Its sender goes on, and it keeps its name. An effect is dropped if its gateway or
/// application has no link, or if the link's ring is full. A refusal that finds its ring full is
/// dropped too, but not counted.
///
/// At the end a last tick, 200 ms past the effective time, closes the windows that are open. Then
/// what is left is committed, and each sender writes what waits. A peer that then takes nothing for
/// eight seconds is given up, and what is left for it is dropped. A store that fails ends the life
/// at once: the links are closed, and what waits for them is lost. In each case every thread is
/// joined.
///
/// A worker waits in its read. A sender and the flusher wait for a bell. The closer waits until the
/// oldest window is due, and for at least 2 ms: frames that come close together are committed
/// together, requests at once. Threads poll in two cases only: a sender whose peer takes nothing
/// tries again each second, and the closer tries again when memory runs out. The call need not
/// return, since an input may never end.
///
/// The contract says only this: the shares sum to the number of decisions made. If there is a
/// report, the store's number grew by this number, no call of the disk failed, and the report has
/// a share of each link and one of the closer. If there is none, it says why. The decisions that
/// were committed continue the store, in order. If there is a report, their number is the number of
/// decisions made. The calls that it makes have proofs of their own; the rest is shown by tests on
/// sockets.
pub fn serve_links<
    'x,
    R: Threads + Wait + Sync,
    D: Disk + Drop,
    G: Gate + Sync,
    C: LifeClock + Sync,
>(
    rt: &'x R,
    alloc: Global,
    store: Store<D>,
    listener: TcpListener,
    links: LinkCount,
    gate: &'x G,
    clock: &'x C,
) -> ServedLife<D>
    ensures served { IsServed D.Disk store result.result result.store }
    ensures unlisted { IfErr result.result IsNotOfNames }
    ensures workers { IfOk result.result
        (λ report. length report.shares.items ≡ links + 1) }
{
    let context = Context {
        rt,
        alloc,
        gate,
        clock,
        times: None,
    };
    let beginning = with_links(alloc, &store, listener, links);
    begin(
        &context,
        None::<&NoNames>,
        store,
        beginning,
        &mut NobodyTold,
    )
}

/// Serves links that come in through a listener, as many at a time as there are places, until the
/// life ends. What they send is decided and committed to the store, and released effects are sent
/// on them. Returns the store, and the result of the life.
///
/// A link that has a place is served as by [`serve_links`], with these differences. It has to greet
/// within ten seconds; otherwise it is closed and counted. It ends when its input ends, or by a
/// fault. Then its name and its place are free; its sender writes what waits, and gives up a peer
/// that takes nothing for eight seconds. **A greeting with a name that already has a link takes the
/// name over**: the older link is closed at once, and what waits for it is dropped and counted. An
/// effect for a gateway without a link is also dropped and counted. What leaves on a link is for
/// the name of that link, not for one that had its place before. A link that comes while all places
/// are taken waits for one.
///
/// Lines for an application wait while it has no link, at most 1,024. They go on in order on its
/// next link, except for those that were being written when a link failed. What waits for an
/// application that has no link at the end is dropped and counted.
///
/// A link may send 1,000 copies a second, and 400 at once if it has sent none for 0.4 seconds. A
/// link that has sent more is read later.
///
/// Operators come in through a listener of their own, eight at a time, and send one [`Order`] each.
/// The connection of an operator who sends nothing for two seconds is closed, and after 0.1 seconds
/// if eight are connected. What operators see of the disk is in `times`.
///
/// If `names` is given, only the names of its list may greet. The list is read when the life
/// begins, and again when an operator orders it with [`Order::Reload`]. A life doesn't begin with a
/// list that isn't taken, or that has as many names as there are places or more. A link that greets
/// with another name is closed and counted, and takes no name over. A new list closes the links
/// whose names it doesn't have; a list that isn't taken leaves the old one. While all places are
/// taken, a link has to greet within a second divided by the number of links that haven't greeted,
/// so that a place soon becomes free. A listed link gets it if its greeting comes within that time.
///
/// `on_begun` is called when every thread of the life runs. If a thread can't be started, it isn't
/// called, and the life is refused with `OutOfMemory`.
pub fn serve_on<
    'x,
    R: Threads + Wait + Sync,
    D: Disk + Drop,
    G: Gate + Sync,
    C: LifeClock + Sync,
    S: NameSource + Sync,
    N: OnBegun,
>(
    rt: &'x R,
    alloc: Global,
    store: Store<D>,
    listener: TcpListener,
    control: UnixListener,
    count: PlaceCount,
    names: Option<&'x S>,
    gate: &'x G,
    clock: &'x C,
    times: &'x DiskTimes,
    on_begun: &mut N,
) -> ServedLife<D>
    ensures served { IsServed D.Disk store result.result result.store }
    ensures listed { IfOk result.result
        (λ report. (list : Option NameList) × IsFirstList S.gives names.entry count list) }
    ensures unlisted { (fault : NameListFault) → result.result ≡ Err (Names fault)
        → IsListFault S.gives names.entry count fault }
    ensures workers { IfOk result.result
        (λ report. length report.shares.items ≡ count + 1) }
{
    let context = Context {
        rt,
        alloc,
        gate,
        clock,
        times: Some(times),
    };
    let beginning = with_door(alloc, &store, listener, control, count, names);
    begin(&context, names, store, beginning, on_begun)
}

// What a life begins with if its links come before it and stay.
fn with_links<D: Disk>(
    alloc: Global,
    store: &Store<D>,
    listener: TcpListener,
    count: LinkCount,
) -> Result<Beginning, ServeFault>
    ensures core { IfOk result (λ life. life.core ≡ first_core (store_state D.state store.now)) }
    ensures places { IfOk result (λ life. length life.links.items ≡ count) }
    ensures names { IfOk result (λ life. life.names ≡ None) }
    ensures refused { IfErr result IsOfLinks }
{
    let streams = accept(alloc, listener, count)?;
    let (links, core) = places_of(alloc, store, count.get())?;
    Ok(Beginning {
        core,
        links,
        entrance: Entrance::Filled(streams),
        policy: ONCE,
        names: None,
        control: None,
    })
}

// What a life begins with if its links come and go.
fn with_door<D: Disk, S: NameSource>(
    alloc: Global,
    store: &Store<D>,
    listener: TcpListener,
    control: UnixListener,
    places: PlaceCount,
    source: Option<&S>,
) -> Result<Beginning, ServeFault>
    ensures core { IfOk result (λ life. life.core ≡ first_core (store_state D.state store.now)) }
    ensures places { IfOk result (λ life. length life.links.items ≡ places) }
    ensures names { IfOk result (λ life. IsFirstList S.gives source.entry places life.names) }
    ensures refused { IfErr result IsOfBeginning }
    ensures unlisted { (fault : NameListFault) → result ≡ Err (Names fault)
        → IsListFault S.gives source.entry places fault }
{
    let Ok(door) = Door::new(listener) else {
        return Err(ServeFault::Listen);
    };
    let control = ControlSocket::new(alloc, control, store.table().slots())?;
    let names = first_list(source, places)?;
    let (links, core) = places_of(alloc, store, places.get())?;
    Ok(Beginning {
        core,
        links,
        entrance: Entrance::Open(door),
        policy: anew(names.is_some()),
        names,
        control: Some(control),
    })
}

// The places of a life, without links, and its core.
fn places_of<D: Disk>(
    alloc: Global,
    store: &Store<D>,
    count: u64,
) -> Result<(Vec<Link>, Core), ServeFault>
    ensures count { IfOk result (λ life. length life.0.items ≡ count) }
    ensures places { IfOk result (λ life. (place : ℕ) (link : Link)
        → slice_get life.0.items place ≡ Some link → link.place ≡ place) }
    ensures core { IfOk result (λ life. life.1 ≡ first_core (store_state D.state store.now)) }
    ensures refused { IfErr result (λ fault. fault ≡ Refused OutOfMemory) }
{
    let links = match empty_places(alloc, count) {
        Ok(links) => links,
        Err(refusal) => return Err(ServeFault::Refused(refusal)),
    };
    match Core::new(alloc, store.table(), store.seq()) {
        Ok(core) => Ok((links, core)),
        Err(refusal) => Err(ServeFault::Refused(refusal)),
    }
}

// The list of the names that may greet at first, if there is one.
fn first_list<S: NameSource>(
    source: Option<&S>,
    places: PlaceCount,
) -> Result<Option<NameList>, ServeFault>
    ensures { MatchResult result (IsFirstList S.gives source.entry places)
        (λ e. (fault : NameListFault) × ((e ≡ Names fault)
        × IsListFault S.gives source.entry places fault)) }
{
    let Some(source) = source else {
        return Ok(None);
    };
    match read_names(source, places.get() as usize) {
        Ok(list) => Ok(Some(list)),
        Err(fault) => Err(ServeFault::Names(fault)),
    }
}

// A life whose links come before it begins, and stay.
const ONCE: Policy = Policy {
    greeting_wait: None,
    takes_over: false,
    keeps_links: true,
    crowded_wait: None,
    lines_wait: false,
    copies: CopyRate::Unlimited,
};

// How long a link has to greet, in milliseconds.
const GREETING_WAIT: u64 = 10_000;

// The time that the links which haven't greeted share while all places are taken, in milliseconds,
// if the names that may greet are listed.
const CROWDED_WAIT: u64 = 1000;

// How many copies a link may send in a second.
const RATE: u64 = 1000;

// How many copies it may send at once. A worker pays for what it has read at a time before it reads
// on, so these have to be more than the copies of one read.
const BURST: u64 = 400;

// A life whose links come and go.
fn anew(is_listed: bool) -> Policy
    ensures { result ≡ record {
      greeting_wait = Some 10000;
      takes_over = true;
      keeps_links = false;
      crowded_wait = cond is_listed (Some 1000) None;
      lines_wait = true;
      copies = PerSecond 1000 400;
    } }
{
    Policy {
        greeting_wait: Some(GREETING_WAIT),
        takes_over: true,
        keeps_links: false,
        crowded_wait: is_listed.then_some(CROWDED_WAIT),
        lines_wait: true,
        copies: CopyRate::PerSecond {
            copies: CopyCount::new(RATE).unwrap(),
            burst: CopyCount::new(BURST).unwrap(),
        },
    }
}

// The source of names of a life that has no list of them. It is never read.
struct NoNames;

impl NameSource for NoNames {
    ghost use Rattle.std.specs.Prelude.{◌≡◌, Err};
    ghost use Rattle.lnsd_operator.specs.declared.fault.NameListFault.TheVariants.{File};

    ghost gives = { λ _ answer. answer ≡ Err File };

    fn read(&self) -> Result<NameList, NameListFault> {
        Err(NameListFault::File)
    }
}

// What a life begins with: its core, its places, where its links and its operators come from, and
// what it does with its links. If the links come before, each place has one.
#[derive(Drop)]
struct Beginning {
    core: Core,
    links: Vec<Link>,
    entrance: Entrance,
    policy: Policy,
    // The names that may greet; every name may if there is no list.
    names: Option<NameList>,
    control: Option<ControlSocket>,
    ghost few: { length links.items ≤ 96 },
    ghost filled: { (streams : _) → entrance ≡ Filled streams
        → length streams.items ≡ length links.items },
    ghost places: { (place : ℕ) (link : Link) → slice_get links.items place ≡ Some link
        → link.place ≡ place },
}

// Begins a life, unless its beginning failed.
fn begin<
    R: Threads + Wait + Sync,
    D: Disk + Drop,
    G: Gate + Sync,
    C: LifeClock + Sync,
    S: NameSource + Sync,
    N: OnBegun,
>(
    context: &Context<'_, R, G, C>,
    source: Option<&S>,
    store: Store<D>,
    beginning: Result<Beginning, ServeFault>,
    on_begun: &mut N,
) -> ServedLife<D>
    requires core { IfOk beginning (λ life. life.core ≡ first_core (store_state D.state store)) }
    requires names { IfOk beginning
        (λ life. IsFirstList S.gives source (length life.links.items) life.names) }
    requires refused { IfErr beginning IsOfBeginning }
    ensures served { IsServed D.Disk store result.result result.store }
    ensures unlisted { (fault : NameListFault) → result.result ≡ Err (Names fault)
        → beginning ≡ Err (Names fault) }
    ensures workers { IfOk result.result (λ report. IsOkAnd beginning
        (λ life. length report.shares.items ≡ length life.links.items + 1)) }
{
    let beginning = match beginning {
        Ok(beginning) => beginning,
        Err(fault) => return failed(context.alloc, store, fault),
    };
    let seats = beginning.links.len() as u64 + 1;
    let (made, taken) = (Blank::new(seats), Blank::new(1));
    let history = BlankHistory::new();
    serve_life::<Brand, R, D, G, C, S, N>(
        context, source, store, beginning, made, taken, history, on_begun,
    )
}

// The result of a life that isn't begun.
fn failed<D: Disk>(alloc: Global, store: Store<D>, fault: ServeFault) -> ServedLife<D>
    requires { IsOfBeginning fault }
    ensures served { IsServed D.Disk store result.result result.store }
    ensures fault { result.result ≡ Err fault }
{
    ServedLife {
        store,
        result: Err(fault),
        waiting: Vec::new(alloc),
    }
}

fn serve_life<
    B: Books + Send + Sync,
    R: Threads + Wait + Sync,
    D: Disk + Drop,
    G: Gate + Sync,
    C: LifeClock + Sync,
    S: NameSource + Sync,
    N: OnBegun,
>(
    context: &Context<'_, R, G, C>,
    source: Option<&S>,
    store: Store<D>,
    beginning: Beginning,
    made: Blank,
    taken: Blank,
    history: BlankHistory,
    on_begun: &mut N,
) -> ServedLife<D>
    requires made { (made.name ≡ B.made_name) × (made.parts ≡ B.made_parts)
        × (made.parts ≡ length beginning.links.items + 1) }
    requires taken { (taken.name ≡ B.taken_name) × (taken.parts ≡ 1) }
    requires history { history.seen.book ≡ B.history }
    requires core { beginning.core ≡ first_core (store_state D.state store) }
    requires names { IsFirstList S.gives source (length beginning.links.items) beginning.names }
    ensures served { IsServed D.Disk store result.result result.store }
    ensures unlisted { IfErr result.result IsNotOfNames }
    ensures workers { IfOk result.result
        (λ report. length report.shares.items ≡ length beginning.links.items + 1) }
{
    let Beginning {
        core,
        links,
        entrance,
        policy,
        names,
        control,
    } = beginning;
    let all = links.len() as u64 + 1;
    let (mut shared, taker) = Shared::<B>::new(core, all, made, taken, history);
    if control.is_some() {
        shared.observe();
    }
    let made = Equipment::new(context.alloc, &mut shared, links.len(), &policy, names);
    let Equipment {
        parts,
        directory,
        lines,
    } = match made {
        Ok(equipment) => equipment,
        Err(refusal) => return failed(context.alloc, store, ServeFault::Refused(refusal)),
    };
    let server = LiveServer {
        signals: Signals::new(links.len() as u64),
        directory: under_lock(directory, source, links.len()),
        links,
        entrance,
        policy,
        control,
        sessions: Mutex::new(shared),
        reloading: Mutex::new(()),
        lines,
    };
    let end = run(&*context, &server, source, store, taker, parts, on_begun);
    served_life(context.alloc, server, all, end)
}

// Puts the directory of a life under its lock. If the life has a source of names, the directory has
// a list that the source gave.
fn under_lock<S: NameSource>(
    directory: Directory,
    source: Option<&S>,
    places: usize,
) -> Mutex<Directory>
    requires { IsFirstList S.gives source places directory.listed }
{
    Mutex::new(directory)
}

// The result of a life that has ended.
fn served_life<B: Books + Send + Sync, D: Disk + Drop>(
    alloc: Global,
    server: LiveServer<B>,
    all: u64,
    end: LifeEnd<D, B>,
) -> ServedLife<D>
    requires { all ≡ B.made_parts }
    ensures store { result.store ≡ end.store }
    ensures shares { IfOk result.result (λ report. sum report.shares.items ≡ report.made) }
    ensures workers { IfOk result.result (λ report. length report.shares.items ≡ all) }
    ensures told { OnOk end.result (MatchResult result.result
        (λ report. report.made ≡ length end.known) IsUntold) }
    ensures refused { IfErr end.result (λ refusal. result.result ≡ Err (Refused refusal)) }
{
    let LiveServer {
        sessions,
        signals,
        control,
        ..
    } = server;
    let LifeEnd {
        store,
        known,
        result,
        seats,
    } = end;
    let waiting = match control {
        Some(control) => control.into_waiting(),
        None => Vec::new(alloc),
    };
    let result = match result {
        Ok(()) => report(
            alloc,
            sessions.into_inner(),
            &signals.counts,
            all,
            seats,
            &known,
        ),
        Err(refusal) => Err(ServeFault::Refused(refusal)),
    };
    ServedLife {
        store,
        result,
        waiting,
    }
}

// What a life takes memory for before it begins.
struct Equipment<B: Books> {
    parts: Parts<B>,
    directory: Directory,
    lines: Vec<WaitingLines>,
}

impl<B: Books> Equipment<B> {
    // No links yet. If lines wait, applications have rings of their own, after those of the links.
    // Only the names of the list may greet, if there is one.
    fn new(
        alloc: Global,
        shared: &mut Shared<B>,
        links: usize,
        policy: &Policy,
        names: Option<NameList>,
    ) -> Result<Self, Refusal>
        requires few { links ≤ 96 }
        requires seats { shared.old.left ≡ links + 1 }
        ensures rings { IfOk result (λ equipment. equipment.directory.first_ring
            ≡ cond policy.now.lines_wait (Some links) None) }
        ensures names { IfOk result (λ equipment. equipment.directory.listed ≡ names) }
        ensures lines { IfOk result (λ equipment. (application : ℕ) (waiting : WaitingLines)
            → slice_get equipment.lines.items application ≡ Some waiting
            → waiting.application ≡ application) }
        ensures refused { IfErr result (λ e. e ≡ OutOfMemory) }
    {
        let mut parts = Parts::new(alloc, shared, links)?;
        let (first_ring, lines) = if policy.lines_wait {
            let rings = parts.add_lines(alloc)?;
            (Some(links as u16), waiting_lines(alloc, rings)?)
        } else {
            (None, Vec::new(alloc))
        };
        Ok(Equipment {
            parts,
            directory: Directory::new(alloc, first_ring, names)?,
            lines,
        })
    }
}

// The lines of each application under a lock, in the same order. Refused with `OutOfMemory` if
// memory runs out.
fn waiting_lines(alloc: Global, rings: Vec<OwnRing>) -> Result<Vec<WaitingLines>, Refusal>
    ensures lines { IfOk result
        (λ all. map (λ (waiting : WaitingLines). waiting.application) all.items
        ≡ map (λ (own : OwnRing). own.application) rings.items) }
    ensures refused { IfErr result (λ e. e ≡ OutOfMemory) }
{
    let mut all = Vec::new(alloc);
    for own in rings {
        all.push(WaitingLines::new(own))?;
    }
    Ok(all)
}

// The report. If a seat didn't come back, its thread was never started, since memory ran out. If
// the number of decisions seen isn't the number made, the result is `OutOfStep`. If there is a
// report, and the core notes that its history is whole, the flusher saw that whole history.
fn report<B: Books>(
    alloc: Global,
    shared: Shared<B>,
    counts: &Counts,
    all: u64,
    seats: Vec<Seat<B>>,
    seen: &History<B>,
) -> Result<LifeReport, ServeFault>
    requires { all ≡ B.made_parts }
    ensures told { MatchResult result (λ report. report.made ≡ length seen.now) IsUntold }
    ensures whole { IsOk result → IsTrue shared.is_whole
        → HasAllDecisions shared.core.decisions seen.now }
    ensures out_of_step { result ≡ Err (Refused OutOfStep)
        → shared.core.decisions.made ≢ length seen.now }
    ensures sum { IfOk result (λ report. sum report.shares.items ≡ report.made) }
    ensures shares { IfOk result (λ report. report.shares.items ≡ map (λ s. s.made) seats.items) }
    ensures workers { IfOk result (λ report. length report.shares.items ≡ all) }
{
    if seats.len() as u64 != all {
        return Err(ServeFault::Refused(Refusal::OutOfMemory));
    }
    let Ok(shares) = shares_of(alloc, &seats) else {
        return Err(ServeFault::Refused(Refusal::OutOfMemory));
    };
    compare(&shared, seen);
    let Some(made) = shared.settle(all, seats) else {
        return Err(ServeFault::Refused(Refusal::OutOfMemory));
    };
    if made != seen.len() {
        return Err(ServeFault::Refused(Refusal::OutOfStep));
    }
    Ok(LifeReport {
        dropped: counts.dropped.get(),
        faulted: counts.faulted.get(),
        taken_over: counts.taken_over.get(),
        silent: counts.silent.get(),
        made,
        shares,
    })
}

// Only for the proof: if as many decisions were seen as the core made, and the core notes that its
// history is whole, what was seen is that history.
fn compare<B: Books>(shared: &Shared<B>, seen: &History<B>)
    ensures { IsTrue shared.now.is_whole → length seen.now ≡ shared.now.core.decisions.made
        → HasAllDecisions shared.now.core.decisions seen.now }
{
    let Some(history) = shared.history() else {
        return;
    };
    align(seen, &history);
}

// Only for the proof: two histories of one life that have the same length are equal, since one of
// them is a beginning of the other.
fn align<B: Books>(one: &History<B>, other: &History<B>)
    ensures { length one.now ≡ length other.now → one.now ≡ other.now }
{
    let _begins = one.begins(other);
}

fn shares_of<B: Books>(alloc: Global, seats: &Vec<Seat<B>>) -> Result<Vec<u64>, Refusal>
    ensures { MatchResult result (λ shares. shares.items ≡ map (λ s. s.made) seats.now.items)
        (λ e. e ≡ OutOfMemory) }
{
    let mut shares = Vec::new(alloc);
    for seat in seats {
        shares.push(seat.share())?;
    }
    Ok(shares)
}
