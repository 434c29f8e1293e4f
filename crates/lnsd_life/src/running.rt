// Starting and joining the threads of a life.
ghost use Rattle.std.specs.Prelude.{◌≡◌, ◌<◌, ◌∷◌, ◌++◌, [], IsSome, IsSomeAnd, IsTrue, MatchBool};
ghost use Rattle.std.specs.Prelude.{◌+◌, length, vec_capacity, vec_len};
ghost use Rattle.lnsd_life.specs.Served.{IsRun};

use crate::flushing::flush;
use crate::parts::{LinkParts, Parts};
use disk::Disk;
use lnsd_links::NameSource;
use lnsd_operator::ATTENDANTS;
use lnsd_threads::{
    Attendant, Closer, Context, Gate, LifeClock, LiveServer, OnBegun, Worker, start,
};
use lw_types::Refusal;
use session_core::{Books, History, Seat, Taker};
use std::alloc::Global;
use std::sync::Wait;
use std::thread;
use std::thread::{JoinHandle, Scope, Threads};
use store::Store;

/// What is left of a life: the store; the history of the life's decisions as far as the flusher saw
/// it; whether all of these were committed, or why not; and the seats that came back, in the order
/// of the links, the closer's last.
#[derive(Drop)]
pub(crate) struct LifeEnd<D: Disk, B: Books> {
    pub(crate) store: Store<D>,
    pub(crate) known: History<B>,
    pub(crate) result: Result<(), Refusal>,
    pub(crate) seats: Vec<Seat<B>>,
}

/// Starts the threads of a life, calls `on_begun` when all run, flushes until the life ends, and
/// joins the threads.
pub(crate) fn run<
    'x,
    B: Books + Send + Sync,
    R: Threads + Wait + Sync,
    D: Disk + Drop,
    G: Gate + Sync,
    C: LifeClock + Sync,
    S: NameSource + Sync,
    N: OnBegun,
>(
    context: &'x Context<'x, R, G, C>,
    server: &'x LiveServer<B>,
    names: Option<&'x S>,
    store: Store<D>,
    taker: Taker<B>,
    parts: Parts<B>,
    on_begun: &mut N,
) -> LifeEnd<D, B>
    ensures { IsRun D.Disk store taker result.known result.result result.store }
{
    thread::scope(
        thread::scope_env(),
        context.rt,
        move |scope|
            ensures { IsRun D.Disk store taker result.known result.result result.store }
        { run_in(scope, context, server, names, store, taker, parts, on_begun) },
    )
}

fn run_in<
    's,
    E,
    B: Books + Send + Sync,
    R: Threads + Wait + Sync,
    D: Disk + Drop,
    G: Gate + Sync,
    C: LifeClock + Sync,
    S: NameSource + Sync,
    N: OnBegun,
>(
    scope: &Scope<'s, E>,
    context: &'s Context<'s, R, G, C>,
    server: &'s LiveServer<B>,
    names: Option<&'s S>,
    store: Store<D>,
    taker: Taker<B>,
    parts: Parts<B>,
    on_begun: &mut N,
) -> LifeEnd<D, B>
    ensures { IsRun D.Disk store taker result.known result.result result.store }
{
    let Parts {
        links,
        closer,
        outlets,
    } = parts;
    let mut started = Started::new(context.alloc);
    for parts in links {
        started.start_link(scope, context, server, parts);
    }
    let closer = Closer {
        context,
        server,
        seat: closer,
    };
    let name = String::from_str(context.alloc, "closer");
    started.keep_seated(start(scope, name, move || closer.run()));
    started.start_attendants(scope, context, server, names);
    let mut store = store;
    let flushed = if started.is_whole {
        on_begun.begun();
        flush(
            context.rt,
            context.alloc,
            server,
            context.times,
            &mut store,
            taker,
            outlets,
        )
    } else {
        server.stop(context.rt);
        (taker.seen().again(), Err(Refusal::OutOfMemory))
    };
    let (known, result) = flushed;
    LifeEnd {
        store,
        known,
        result,
        seats: started.join(context.rt, context.alloc, server),
    }
}

// The threads that were started. They aren't whole if one couldn't be started or can't be joined.
#[derive(Drop)]
struct Started<B: Books> {
    // In the order of their links; the closer comes last.
    seated: Vec<JoinHandle<Seat<B>>>,
    attendants: Vec<JoinHandle<()>>,
    is_whole: bool,
}

impl<B: Books + Send + Sync> Started<B> {
    fn new(alloc: Global) -> Self
        ensures none { (result.seated.items ≡ []) × (result.attendants.items ≡ []) }
        ensures whole { IsTrue result.is_whole }
    {
        Started {
            seated: Vec::new(alloc),
            attendants: Vec::new(alloc),
            is_whole: true,
        }
    }

    fn start_link<'s, E, R: Threads + Wait + Sync, G: Gate + Sync, C: LifeClock + Sync>(
        &mut self,
        scope: &Scope<'s, E>,
        context: &'s Context<'s, R, G, C>,
        server: &'s LiveServer<B>,
        parts: LinkParts<B>,
    ) {
        let LinkParts {
            seat,
            refused,
            spare,
        } = parts;
        let place = spare.place;
        let Some(link) = server.links.get(place) else {
            return;
        };
        link.set_spare(context.rt, spare);
        let worker = Worker::new(context, server, link, place, seat, refused);
        let name = format!(in context.alloc; "link-{place}-in");
        self.keep_seated(start(scope, name, move || worker.run()));
    }

    fn start_attendants<
        's,
        E,
        R: Threads + Wait + Sync,
        G: Gate + Sync,
        C: LifeClock + Sync,
        S: NameSource + Sync,
    >(
        &mut self,
        scope: &Scope<'s, E>,
        context: &'s Context<'s, R, G, C>,
        server: &'s LiveServer<B>,
        names: Option<&'s S>,
    )
        ensures whole { IsTrue self.new.is_whole → IsTrue self.old.is_whole
            × (IsSome server.now.control → length self.new.attendants.items
            ≡ length self.old.attendants.items + ATTENDANTS) }
        ensures same { self.new ≡ record self.old
            { attendants = self.new.attendants; is_whole = self.new.is_whole } }
    {
        let Some(control) = &server.control else {
            return;
        };
        for number in 0..ATTENDANTS {
            let attendant = Attendant {
                context,
                names,
                server,
                control,
                number,
            };
            let name = format!(in context.alloc; "control-{number}");
            self.keep_attendant(start(scope, name, move || attendant.run()));
        }
    }

    fn keep_seated(&mut self, thread: Option<JoinHandle<Seat<B>>>)
        ensures whole { IsTrue self.new.is_whole → IsTrue self.old.is_whole
            × IsSomeAnd thread (λ one. self.new.seated.items ≡ self.old.seated.items ++ one ∷ []) }
        ensures same { self.new ≡ record self.old
            { seated = self.new.seated; is_whole = self.new.is_whole } }
    {
        self.is_whole = keep_thread(&mut self.seated, thread) && self.is_whole;
    }

    fn keep_attendant(&mut self, thread: Option<JoinHandle<()>>)
        ensures whole { IsTrue self.new.is_whole → IsTrue self.old.is_whole × IsSomeAnd thread
            (λ one. self.new.attendants.items ≡ self.old.attendants.items ++ one ∷ []) }
        ensures same { self.new ≡ record self.old
            { attendants = self.new.attendants; is_whole = self.new.is_whole } }
    {
        self.is_whole = keep_thread(&mut self.attendants, thread) && self.is_whole;
    }

    // The seats that come back. The attendants end last, so that operators learn of the end.
    fn join<R: Threads + Wait>(
        self,
        rt: &R,
        alloc: Global,
        server: &LiveServer<B>,
    ) -> Vec<Seat<B>> {
        let Started {
            seated,
            attendants,
            ..
        } = self;
        let mut seats = Vec::new(alloc);
        for thread in seated {
            let _ = seats.push(thread.join(rt));
        }
        server.drop_lines(rt);
        server.close(rt);
        for thread in attendants {
            thread.join(rt);
        }
        seats
    }
}

// Keeps a thread. Returns whether there was one and it was kept.
fn keep_thread<T: Drop>(threads: &mut Vec<JoinHandle<T>>, thread: Option<JoinHandle<T>>) -> bool
    ensures kept { MatchBool result
        (IsSomeAnd thread (λ one. threads.new.items ≡ threads.old.items ++ one ∷ []))
        (threads.new.items ≡ threads.old.items) }
    ensures roomy { IsSome thread → vec_len threads.old < vec_capacity threads.old
        → IsTrue result }
{
    match thread {
        Some(thread) => threads.push(thread).is_ok(),
        None => false,
    }
}
