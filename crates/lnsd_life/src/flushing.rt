// The flusher, which commits what was decided and releases its effects.
ghost use Rattle.std.specs.Prelude.{◌≡◌, ◌+◌, ℕ, Bool, IsTrue, IfErr, List, OnOk, false, length};
ghost use Rattle.std.specs.Prelude.{slice_index_or};
ghost use Rattle.lnsd_links.specs.declared.names.Directory.{Directory};
ghost use Rattle.flusher.specs.Calls.{NoneFailed};
ghost use Rattle.flusher.specs.Released.{effects_of_all};
ghost use Rattle.lnsd_life.specs.Marks.{AreLinksMarked, with_link};
ghost use Rattle.lnsd_life.specs.Served.{CommitsInOrder, IsLedOn, IsRefused};
ghost use Rattle.lnsd_links.specs.Routing.{AreMarked, IsRouted};
ghost use Rattle.store.specs.State.{store_state};

use disk::Disk;
use flusher::{Drawn, Released};
use gateway_wire::Recipient;
use lnsd_links::{APPLICATIONS, Directory, LifeStage, MOST_PLACES, route};
use lnsd_operator::{DiskTimes, Sight};
use lnsd_threads::LiveServer;
use lw_types::Refusal;
use outbox::Outlet;
use session_core::{Books, History, Taker};
use std::alloc::Global;
use std::sync::Wait;
use store::Store;

// The most rings.
const MOST_RINGS: usize = MOST_PLACES as usize + APPLICATIONS;

/// Commits decisions and sends out their effects, until nothing is decided any more and everything
/// is committed. Then announces to the senders that nothing more comes, and returns the history of
/// the life's decisions as far as it was seen. A refusal closes the links, and what waits for them
/// is lost. If it ends well, no call of the disk failed, and the store's number grew by the number
/// of decisions seen, less those that the taker had taken before. What is committed comes next in
/// the history, in order.
pub(crate) fn flush<B: Books, R: Wait, D: Disk>(
    rt: &R,
    alloc: Global,
    server: &LiveServer<B>,
    times: Option<&DiskTimes>,
    store: &mut Store<D>,
    taker: Taker<B>,
    outlets: Vec<Outlet>,
) -> (History<B>, Result<(), Refusal>)
    ensures healthy { OnOk result.1 (NoneFailed D.failures D.outlook store.old store.new) }
    ensures committed { OnOk result.1 ((store_state D.state store.new).seq + taker.taken
        ≡ (store_state D.state store.old).seq + length result.0) }
    ensures decided { CommitsInOrder (store_state D.state store.old) (store_state D.state store.new)
        taker result.0 result.1 }
    ensures refused { IfErr result.1 (IsRefused D.Disk store.old store.new) }
    ensures lives { D.honest
        → IsLedOn (store_state D.state store.old) (store_state D.state store.new) }
{
    let durable = &server.signals.counts.durable;
    durable.raise(store.seq());
    let mut taken = store.seq();
    let mut outlets = outlets;
    let mut feed = Drawn::new(rt, &server.sessions, taker);
    let mut is_ticked = false;
    let served = {
        let mut out = |released: Vec<Released>| {
            // what was taken before the last release is durable now: at most the batch of this
            // release was taken by then
            durable.raise(taken);
            taken = taken_so_far(rt, server);
            let_out(rt, alloc, server, outlets.as_mut_slice(), released);
            tell_times(rt, server, times);
        };
        // a checkpoint may be written with no batch after it
        let mut done = || {
            durable.raise(taken_so_far(rt, server));
            tell_times(rt, server, times);
            is_done(rt, server, &mut is_ticked)
        };
        feed.serve(store, alloc, &mut out, &mut done)
    };
    if served.is_err() {
        server.stop(rt);
    }
    finish(outlets);
    server.ring_senders();
    if served.is_ok() {
        durable.raise(store.seq());
    }
    (feed.taker().seen().again(), served)
}

// The number of the last decision that the flusher has taken.
fn taken_so_far<B: Books, R: Wait>(rt: &R, server: &LiveServer<B>) -> u64 {
    let sessions = server.sessions.lock(rt);
    let core = sessions.core();
    core.seq().saturating_sub(core.untaken() as u64)
}

// Ends these rings: nothing more comes through them.
fn finish(outlets: Vec<Outlet>) {
    for outlet in outlets {
        let _ = outlet.finish();
    }
}

// Puts effects into the rings. The bell of each link that gets something rings once. An application
// without a link finds its effects when it comes.
fn let_out<B: Books, R: Wait>(
    rt: &R,
    alloc: Global,
    server: &LiveServer<B>,
    outlets: &mut [Outlet],
    released: Vec<Released>,
)
    ensures routed { (directory : Directory) × ((lost : ℕ)
        × IsRouted directory (effects_of_all released.items) lost outlets.old outlets.new) }
{
    server.signals.counts.commits.add(1);
    if server.is_watched() {
        tell_joins(rt, server, released.as_slice());
    }
    let mut marks = [false; MOST_RINGS];
    let mut missed = Vec::new(alloc);
    let links = server.links.len();
    let directory = server.directory.lock(rt);
    let lost = let_out_by(
        &directory,
        links,
        outlets,
        released,
        &mut marks,
        &mut missed,
    );
    drop(directory);
    server.signals.counts.dropped.add(lost as u64);
    tell_missed(rt, server, missed);
    ring_links(server, &marks);
}

// Puts effects into the rings of the links that this directory has, and marks the links that get
// something. There are this number of links. Returns how many effects were lost.
fn let_out_by(
    directory: &Directory,
    links: usize,
    outlets: &mut [Outlet],
    released: Vec<Released>,
    marks: &mut [bool],
    missed: &mut Vec<Recipient>,
) -> usize
    ensures routed { IsRouted directory.now (effects_of_all released.items) result outlets.old
        outlets.new }
    ensures marked { (between : List Bool) × (AreMarked marks.old between outlets.old outlets.new
        × AreLinksMarked directory.now links between marks.new) }
{
    let lost = route(directory, outlets, released, marks, missed);
    mark_links(directory, links, marks);
    lost
}

// Sends the operators who watch the names whose effects were lost.
fn tell_missed<B: Books, R: Wait>(rt: &R, server: &LiveServer<B>, missed: Vec<Recipient>) {
    for name in missed {
        server.tell(rt, Sight::Dropped(name, 1));
    }
}

fn ring_links<B: Books>(server: &LiveServer<B>, marks: &[bool]) {
    for (link, is_marked) in server.links.iter().zip(marks) {
        if *is_marked {
            link.bell.unpark();
        }
    }
}

// Sends the operators who watch what the disk did meanwhile.
fn tell_times<B: Books, R: Wait>(rt: &R, server: &LiveServer<B>, times: Option<&DiskTimes>) {
    let Some(times) = times else {
        return;
    };
    if times.take_checkpoints() > 0 {
        server.tell(rt, Sight::Checkpoint);
    }
    if let Some(millis) = times.take_slow_sync() {
        server.tell(rt, Sight::SlowSync(millis));
    }
}

// Marks the links of applications whose own rings are marked. These rings come after those of the
// links, which are this number.
fn mark_links(directory: &Directory, links: usize, marks: &mut [bool])
    ensures { AreLinksMarked directory.now links marks.old marks.new }
{
    let applications = directory.applications();
    for (application, link) in applications.iter().enumerate() {
        mark_link(*link, links.saturating_add(application), marks);
    }
}

// Marks the link of an application, if it has one, when its own ring is marked.
fn mark_link(link: Option<usize>, ring: usize, marks: &mut [bool])
    ensures { marks.new ≡ with_link link ring marks.old }
{
    let is_rung = is_marked(marks, ring);
    if let Some(link) = link
        && is_rung
        && link < marks.len()
    {
        marks[link] = true;
    }
}

fn is_marked(marks: &[bool], place: usize) -> bool
    ensures { result ≡ slice_index_or marks.now place false }
{
    place < marks.len() && marks[place]
}

// Sends the operators who watch the joins that were granted.
fn tell_joins<B: Books, R: Wait>(rt: &R, server: &LiveServer<B>, released: &[Released]) {
    for one in released {
        if let Some(sight) = Sight::of_effect(one.effect()) {
            server.tell(rt, sight);
        }
    }
}

// Whether nothing is left, after an empty batch. The last tick may have been made after that batch,
// so one more batch is asked for after the tick is seen. Otherwise waits for a decision.
fn is_done<B: Books, R: Wait>(rt: &R, server: &LiveServer<B>, is_ticked: &mut bool) -> bool
    ensures done { result ≡ is_ticked.old }
    ensures kept { IsTrue is_ticked.old → IsTrue is_ticked.new }
{
    if *is_ticked {
        return true;
    }
    if !server.signals.has_reached(LifeStage::Ticked) {
        server.signals.wait_for_decisions(rt);
    }
    *is_ticked = server.signals.has_reached(LifeStage::Ticked);
    false
}
