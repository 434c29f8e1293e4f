// The counts of a life, as an operator reads them.
ghost use Rattle.std.specs.Prelude.{◌≡◌, ◌++◌, [], IfErr, IsErr, IsOk, MatchResult};
ghost use Rattle.std.specs.List.{flat_map};
ghost use Rattle.std.specs.String.{string_bytes};
ghost use Rattle.lnsd_operator.specs.Counted.{count_line};
ghost use Rattle.lw_types.specs.declared.refusal.Refusal.TheVariants.{OutOfMemory};

use crate::server::LiveServer;
use lnsd_operator::{ControlSocket, DiskTimes, LastUplinks};
use lw_types::{Eui, Refusal};
use session_core::{Books, Moment};
use std::alloc::{AllocError, Global};
use std::net::SocketAddr;
use std::sync::Wait;

// The lines of a text. If memory runs out for one of them, the error is returned once, at the end.
#[derive(Drop)]
struct StatusLines {
    text: String,
    result: Result<(), AllocError>,
}

impl StatusLines {
    fn new(alloc: Global) -> Self
        ensures { (string_bytes result.text ≡ []) × IsOk result.result }
    {
        StatusLines {
            text: String::new(alloc),
            result: Ok(()),
        }
    }

    fn add_address(&mut self, address: SocketAddr)
        ensures { IsErr self.old.result → self.new ≡ self.old }
    {
        if self.result.is_ok() {
            self.result = writeln!(self.text, "listening {address}");
        }
    }

    fn add_counts(&mut self, counts: &[(&str, u64)])
        ensures kept { IsErr self.old.result → self.new ≡ self.old }
        ensures text { IsOk self.new.result → string_bytes self.new.text
            ≡ string_bytes self.old.text
            ++ flat_map (λ counted. count_line counted.0.now counted.1) counts.now }
    {
        for (name, count) in counts {
            self.add_count(name, *count);
        }
    }

    fn add_count(&mut self, name: &str, count: u64)
        ensures kept { IsErr self.old.result → self.new ≡ self.old }
        ensures text { IsOk self.new.result → string_bytes self.new.text
            ≡ string_bytes self.old.text ++ count_line name.now count }
    {
        if self.result.is_ok() {
            self.result = writeln!(self.text, "{name} {count}");
        }
    }

    fn add_last_copy(&mut self, gateway: Eui, moment: u64)
        ensures { IsErr self.old.result → self.new ≡ self.old }
    {
        if self.result.is_ok() {
            self.result = writeln!(self.text, "last_copy_{gateway} {moment}");
        }
    }

    fn whole(self) -> Result<String, Refusal>
        ensures { MatchResult result (λ text. IsOk self.result × (text ≡ self.text))
            (λ e. IsErr self.result × (e ≡ OutOfMemory)) }
    {
        self.result?;
        Ok(self.text)
    }
}

/// Lines of a name and a value: the address for links; how many links there may be, and are; how
/// many of these are gateways and applications; the numbers of the sessions; the counts of this
/// life and of the disk; for each linked gateway the moment of the last copy on its link; and this
/// moment. Refused with `OutOfMemory` if memory runs out.
pub(crate) fn status_text<B: Books, R: Wait>(
    rt: &R,
    alloc: Global,
    server: &LiveServer<B>,
    times: Option<&DiskTimes>,
    now: Moment,
) -> Result<String, Refusal>
    ensures { IfErr result (λ e. e ≡ OutOfMemory) }
{
    let mut lines = StatusLines::new(alloc);
    if let Some(door) = server.entrance.door() {
        lines.add_address(door.address());
    }
    add_links(rt, server, &mut lines);
    add_sessions(rt, server, &mut lines);
    let counts = &server.signals.counts;
    lines.add_counts(&[
        ("commits", counts.commits.get()),
        ("dropped", counts.dropped.get()),
        ("faulted", counts.faulted.get()),
        ("taken_over", counts.taken_over.get()),
        ("silent", counts.silent.get()),
        ("unlisted", counts.unlisted.get()),
        ("slowed", counts.slowed.get()),
    ]);
    if let Some(times) = times {
        lines.add_counts(&[
            ("checkpoints", times.checkpoints()),
            ("syncs", times.syncs()),
            ("longest_sync_us", times.longest_sync()),
        ]);
    }
    add_last_copies(rt, server, &mut lines);
    lines.add_counts(&[("now", now.get())]);
    lines.whole()
}

fn add_links<B: Books, R: Wait>(rt: &R, server: &LiveServer<B>, lines: &mut StatusLines) {
    let directory = server.directory.lock(rt);
    let gateways = directory.gateways().len();
    let links = directory.applications().iter();
    let applications = links.filter(|link| link.is_some()).count();
    drop(directory);
    lines.add_counts(&[
        ("places", server.links.len() as u64),
        ("links", server.signals.linked()),
        ("gateways", gateways as u64),
        ("applications", applications as u64),
    ]);
}

fn add_sessions<B: Books, R: Wait>(rt: &R, server: &LiveServer<B>, lines: &mut StatusLines) {
    // before the lock is taken, so that no decision is counted as durable and not as made
    let durable = server.signals.counts.durable.get();
    let sessions = server.sessions.lock(rt);
    let core = sessions.core();
    let counts = [
        ("devices", core.now().devices().len() as u64),
        ("slots", core.now().slots().get()),
        ("windows", core.windows() as u64),
        ("waiting", core.untaken() as u64),
        ("made", core.made()),
        ("decided", core.seq()),
        ("durable", durable),
    ];
    drop(sessions);
    lines.add_counts(&counts);
}

fn add_last_copies<B: Books, R: Wait>(rt: &R, server: &LiveServer<B>, lines: &mut StatusLines) {
    let directory = server.directory.lock(rt);
    for linked in directory.gateways() {
        let link = server.links.get(linked.link);
        if let Some(moment) = link.and_then(|link| link.last_copy()) {
            lines.add_last_copy(linked.gateway, moment);
        }
    }
}

/// The list of the devices after the decisions so far, durable or not, how each device was last
/// heard, and this moment. Refused with `OutOfMemory` if memory runs out.
pub(crate) fn devices_text<B: Books, R: Wait>(
    rt: &R,
    alloc: Global,
    server: &LiveServer<B>,
    control: &ControlSocket,
    now: Moment,
) -> Result<String, Refusal> {
    let last_uplinks = control.last_uplinks.lock(rt).clone()?;
    let mut text = list_now(rt, alloc, server, &last_uplinks)?;
    let now = now.get();
    writeln!(text, "now {now}")?;
    Ok(text)
}

// The list of the devices, made under the lock of the sessions.
fn list_now<B: Books, R: Wait>(
    rt: &R,
    alloc: Global,
    server: &LiveServer<B>,
    last_uplinks: &LastUplinks,
) -> Result<String, Refusal> {
    let sessions = server.sessions.lock(rt);
    let core = sessions.core();
    last_uplinks.list(alloc, core.now().devices(), core.seq())
}
