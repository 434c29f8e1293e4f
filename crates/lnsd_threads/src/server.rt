// What the threads of a life share.
ghost use Rattle.std.specs.Prelude.{◌≡◌, ℕ, IsSome, None, Some, length, slice_get};
ghost use Rattle.std.specs.Option.{option_copied};
ghost use Rattle.gateway_wire.specs.declared.recipient.Recipient.TheVariants as names;
ghost use Rattle.lnsd_links.specs.declared.link.Link.{Link};
ghost use Rattle.lnsd_threads.specs.Named.{HaveBeenRead};
ghost use Rattle.lnsd_links.specs.declared.rings.WaitingLines.{WaitingLines};
ghost use Rattle.lw_types.specs.declared.identifiers.Eui.{Eui};

use gateway_wire::Recipient;
use lnsd_links::{
    Directory, Entrance, LifeStage, Link, NameListFault, NameSource, Policy, Signals, WaitingLines,
    read_names,
};
use lnsd_operator::ControlSocket;
use session_core::{Books, Shared};
use std::sync::{Mutex, Wait};

/// The links, the data behind locks, and the signals. No thread holds the locks of the sessions and
/// of the directory at once, nor one of them while it reads, writes or syncs.
///
/// While the directory is locked, a greeting closes an older link of its name and sends an event to
/// operators who watch, and a new list of names closes links. This takes the locks of these links'
/// sockets and of the watchers' places. Nothing else takes a lock while the directory is locked.
#[derive(Drop)]
pub struct LiveServer<B: Books> {
    pub links: Vec<Link>,
    pub entrance: Entrance,
    pub policy: Policy,
    // The socket for operators, in a life with operators.
    pub control: Option<ControlSocket>,
    pub sessions: Mutex<Shared<B>>,
    pub directory: Mutex<Directory>,
    // Held while the list of the names that may greet is read and replaced, so that no older list
    // follows a newer one.
    pub reloading: Mutex<()>,
    // For each application, the lines that wait for it, if lines wait.
    pub lines: Vec<WaitingLines>,
    pub signals: Signals,
    ghost places: { (place : ℕ) (link : Link) → slice_get links.items place ≡ Some link
        → link.place ≡ place },
    ghost applications: { (application : ℕ) (waiting : WaitingLines)
        → slice_get lines.items application ≡ Some waiting → waiting.application ≡ application },
    ghost workers: { signals.workers ≡ length links.items },
}

impl<B: Books> LiveServer<B> {
    /// Closes the links, so that each thread ends.
    pub fn stop<R: Wait>(&self, rt: &R) {
        self.signals.stop();
        self.shut_door();
        for link in &self.links {
            link.close(rt);
        }
    }

    /// Ends the inputs of the links, after what has come, and accepts no more links. A thread that
    /// checks after this sees that the life is ending.
    pub(crate) fn end<R: Wait>(&self, rt: &R) {
        self.signals.reach(LifeStage::Ending);
        self.shut_door();
        for link in &self.links {
            link.close_input(rt);
        }
    }

    /// Reads the list of the names that may greet, replaces the one before, and closes the links
    /// whose names aren't listed any more. If the list isn't taken, the one before stays.
    pub(crate) fn reload<R: Wait, S: NameSource>(
        &self,
        rt: &R,
        source: &S,
    ) -> Result<(), NameListFault>
        ensures { HaveBeenRead (S.gives source.now) (length self.now.links.items) result }
    {
        let _reloading = self.reloading.lock(rt);
        let list = read_names(source, self.links.len())?;
        let links = self.links.as_slice();
        self.directory.lock(rt).relist(rt, links, list);
        Ok(())
    }

    /// The lines that wait for an application, if applications have rings of their own.
    pub(crate) fn lines_of(&self, name: &Recipient) -> Option<&WaitingLines>
        ensures gateway { (gateway : Eui) → name.now ≡ names.Gateway gateway → result ≡ None }
        ensures application { (application : ℕ) → name.now ≡ names.Application application
            → option_copied result ≡ slice_get self.now.lines.items application }
    {
        match name {
            Recipient::Application(application) => self.lines.get(application.get() as usize),
            Recipient::Gateway(_) => None,
        }
    }

    /// Drops the lines that wait for applications, since no link takes anything more.
    pub fn drop_lines<R: Wait>(&self, rt: &R) {
        for lines in &self.lines {
            self.signals.counts.dropped.add(lines.drop_all(rt));
        }
    }

    /// Says that operators are no longer served.
    pub fn close<R: Wait>(&self, rt: &R) {
        self.signals.reach(LifeStage::Closed);
        if let Some(control) = &self.control {
            control.close(rt);
        }
    }

    fn shut_door(&self) {
        if let Some(door) = self.entrance.door() {
            door.shut();
        }
    }

    /// Wakes the senders to check their rings again.
    pub fn ring_senders(&self) {
        for link in &self.links {
            link.bell.unpark();
        }
    }
}
