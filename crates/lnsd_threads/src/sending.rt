// What shows that a link has a sender.
use crate::threads::start;
use lnsd_links::HostSender;
use lw_types::Refusal;
use rtrb::Consumer;
use std::sync::Wait;
use std::thread::{Scope, Threads};

/// Shows that a link has a sender. Only [`start_sender`] makes it.
#[derive(Clone, Copy)]
pub(crate) struct Sending(());

/// Starts the sender of the link in the place of this number; `None` if that fails.
pub(crate) fn start_sender<'s, E, R: Threads + Wait + Sync>(
    scope: &Scope<'s, E>,
    place: usize,
    sender: HostSender<'s, R>,
    refusals: Consumer<Refusal>,
) -> Option<Sending> {
    let name = format!(in sender.alloc; "link-{place}-out");
    let _thread = start(scope, name, move || sender.run(refusals))?;
    Some(Sending(()))
}
