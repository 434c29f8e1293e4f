// What the threads of a life own before they are started.
ghost use Rattle.std.specs.Prelude.{◌≡◌, ◌+◌, ◌++◌, ℕ, List, length, map, slice_get, IfErr, IfOk};
ghost use Rattle.std.specs.Prelude.{Some};
ghost use Rattle.lw_types.specs.declared.refusal.Refusal.TheVariants.{OutOfMemory};
ghost use Rattle.lnsd_life.specs.Rings.{AreNewRings};

use lnsd_links::{APPLICATIONS, Outgoing, OwnRing, PLACES, Spare};
use lw_types::Refusal;
use outbox::{Outlet, ring};
use rtrb::{Producer, RingBuffer};
use session_core::{Books, Seat, Shared};
use std::alloc::Global;

/// What the worker of a place and its senders own: a seat; the end of a ring into which refusals
/// go, until the first link comes; and what the senders use, with the number of the place.
#[derive(Drop)]
pub(crate) struct LinkParts<B: Books> {
    pub(crate) seat: Seat<B>,
    pub(crate) refused: Producer<Refusal>,
    pub(crate) spare: Spare,
}

/// The parts of each link's threads, the closer's seat, and the flusher's outlets: one for each
/// link, and after them one for each application that has a ring of its own.
#[derive(Drop)]
pub(crate) struct Parts<B: Books> {
    pub(crate) links: Vec<LinkParts<B>>,
    pub(crate) closer: Seat<B>,
    pub(crate) outlets: Vec<Outlet>,
}

impl<B: Books> Parts<B> {
    /// The parts for this number of links. It takes every seat. Refused with `OutOfMemory` if
    /// memory runs out.
    pub(crate) fn new(alloc: Global, shared: &mut Shared<B>, links: usize) -> Result<Self, Refusal>
        requires { shared.old.left ≡ links + 1 }
        ensures links { IfOk result (λ parts. length parts.links.items ≡ links) }
        ensures rings { IfOk result (λ parts. AreNewRings PLACES parts.outlets.items
            (map (λ (link : LinkParts B). link.spare.inlet) parts.links.items)) }
        ensures places { IfOk result (λ parts. (place : ℕ) (link : LinkParts B)
            → slice_get parts.links.items place ≡ Some link → link.spare.place ≡ place) }
        ensures refused { IfErr result (λ e. e ≡ OutOfMemory) }
    {
        let mut all = Vec::new(alloc);
        let mut outlets = Vec::new(alloc);
        for place in 0..links {
            let (outlet, inlet) = ring(alloc, PLACES)?;
            let (refused, _) = RingBuffer::new(alloc, 1)?;
            let seat = shared.seat();
            outlets.push(outlet)?;
            let spare = Spare {
                place,
                inlet,
                outgoing: Outgoing::new(alloc),
            };
            all.push(LinkParts {
                seat,
                refused,
                spare,
            })?;
        }
        Ok(Parts {
            links: all,
            closer: shared.seat(),
            outlets,
        })
    }

    /// Adds a ring for each application, after those of the links. What is sent to the application
    /// waits there, also while it has no link. Refused with `OutOfMemory` if memory runs out.
    pub(crate) fn add_lines(&mut self, alloc: Global) -> Result<Vec<OwnRing>, Refusal>
        ensures lines { IfOk result (λ all. length all.items ≡ APPLICATIONS) }
        ensures rings { IfOk result (λ all. (added : List Outlet)
            × ((self.new.outlets.items ≡ self.old.outlets.items ++ added)
            × AreNewRings PLACES added (map (λ (own : OwnRing). own.inlet) all.items))) }
        ensures applications { IfOk result (λ all. (application : ℕ) (own : OwnRing)
            → slice_get all.items application ≡ Some own → own.application ≡ application) }
        ensures links { self.new.links ≡ self.old.links }
        ensures refused { IfErr result (λ e. e ≡ OutOfMemory) }
    {
        let mut all = Vec::new(alloc);
        for application in 0..APPLICATIONS {
            let (outlet, inlet) = ring(alloc, PLACES)?;
            self.outlets.push(outlet)?;
            all.push(OwnRing { application, inlet })?;
        }
        Ok(all)
    }
}
