// Which gateways and applications have links.
ghost use Rattle.std.specs.Prelude.{◌≡◌, ◌≤◌, ℕ, length, vec_capacity, slice_get, IsSomeAnd};
ghost use Rattle.std.specs.Prelude.{None, Some, false, true};
ghost use Rattle.lnsd_links.specs.Names.{has_name};

use crate::link::{ClosedLink, Link};
use crate::name_list::NameList;
use devices::Application;
use gateway_wire::Recipient;
use lw_types::Eui;
use std::alloc::{AllocError, Global};
use std::sync::Wait;

/// The most gateways that have links.
pub const MOST_GATEWAYS: usize = 64;

/// The number of applications.
pub const APPLICATIONS: usize = 16;

/// A gateway, and the number of its link.
#[derive(Clone, Copy)]
pub struct LinkedGateway {
    pub gateway: Eui,
    pub link: usize,
}

/// A name that a link has. Only [`Directory::greet`] and [`Directory::take_over`] make it.
#[derive(Clone, Copy)]
pub struct HeldName {
    name: Recipient,
    link: usize,
}

/// A name that a link has left, and whether the link still had it. Only [`Directory::leave`] makes
/// it.
#[derive(Clone, Copy)]
pub struct LeftName {
    held: HeldName,
    is_free: bool,
}

impl LeftName {
    /// The gateway or application with this name.
    pub fn name(&self) -> Recipient
        ensures { result ≡ self.now.held.name }
    {
        self.held.name
    }

    /// The name, and the link that left it.
    pub(crate) fn held(&self) -> HeldName
        ensures { result ≡ self.now.held }
    {
        self.held
    }

    /// Whether the link had the name until then, so that no link has it now.
    pub fn is_free(&self) -> bool
        ensures { result ≡ self.now.is_free }
    {
        self.is_free
    }
}

/// Which link each gateway and each application has, by the numbers of the links. A name has at
/// most one link. What is sent on a link goes through the ring with the link's number. But
/// applications may have rings of their own, so that their lines wait while they have no link.
#[derive(Drop)]
pub struct Directory {
    gateways: Vec<LinkedGateway>,
    applications: [Option<usize>; APPLICATIONS],
    // The ring of application 0; those of the others come after it.
    first_ring: Option<u16>,
    // The names that may greet. Without a list every name may.
    listed: Option<NameList>,
    ghost few: { length gateways.items ≤ 64 },
    ghost room: { 64 ≤ vec_capacity gateways },
}

// Closes the link of a name, if it has one.
fn close_link_of<R: Wait>(rt: &R, links: &[Link], number: Option<usize>) -> Option<ClosedLink>
    ensures closed { (place : ℕ) (closed : Link) → number ≡ Some place
        → slice_get links.now place ≡ Some closed
        → IsSomeAnd result (λ shown. shown.place ≡ closed.place) }
    ensures alone { number ≡ None → result ≡ None }
{
    let link = links.get(number?)?;
    Some(link.disconnect(rt))
}

// Closes the link of a name that isn't listed, if it has one.
fn close_unlisted<R: Wait>(
    rt: &R,
    links: &[Link],
    list: &NameList,
    name: Recipient,
    link: Option<usize>,
) -> Option<ClosedLink>
    ensures listed { has_name list.now name ≡ true → result ≡ None }
    ensures unlisted { has_name list.now name ≡ false → (place : ℕ) (closed : Link)
        → link ≡ Some place → slice_get links.now place ≡ Some closed
        → IsSomeAnd result (λ shown. shown.place ≡ closed.place) }
{
    if list.has(&name) {
        return None;
    }
    close_link_of(rt, links, link)
}

/// Why a link isn't given a name.
#[derive(Clone, Copy, Debug, PartialEq, Eq)]
pub enum Ungranted {
    /// The name isn't one of those that may greet.
    Unlisted,
    /// Another link has the name.
    Taken,
    /// Sixty-four other gateways have links.
    Full,
}

impl Directory {
    ghost use Rattle.std.specs.Prelude.{◌≢◌, ◌↔◌, ◌<◌, IsSome, IfOk, IsOk, IsTrue};
    ghost use Rattle.std.specs.Prelude.{Err, IfErr, MatchBool, MatchResult};
    ghost use Rattle.gateway_wire.specs.declared.recipient.Recipient.TheVariants as names;
    ghost use Rattle.lw_types.specs.declared.identifiers.Eui.{Eui};
    ghost use Rattle.lnsd_links.specs.Linked.{gateway_link, link_of, ring_of};
    ghost use Rattle.lnsd_links.specs.Linked.{has_link_or_room, is_listed};
    ghost use Rattle.lnsd_links.specs.Linked.{may_greet, may_take_over};
    ghost use Rattle.lnsd_links.specs.Linked.{IsHeld, IsLinked, IsUnlinked};
    ghost use Rattle.lnsd_links.specs.declared.names.Ungranted.TheVariants.{Full, Taken, Unlisted};

    /// A directory without links. If `first_ring` is given, applications have rings of their own,
    /// from that one on. If `listed` is given, only its names may greet. All the memory that it
    /// ever needs is taken here.
    pub fn new(
        alloc: Global,
        first_ring: Option<u16>,
        listed: Option<NameList>,
    ) -> Result<Self, AllocError>
        ensures links { IfOk result
            (λ directory. (name : Recipient) → link_of directory name ≡ None) }
        ensures rings { IfOk result (λ directory. directory.first_ring ≡ first_ring) }
        ensures listed { IfOk result (λ directory. directory.listed ≡ listed) }
    {
        Ok(Directory {
            gateways: Vec::with_capacity(alloc, MOST_GATEWAYS)?,
            applications: [None; APPLICATIONS],
            first_ring,
            listed,
        })
    }

    /// Whether a gateway or an application may greet: every one may if there is no list.
    pub fn is_listed(&self, name: &Recipient) -> bool
        ensures { result ≡ is_listed self.now name.now }
    {
        match &self.listed {
            Some(list) => list.has(name),
            None => true,
        }
    }

    /// Replaces the list of the names that may greet, and closes the links whose names aren't
    /// listed any more. Their workers leave the names.
    pub fn relist<R: Wait>(&mut self, rt: &R, links: &[Link], list: NameList)
        ensures { self.new ≡ record self.old { listed = Some list } }
    {
        for linked in &self.gateways {
            let name = Recipient::Gateway(linked.gateway);
            let _ = close_unlisted(rt, links, &list, name, Some(linked.link));
        }
        for (number, link) in self.applications.iter().enumerate() {
            if let Some(application) = Application::new(number as u64) {
                let name = Recipient::Application(application);
                let _ = close_unlisted(rt, links, &list, name, *link);
            }
        }
        self.listed = Some(list);
    }

    /// Gives a link the name with which a gateway or an application greets, if the name is listed,
    /// no link has it and, for a gateway, fewer than 64 have links. Otherwise nothing is changed.
    pub fn greet(&mut self, name: &Recipient, link: usize) -> Result<HeldName, Ungranted>
        ensures granted { IsOk result ↔ IsTrue (may_greet self.old name.now) }
        ensures held { IfOk result (IsHeld name.now link) }
        ensures named { MatchResult result (λ _. IsLinked self.old name.now link self.new)
            (λ _. self.new ≡ self.old) }
        ensures unlisted { (result ≡ Err Unlisted) ↔ (is_listed self.old name.now ≡ false) }
        ensures taken { (result ≡ Err Taken)
            ↔ (IsTrue (is_listed self.old name.now) × IsSome (link_of self.old name.now)) }
    {
        if self.is_listed(name) && self.link_of(name).is_some() {
            return Err(Ungranted::Taken);
        }
        let (held, _) = self.give(name, link)?;
        Ok(held)
    }

    /// Gives a link the name with which a gateway or an application greets, and closes the link of
    /// `links` that had the name until now. Returns `Unlisted` for a name that isn't listed, and
    /// `Full` for one more gateway if 64 others have links; then nothing is changed. There is no
    /// other way to take a name over, so a caller that locks the directory keeps it locked until
    /// the older link is closed.
    pub fn take_over<R: Wait>(
        &mut self,
        rt: &R,
        links: &[Link],
        name: &Recipient,
        link: usize,
    ) -> Result<(HeldName, Option<ClosedLink>), Ungranted>
        ensures unlisted { (result ≡ Err Unlisted) ↔ (is_listed self.old name.now ≡ false) }
        ensures granted { IsOk result ↔ IsTrue (may_take_over self.old name.now) }
        ensures full { IfErr result (λ why. why ≢ Unlisted → why ≡ Full) }
        ensures held { IfOk result (λ taken. IsHeld name.now link taken.0) }
        ensures named { MatchResult result (λ _. IsLinked self.old name.now link self.new)
            (λ _. self.new ≡ self.old) }
        ensures closed { IfOk result (λ taken. (older : ℕ) (closed : Link)
            → link_of self.old name.now ≡ Some older → slice_get links.now older ≡ Some closed
            → IsSomeAnd taken.1 (λ shown. shown.place ≡ closed.place)) }
        ensures alone { IfOk result
            (λ taken. link_of self.old name.now ≡ None → taken.1 ≡ None) }
    {
        let (held, was) = self.give(name, link)?;
        Ok((held, close_link_of(rt, links, was)))
    }

    // Gives a link a name, and returns the link that had it until now.
    fn give(
        &mut self,
        name: &Recipient,
        link: usize,
    ) -> Result<(HeldName, Option<usize>), Ungranted>
        ensures unlisted { (result ≡ Err Unlisted) ↔ (is_listed self.old name.now ≡ false) }
        ensures granted { IsOk result ↔ IsTrue (may_take_over self.old name.now) }
        ensures full { IfErr result (λ why. why ≢ Unlisted → why ≡ Full) }
        ensures held { IfOk result (λ taken. IsHeld name.now link taken.0) }
        ensures named { MatchResult result
            (λ taken. (taken.1 ≡ link_of self.old name.now)
            × IsLinked self.old name.now link self.new)
            (λ _. self.new ≡ self.old) }
    {
        if !self.is_listed(name) {
            return Err(Ungranted::Unlisted);
        }
        let was = match name {
            Recipient::Gateway(gateway) => self.take_over_gateway(*gateway, link)?,
            Recipient::Application(application) => {
                let place = application.get() as usize;
                let was = self.applications[place];
                self.applications[place] = Some(link);
                was
            }
        };
        Ok((HeldName { name: *name, link }, was))
    }

    fn take_over_gateway(&mut self, gateway: Eui, link: usize) -> Result<Option<usize>, Ungranted>
        ensures granted { IsOk result ↔ IsTrue (has_link_or_room self.old (names.Gateway gateway)) }
        ensures full { IfErr result (λ why. why ≡ Full) }
        ensures named { MatchResult result
            (λ was. (was ≡ link_of self.old (names.Gateway gateway))
            × IsLinked self.old (names.Gateway gateway) link self.new)
            (λ _. self.new ≡ self.old) }
    {
        let was = self.gateway_link(gateway);
        if was.is_none() && self.gateways.len() >= MOST_GATEWAYS {
            return Err(Ungranted::Full);
        }
        self.forget_gateway(gateway);
        match self.gateways.push(LinkedGateway { gateway, link }) {
            Ok(()) => Ok(was),
            Err(_) => Err(Ungranted::Full),
        }
    }

    /// Takes a name away from a link that has ended, if the link still has it. A name that went
    /// over to another link stays there.
    pub fn leave(&mut self, held: HeldName) -> LeftName
        ensures held { result.held ≡ held }
        ensures had { IsTrue result.is_free ↔ (link_of self.old held.name ≡ Some held.link) }
        ensures left { MatchBool result.is_free (IsUnlinked self.old held.name self.new)
            (self.new ≡ self.old) }
    {
        let is_free = self.link_of(&held.name) == Some(held.link);
        if is_free {
            self.forget(&held.name);
        }
        LeftName { held, is_free }
    }

    // Takes a name away from its link, if it has one.
    fn forget(&mut self, name: &Recipient)
        ensures { IsUnlinked self.old name.now self.new }
    {
        match name {
            Recipient::Gateway(gateway) => self.forget_gateway(*gateway),
            Recipient::Application(application) => {
                self.applications[application.get() as usize] = None;
            }
        }
    }

    // Takes the name of a gateway away from its link, if it has one.
    fn forget_gateway(&mut self, gateway: Eui)
        ensures none { gateway_link gateway self.new.gateways.items ≡ None }
        ensures others { (other : Eui) → other ≢ gateway
            → gateway_link other self.new.gateways.items
            ≡ gateway_link other self.old.gateways.items }
        ensures few { length self.new.gateways.items ≤ length self.old.gateways.items }
        ensures fewer { IsSome (gateway_link gateway self.old.gateways.items)
            → length self.new.gateways.items < length self.old.gateways.items }
        ensures applications { self.new.applications ≡ self.old.applications }
        ensures rings { self.new.first_ring ≡ self.old.first_ring }
        ensures listed { self.new.listed ≡ self.old.listed }
    {
        self.gateways.retain(|linked| linked.gateway.0 != gateway.0);
    }

    /// The gateways that have links.
    pub fn gateways(&self) -> &[LinkedGateway]
        ensures { result.now ≡ self.now.gateways.items }
    {
        self.gateways.as_slice()
    }

    /// The link of each application, by the applications' numbers.
    pub fn applications(&self) -> &[Option<usize>]
        ensures { result.now ≡ self.now.applications }
    {
        &self.applications
    }

    /// The ring through which a gateway or an application is sent to: that of its link, or an
    /// application's own, if applications have rings of their own.
    pub fn ring_of(&self, name: &Recipient) -> Option<usize>
        ensures { result ≡ ring_of self.now name.now }
    {
        match (name, self.first_ring) {
            (Recipient::Application(application), Some(first)) => {
                Some(usize::from(first) + application.get() as usize)
            }
            _ => self.link_of(name),
        }
    }

    /// The link of a gateway or an application.
    pub fn link_of(&self, name: &Recipient) -> Option<usize>
        ensures { result ≡ link_of self.now name.now }
    {
        match name {
            Recipient::Gateway(gateway) => self.gateway_link(*gateway),
            Recipient::Application(application) => self.applications[application.get() as usize],
        }
    }

    fn gateway_link(&self, gateway: Eui) -> Option<usize>
        ensures { result ≡ gateway_link gateway self.now.gateways.items }
    {
        let found = self
            .gateways
            .iter()
            .find(|linked| linked.gateway.0 == gateway.0);
        found.map(|linked| linked.link)
    }
}
