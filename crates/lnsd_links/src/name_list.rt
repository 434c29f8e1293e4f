// The names that may greet, if they are listed.
ghost use Rattle.std.specs.Prelude.{◌≡◌, ◌≤◌, ◌<◌, ◌^◌, length};
ghost use Rattle.std.proofs.Props.{props};
ghost use Rattle.std.specs.List.{IsDistinct};
ghost use Rattle.lnsd_links.specs.Same.{is_same_eui};

use crate::name_lines::{ListLines, is_remark, name_in};
use crate::names::{APPLICATIONS, MOST_GATEWAYS};
use gateway_wire::Recipient;
use lnsd_operator::NameListFault;
use lw_types::{Eui, laws};
use std::alloc::Global;

/// The names that may greet: at most 64 gateways, and applications.
#[derive(Drop)]
pub struct NameList {
    gateways: Vec<Eui>,
    applications: [bool; APPLICATIONS],
    ghost few: { length gateways.items ≤ 64 },
    ghost distinct: { IsDistinct is_same_eui gateways.items } by { Prim.hlevel props },
}

impl NameList {
    ghost use Rattle.std.specs.Prelude.{MatchResult};
    ghost use Rattle.gateway_wire.specs.declared.recipient.Recipient.TheVariants as names;
    ghost use Rattle.lnsd_links.specs.Names.{has_name, number_of_names, lines_of};
    ghost use Rattle.lnsd_links.specs.Names.{HasAlso, IsNameListOf};
    ghost use Rattle.lnsd_links.specs.Names.{IsNoNameListOf, IsNotAdded, IsNotOneMore, IsOneMore};

    /// Reads a list. Each line is `gateway` and an EUI of 16 upper-case hexadecimal digits,
    /// `application` and a number from 0 to 15, empty, or a remark, which begins with `#`. A name
    /// may come twice. Refused with the number of the first line, from 1, that is none of these; as
    /// `Gateways` if more than 64 gateways are listed before such a line; or with `OutOfMemory`.
    pub fn read(alloc: Global, text: &str) -> Result<Self, NameListFault>
        ensures { MatchResult result (IsNameListOf (lines_of text.now))
            (IsNoNameListOf (lines_of text.now)) }
    {
        laws::a_line_is_its_words();
        laws::each_text_is_a_word();
        laws::each_text_is_of_one_value();
        // a list names fewer gateways than its text has bytes
        let Ok(gateways) = Vec::with_capacity(alloc, len_of(text).min(MOST_GATEWAYS)) else {
            return Err(NameListFault::OutOfMemory);
        };
        let mut list = NameList {
            gateways,
            applications: [false; APPLICATIONS],
        };
        let mut number: u64 = 0;
        for line in ListLines::of(text) {
            number = number.saturating_add(1);
            if let Err(fault) = list.add_line(line, number) {
                return Err(fault);
            }
        }
        Ok(list)
    }

    // Adds what the line of this number lists.
    fn add_line(&mut self, line: &str, number: u64) -> Result<(), NameListFault>
        ensures { MatchResult result (λ _. IsOneMore line.now self.old self.new)
            (IsNotOneMore line.now number self.old) }
    {
        if is_remark(line) {
            return Ok(());
        }
        match name_in(line) {
            Some(name) => self.add(name),
            None => Err(NameListFault::Line(number)),
        }
    }

    // Lists a name, if it isn't listed yet.
    fn add(&mut self, name: Recipient) -> Result<(), NameListFault>
        ensures { MatchResult result (λ _. HasAlso self.old name self.new)
            (IsNotAdded name self.old) }
    {
        match name {
            Recipient::Gateway(gateway) => self.add_gateway(gateway),
            Recipient::Application(application) => {
                self.applications[application.get() as usize] = true;
                Ok(())
            }
        }
    }

    fn add_gateway(&mut self, gateway: Eui) -> Result<(), NameListFault>
        ensures { MatchResult result (λ _. HasAlso self.old (names.Gateway gateway) self.new)
            (IsNotAdded (names.Gateway gateway) self.old) }
    {
        if self.has_gateway(gateway) {
            return Ok(());
        }
        if self.gateways.len() >= MOST_GATEWAYS {
            return Err(NameListFault::Gateways);
        }
        match self.gateways.push(gateway) {
            Ok(()) => Ok(()),
            Err(_) => Err(NameListFault::OutOfMemory),
        }
    }

    /// Whether this name is listed.
    pub fn has(&self, name: &Recipient) -> bool
        ensures { result ≡ has_name self.now name.now }
    {
        match name {
            Recipient::Gateway(gateway) => self.has_gateway(*gateway),
            Recipient::Application(application) => self.applications[application.get() as usize],
        }
    }

    fn has_gateway(&self, gateway: Eui) -> bool
        ensures { result ≡ has_name self.now (names.Gateway gateway) }
    {
        self.gateways.iter().any(|listed| gateway.0 == listed.0)
    }

    /// The number of names.
    pub fn count(&self) -> usize
        ensures { result ≡ number_of_names self.now }
    {
        let applications = self.applications.iter().filter(|it| **it).count();
        self.gateways.len() + applications
    }
}

// The number of a text's bytes.
fn len_of(text: &str) -> usize
    ensures len { result ≡ length text.now }
    ensures short { result < 2 ^ 63 }
{
    text.len()
}
