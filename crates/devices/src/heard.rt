// A frame with all its copies.
ghost use Rattle.std.specs.Prelude.{◌≡◌, ◌≤◌, ◌<◌, ◌↔◌, [], ◌∷◌, All, AllPairs, Any, IsTrue};
ghost use Rattle.std.specs.Prelude.{MatchOption, MatchResult, OnErr, Some, length};
ghost use Rattle.lw_types.specs.Answer.{Answers};
ghost use Rattle.lw_types.specs.declared.refusal.Refusal.TheVariants.{OutOfMemory};
ghost use Rattle.devices.specs.Heard.{best_of, gateway_of, has_gateway, is_better, with_hearing};
ghost use Rattle.devices.specs.Heard.{AreApart, AreHearings, IsReceivable};

use crate::Copies;
use lw_types::{Eui, PhyPayload, Reception, Refusal};
use region_eu868::is_channel;
use std::alloc::{AllocError, Global};
use std::marker::Model;

/// How one gateway heard a frame, and its time at the end of the frame, in microseconds.
#[derive(Clone, Copy, PartialEq, Eq)]
pub struct Hearing {
    pub reception: Reception,
    pub stamp: u32,
}

/// How 1 to 32 gateways heard one frame: one copy from each gateway, each on a channel and at a
/// data rate from 0 to 5. In contracts it is the list of the copies.
pub struct Hearings {
    items: Vec<Hearing>,
}

// By hand, so that it is proved once: a derived drop is proved again at each use of the type.
impl Drop for Hearings {
    fn drop(self) {
        let Self { items: _ } = self;
    }
}

impl Model for Hearings {
    ghost use Rattle.std.specs.Prelude.{List};
    ghost use Rattle.devices.specs.declared.heard.Hearing.{Hearing};
    ghost use Rattle.devices.specs.Heard.{AreHearings};

    ghost Value = { List Hearing };

    ghost view = { λ h. h.items.items };

    ghost invariant = { λ h. AreHearings h.items.items };
}

/// A frame with all the copies of it that gateways heard. Its bytes are kept only once.
#[derive(Clone, PartialEq, Eq, Drop)]
pub struct Heard {
    pub phy_payload: PhyPayload,
    pub hearings: Hearings,
}

impl Hearings {
    /// The most gateways from which a copy is kept.
    pub const MOST: usize = 32;

    /// These copies, in the order in which they came. `None` if there are none or more than 32, or
    /// if two are from one gateway. Also `None` if one isn't on a channel and at a data rate from 0
    /// to 5.
    pub fn new(items: Vec<Hearing>) -> Option<Self>
        ensures { MatchOption result (¬ (AreHearings items.items))
            (λ h. AreHearings items.items × (h ≡ items.items)) }
    {
        if are_hearings(items.as_slice()) {
            Some(Hearings { items })
        } else {
            None
        }
    }

    /// The first copy of a frame. If memory runs out, it is refused as `OutOfMemory`.
    pub fn of(alloc: Global, first: Hearing) -> Result<Self, Refusal>
        requires { IsReceivable first.reception }
        ensures { MatchResult result (λ h. h ≡ first ∷ []) (λ e. e ≡ OutOfMemory) }
    {
        let mut items = Vec::new(alloc);
        items.push(first)?;
        Ok(Hearings { items })
    }

    /// Adds a copy at the end. It is refused as `SameGateway` if its gateway already has a copy,
    /// then as `CopiesFull` if there are 32. Both are returned whether or not memory is available.
    /// If memory runs out, it is refused as `OutOfMemory`. After an `Err` the copies are unchanged.
    pub fn add(&mut self, hearing: Hearing) -> Result<(), Refusal>
        requires { IsReceivable hearing.reception }
        ensures added { Answers (with_hearing self.old hearing)
            (λ hearings _. self.new ≡ hearings) result }
        ensures same { OnErr result (self.new ≡ self.old) }
    {
        if has_gateway(self.items.as_slice(), hearing.reception.gateway) {
            return Err(Refusal::SameGateway);
        }
        if self.items.len() >= Self::MOST {
            return Err(Refusal::CopiesFull);
        }
        self.items.push(hearing)?;
        Ok(())
    }

    /// The copies in the order in which they came.
    pub fn as_slice(&self) -> &[Hearing]
        ensures hearings { result.now ≡ self.now }
        ensures in_range { AreHearings self.now }
    {
        self.items.as_slice()
    }

    /// The number of copies, which is the number of gateways.
    pub fn copies(&self) -> Copies
        ensures { result ≡ length self.now }
    {
        Copies::new(self.items.len() as u64).unwrap()
    }

    /// The copy that was heard best: the one with the greatest SNR, among these the greatest RSSI,
    /// and among these the smallest gateway EUI.
    #[tactic(auto, using(crate::proofs::Best::best_receivable))]
    pub fn best(&self) -> Hearing
        ensures best { Some result ≡ best_of self.now }
        ensures receivable { IsReceivable result.reception }
        ensures in_range { AreHearings self.now }
    {
        self.heard_best()
    }

    // The copy that is better than those before it and at least as good as those after it.
    fn heard_best(&self) -> Hearing
        ensures best { Some result ≡ best_of self.now }
        ensures in_range { AreHearings self.now }
    {
        let mut best = self.items[0];
        for hearing in &self.items[1..] {
            if hearing.is_better_than(&best) {
                best = *hearing;
            }
        }
        best
    }
}

impl Hearing {
    // Whether this copy was heard better than the other.
    fn is_better_than(&self, other: &Hearing) -> bool
        ensures { result ≡ is_better self.now other.now }
    {
        let (a, b) = (&self.reception, &other.reception);
        if a.snr != b.snr {
            return a.snr > b.snr;
        }
        if a.rssi != b.rssi {
            return a.rssi > b.rssi;
        }
        a.gateway < b.gateway
    }
}

impl Clone for Hearings {
    ghost is_clone = { λ s t. t ≡ s };

    fn clone(&self) -> Result<Self, AllocError> {
        Ok(Hearings {
            items: self.items.clone()?,
        })
    }
}

impl PartialEq for Hearings {
    ghost use Rattle.std.specs.Cmp.Lexicographic.{pointwise, lists_per};
    ghost use Rattle.devices.specs.contracts.heard.HearingPartialEq.TheImpl.{ghosts};
    ghost use Rattle.devices.specs.contracts.heard.HearingPartialEq.TheImpl.Laws as hearing;

    ghost eq = { λ x y. pointwise ghosts.eq x y };

    ghost laws = { lists_per hearing.laws-law };

    fn eq(&self, other: &Self) -> bool {
        self.items == other.items
    }
}

impl Eq for Hearings {
    ghost use Rattle.std.specs.Cmp.Lexicographic.{lists_equiv};
    ghost use Rattle.devices.specs.contracts.heard.HearingEq.TheImpl.Laws as hearing;

    ghost laws = { lists_equiv hearing.laws-law };
}

// Whether these may be all the copies of a frame.
fn are_hearings(hearings: &[Hearing]) -> bool
    ensures { IsTrue result ↔ AreHearings hearings.now }
{
    if hearings.is_empty() {
        return false;
    }
    if hearings.len() > Hearings::MOST {
        return false;
    }
    if !are_receivable(hearings) {
        return false;
    }
    are_apart(hearings)
}

/// Whether this reception is in range: on a channel, at a data rate from 0 to 5.
pub fn is_receivable(reception: &Reception) -> bool
    ensures { IsTrue result ↔ IsReceivable reception.now }
{
    is_channel(reception.frequency) && reception.data_rate <= 5
}

fn are_receivable(hearings: &[Hearing]) -> bool
    ensures { IsTrue result ↔ All (λ h. IsReceivable h.reception) hearings.now }
{
    for hearing in hearings {
        if !is_receivable(&hearing.reception) {
            return false;
        }
    }
    true
}

// Whether one of the copies is from this gateway.
fn has_gateway(hearings: &[Hearing], gateway: Eui) -> bool
    ensures any { IsTrue result ↔ Any (λ h. gateway_of h ≡ gateway.0) hearings.now }
    ensures tested { result ≡ has_gateway hearings.now gateway.0 }
{
    hearings
        .iter()
        .any(|hearing| hearing.reception.gateway.0 == gateway.0)
}

// Whether no two copies are from one gateway.
fn are_apart(hearings: &[Hearing]) -> bool
    ensures { IsTrue result ↔ AreApart hearings.now }
{
    for i in 0..hearings.len() {
        if has_gateway(&hearings[..i], hearings[i].reception.gateway) {
            return false;
        }
    }
    true
}
