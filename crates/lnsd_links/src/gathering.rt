// Putting effects together as frames of the wire.
ghost use Rattle.std.specs.Prelude.{◌≡◌, ◌≤◌, ◌++◌, ◌⊎◌, List, [], length, IsTrue, MatchBool};
ghost use Rattle.std.specs.Prelude.{false};
ghost use Rattle.devices.specs.declared.effect.Effect.{Effect};
ghost use Rattle.gateway_wire.specs.Emission.{effect_frame, recipient};
ghost use Rattle.lnsd_links.specs.Sending.{AreGathered};
ghost use Rattle.outbox.specs.Ring.{seen_by, taken_from};

use crate::outgoing::{MUCH, Outgoing};
use crate::rings::PLACES;
use devices::Effect;
use gateway_wire::Recipient;
use outbox::Inlet;
use std::alloc::Global;

// How many effects are put together before they are sent.
pub const SOME: u64 = 64;

/// The number of effects that were taken, and how many of them were lost.
#[derive(Clone, Copy)]
pub struct Gathered {
    pub taken: u64,
    pub lost: u64,
}

/// Takes effects from the ring of a link, and puts the frames of those for this name after the
/// outgoing ones. Stops when there are enough effects or bytes, or when no more effects are seen
/// (`enough`). An effect for another name is lost: a link's new peer never receives what was for
/// the one before it. An effect is also lost if memory for its frame runs out, and on a broken link
/// every effect is (`broken`). No clause says that all other effects are put.
pub fn gather(
    alloc: Global,
    name: &Recipient,
    inlet: &mut Inlet,
    outgoing: &mut Outgoing,
    is_broken: bool,
) -> Gathered
    ensures together { AreGathered name.now (taken_from inlet.old) (taken_from inlet.new)
        result.taken result.lost outgoing.old outgoing.new }
    ensures broken { IsTrue is_broken → result.lost ≡ result.taken }
    ensures enough { (result.taken ≡ SOME) ⊎ ((MUCH ≤ length outgoing.new)
        ⊎ (seen_by inlet.new ≡ [])) }
{
    let mut taken: u64 = 0;
    let mut lost: u64 = 0;
    for _turn in 0..SOME {
        if outgoing.is_much() {
            break;
        }
        let Some(effect) = inlet.take() else {
            break;
        };
        taken += 1;
        if !is_put(alloc, name, effect, outgoing, is_broken) {
            lost += 1;
        }
    }
    Gathered { taken, lost }
}

/// Takes what is seen in a ring, at most as many effects as it has places for. Returns their
/// number.
pub fn drop_all(inlet: &mut Inlet) -> u64
    ensures taken { (effects : List Effect)
        × ((taken_from inlet.new ≡ taken_from inlet.old ++ effects)
        × (result ≡ length effects)) }
    ensures all { (result ≡ PLACES) ⊎ (seen_by inlet.new ≡ []) }
{
    let mut taken: u64 = 0;
    for _turn in 0..PLACES {
        if inlet.take().is_none() {
            break;
        }
        taken += 1;
    }
    taken
}

// Whether an effect is for the link of this name and its frame was put after the others. It isn't
// put without memory, nor on a broken link.
fn is_put(
    alloc: Global,
    name: &Recipient,
    effect: Effect,
    outgoing: &mut Outgoing,
    is_broken: bool,
) -> bool
    ensures framed { MatchBool result
        ((recipient effect ≡ name.now) × (outgoing.new ≡ outgoing.old ++ effect_frame effect))
        (outgoing.new ≡ outgoing.old) }
    ensures broken { IsTrue is_broken → result ≡ false }
{
    !is_broken && Recipient::of(&effect) == *name && outgoing.add_effect(alloc, &effect).is_ok()
}
