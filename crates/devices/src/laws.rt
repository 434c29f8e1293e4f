//! Laws of the types' ranges: each range is the one that its name says, with no value more or less.
//! Also: which copy of a frame is the best, and that addresses lead to their devices.
ghost use Rattle.std.specs.Prelude.{◌≡◌, ◌≤◌, ◌<◌, ◌-◌, ◌^◌, ◌↔◌, ℕ, IsTrue, List, [], MatchOption};
ghost use Rattle.std.specs.Prelude.{Some, SomeIff};
ghost use Rattle.devices.specs.declared.heard.Hearing.{Hearing};
ghost use Rattle.devices.specs.Address.{dev_addr, slot_at};
ghost use Rattle.devices.specs.Heard.{best_of, is_better, AreApart, IsBest, IsBetter};

use crate::{
    Application, Copies, Effects, Hearings, ItemQueue, LAST_HEARD, MacQueue, NextDown, Port,
    Rx1Offset, RxDelay, UplinkCount,
};

/// Applications are numbered from 0 to 15.
pub fn applications_are_0_to_15(number: u64) -> Option<Application>
    ensures { SomeIff result (number ≤ 15) number }
{
    Application::new(number)
}

/// RX1DROffset is from 0 to 5.
pub fn offsets_are_0_to_5(number: u64) -> Option<Rx1Offset>
    ensures { SomeIff result (number ≤ 5) number }
{
    Rx1Offset::new(number)
}

/// The delay of RX1 is from 1 to 15 seconds.
pub fn delays_are_1_to_15(seconds: u64) -> Option<RxDelay>
    ensures { SomeIff result ((1 ≤ seconds) × (seconds ≤ 15)) seconds }
{
    RxDelay::new(seconds)
}

/// Ports of applications are from 1 to 223.
pub fn ports_are_1_to_223(number: u64) -> Option<Port>
    ensures { SomeIff result ((1 ≤ number) × (number ≤ 223)) number }
{
    Port::new(number)
}

/// The next downlink counter is from 0 to 2^32.
pub fn next_downs_are_at_most_2_to_the_32(number: u64) -> Option<NextDown>
    ensures { SomeIff result (number ≤ 2 ^ 32) number }
{
    NextDown::new(number)
}

/// An uplink is heard by 1 to 32 gateways.
pub fn copies_are_1_to_32(number: u64) -> Option<Copies>
    ensures { SomeIff result ((1 ≤ number) × (number ≤ 32)) number }
{
    Copies::new(number)
}

/// Uplinks are counted from 0 to [`LAST_HEARD`].
pub fn uplinks_are_counted_to_the_last(number: u64) -> Option<UplinkCount>
    ensures { SomeIff result (number ≤ LAST_HEARD) number }
{
    UplinkCount::new(number)
}

/// The limits of a device's queues, a decision's effects and a frame's copies, and the highest
/// count of uplinks.
pub fn limits_are_these()
    ensures mac_queue { MacQueue.MOST ≡ 128 }
    ensures items { ItemQueue.MOST ≡ 16 }
    ensures effects { Effects.MOST ≡ 4 }
    ensures copies { Hearings.MOST ≡ 32 }
    ensures heard { LAST_HEARD ≡ 2 ^ 63 - 1 }
{}

/// The best copy of a frame is one of its copies, unless there are none, and no other was heard
/// better. If no two copies are from one gateway, it is the only such copy.
pub fn the_best_copy_is_heard_best()
    ensures better { (a b : Hearing) → IsTrue (is_better a b) ↔ IsBetter a b }
    ensures best { (hearings : List Hearing) →
        MatchOption (best_of hearings) (hearings ≡ []) (λ best. IsBest hearings best) }
    ensures only { (hearings : List Hearing) (h : Hearing) → AreApart hearings → IsBest hearings h →
        best_of hearings ≡ Some h }
{}

/// An address leads to the slot of its device: slots are below 4,096.
pub fn addresses_lead_to_their_slots()
    ensures { (net_id slot join_nonce : ℕ) → slot < 4096
        → slot_at (dev_addr net_id slot join_nonce).0 ≡ slot }
{}
