// Decisions on a table whose records aren't put there.
ghost use Rattle.std.specs.Prelude.{◌≡◌, ◌≤◌, ◌+◌, ◌↔◌, IsTrue, MatchOption, None, length};
ghost use Rattle.std.specs.Prelude.{slice_get};
ghost use Rattle.std.specs.Option.{option_copied};
ghost use Rattle.sessions.specs.Table.{TableState, TakesNext, slot_of};
ghost use Rattle.sessions.specs.Decision.{FitsTable, FitAll, HasPlace, Continues, ContinueAll};
ghost use Rattle.sessions.specs.Decision.{with_decisions};

use crate::table::continuation::is_record;
use crate::{Decision, Table};
use devices::Device;
use lw_types::Eui;

impl Table {
    /// Tries whether `decisions` continue what `earlier` ones leave. The earlier ones fit the table
    /// but aren't put there yet, and the last of them has the number `seq`. Returns the number of
    /// the last decision, or `None` exactly if they don't continue. Each decision is tried on what
    /// those before it leave: the record is looked up among its own batch, then among the earlier
    /// ones, then in the table. Takes no memory. The cost grows with the number of decisions times
    /// that of both runs together, and not with the number of devices.
    pub fn continuation_end_after(
        &self,
        earlier: &[Decision],
        seq: u64,
        decisions: &[Decision],
    ) -> Option<u64>
        requires { FitAll self.now earlier.now }
        ensures { MatchOption result
            (¬ (ContinueAll (with_decisions self.now earlier.now) seq decisions.now))
            (λ last. ContinueAll (with_decisions self.now earlier.now) seq decisions.now
            × (last ≡ seq + length decisions.now)) }
    {
        let mut last = seq;
        for (at, decision) in decisions.iter().enumerate() {
            if !self.admits_after(earlier, &decisions[..at], last, decision) {
                return None;
            }
            last = decision.seq;
        }
        Some(last)
    }

    // Whether the decision was made of what the earlier ones, and then those of its own batch,
    // leave of this table, and has the number after `seq`.
    fn admits_after(
        &self,
        earlier: &[Decision],
        own: &[Decision],
        seq: u64,
        decision: &Decision,
    ) -> bool
        requires earlier { FitAll self.now earlier.now }
        requires own { FitAll (with_decisions self.now earlier.now) own.now }
        ensures { IsTrue result ↔ Continues
            (with_decisions (with_decisions self.now earlier.now) own.now) seq decision.now }
    {
        seq < decision.seq && decision.seq - seq == 1 && self.fits_after(earlier, own, decision)
    }

    // Whether the decision was made of what the two runs leave of this table.
    #[tactic(auto, using(crate::proofs::Placing::same_net, crate::proofs::Placing::same_slots))]
    fn fits_after(&self, earlier: &[Decision], own: &[Decision], decision: &Decision) -> bool
        requires earlier { FitAll self.now earlier.now }
        requires own { FitAll (with_decisions self.now earlier.now) own.now }
        ensures { IsTrue result ↔ FitsTable
            (with_decisions (with_decisions self.now earlier.now) own.now) decision.now }
    {
        self.has_slot(decision)
            && is_record(
                &decision.before,
                self.device_after_runs(earlier, own, decision.slot),
            )
            && self.has_room_after(earlier, own, decision)
    }

    // Whether the record that the decision leaves has its place in what the two runs leave of this
    // table, if it was made of the record there.
    fn has_room_after(&self, earlier: &[Decision], own: &[Decision], decision: &Decision) -> bool
        requires earlier { FitAll self.now earlier.now }
        requires own { FitAll (with_decisions self.now earlier.now) own.now }
        requires found { decision.now.before ≡ slice_get
            (with_decisions (with_decisions self.now earlier.now) own.now).devices
            decision.now.slot }
        ensures { IsTrue result ↔ HasPlace
            (with_decisions (with_decisions self.now earlier.now) own.now) decision.now.slot
            decision.now.after decision.now.before }
    {
        self.devices_are_apart();
        match &decision.before {
            Some(_) => true,
            None => self.takes_next_after(earlier, own, decision.slot, &decision.after),
        }
    }

    // What the two runs leave at a slot of this table.
    fn device_after_runs<'a>(
        &'a self,
        earlier: &'a [Decision],
        own: &'a [Decision],
        slot: u16,
    ) -> Option<&'a Device>
        requires earlier { FitAll self.now earlier.now }
        requires own { FitAll (with_decisions self.now earlier.now) own.now }
        ensures { option_copied result ≡ slice_get
            (with_decisions (with_decisions self.now earlier.now) own.now).devices slot }
    {
        let found = self.devices().get(slot as usize);
        device_after(device_after(found, earlier, slot), own, slot)
    }

    // Whether a new device with this record may have this slot of what the two runs leave.
    #[tactic(auto, using(crate::proofs::Placing::same_slots))]
    fn takes_next_after(
        &self,
        earlier: &[Decision],
        own: &[Decision],
        slot: u16,
        device: &Device,
    ) -> bool
        requires earlier { FitAll self.now earlier.now }
        requires own { FitAll (with_decisions self.now earlier.now) own.now }
        ensures { IsTrue result ↔ TakesNext
            (with_decisions (with_decisions self.now earlier.now) own.now) slot device.now }
    {
        slot as usize == len_after(len_after(self.devices().len(), earlier), own)
            && u64::from(slot) < self.slots().get()
            && self.is_new_after_runs(earlier, own, device.dev_eui)
    }

    // Whether no device has this DevEUI in what the two runs leave of this table.
    fn is_new_after_runs(&self, earlier: &[Decision], own: &[Decision], dev_eui: Eui) -> bool
        requires earlier { FitAll self.now earlier.now }
        requires own { FitAll (with_decisions self.now earlier.now) own.now }
        ensures { IsTrue result ↔ (slot_of dev_eui.0
            (with_decisions (with_decisions self.now earlier.now) own.now).devices ≡ None) }
    {
        let is_new = self.slot_of(dev_eui).is_none();
        is_new_after(is_new_after(is_new, earlier, dev_eui), own, dev_eui)
    }
}

// What decisions leave at a slot of any table that they fit, if this was there before.
fn device_after<'a>(
    before: Option<&'a Device>,
    decisions: &'a [Decision],
    slot: u16,
) -> Option<&'a Device>
    ensures { (t : TableState) → FitAll t decisions.now
        → option_copied before.entry ≡ slice_get t.devices slot
        → option_copied result ≡ slice_get (with_decisions t decisions.now).devices slot }
{
    let mut found = before;
    for decision in decisions {
        if decision.slot == slot {
            found = Some(&decision.after);
        }
    }
    found
}

// The number of devices that decisions leave in any table that they fit, if this number was there
// before.
fn len_after(before: usize, decisions: &[Decision]) -> usize
    ensures { (t : TableState) → FitAll t decisions.now → before ≡ length t.devices
        → result ≡ length (with_decisions t decisions.now).devices }
{
    let mut len = before;
    for decision in decisions {
        if decision.slot as usize == len {
            len += 1;
        }
    }
    len
}

// Whether a DevEUI is new in what decisions leave in any table that they fit, given whether it was
// new before.
fn is_new_after(before: bool, decisions: &[Decision], dev_eui: Eui) -> bool
    ensures { (t : TableState) → FitAll t decisions.now
        → (IsTrue before ↔ (slot_of dev_eui.0 t.devices ≡ None))
        → IsTrue result ↔ (slot_of dev_eui.0 (with_decisions t decisions.now).devices ≡ None) }
{
    let mut is_new = before;
    for decision in decisions {
        is_new = is_new && decision.after.dev_eui != dev_eui;
    }
    is_new
}
