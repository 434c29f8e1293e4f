// Restoring the table of an older copy.
ghost use Rattle.std.specs.Prelude.{◌≡◌, ◌∷◌, ◌↔◌, IsSome, IsTrue, MatchResult, None, Some};
ghost use Rattle.std.specs.Prelude.{option_map};

use crate::Table;
use devices::{GrantsSince, SessionName};
use lw_types::Eui;

impl Table {
    ghost use Rattle.sessions.specs.Restored.{raised_by_all, raised_table, restored_table};
    ghost use Rattle.sessions.specs.Restored.{spent_device};
    ghost use Rattle.sessions.specs.Table.{slot_of};

    /// Restores the table of an older copy: the last granted JoinNonce of each device is raised by
    /// `since`, and no device has a session. All else stays. So devices have to join again. Refused
    /// with the DevEUI of the first device that has fewer than `since` JoinNonces left, exactly if
    /// there is one; then nothing changes. Takes no memory. Its cost grows with the number of
    /// devices.
    ///
    /// From then on the table rules out every mark that the network used up before the copy. It
    /// also rules out every later mark whose JoinNonce is at most `since` above the copy's last one
    /// of the device: [`a_restored_table_covers`](crate::laws::a_restored_table_covers). Each join
    /// counts as one JoinNonce. Each earlier restore of the same network counts as its `since`,
    /// unless [`raise`](Table::raise) was called for the JoinNonces from which it went on.
    pub fn restore(&mut self, since: GrantsSince) -> Result<(), Eui>
        ensures { MatchResult result
            (λ _. (spent_device since self.old ≡ None)
            × (self.new ≡ restored_table since self.old))
            (λ dev_eui. (self.new ≡ self.old)
            × (option_map (λ d. d.dev_eui) (spent_device since self.old) ≡ Some dev_eui)) }
    {
        if let Some(dev_eui) = self.spent_device(since) {
            return Err(dev_eui);
        }
        for slot in 0..self.devices.len() {
            let _restored = self.devices[slot].restore(since);
        }
        Ok(())
    }

    /// Counts this session as granted: raises the last granted JoinNonce of its device to the
    /// session's, unless that is higher already. All else stays. Returns whether the table has the
    /// device; if not, nothing changes. Takes no memory. Its cost doesn't grow with the number of
    /// devices.
    pub fn raise(&mut self, session: &SessionName) -> bool
        ensures known { IsTrue result ↔ IsSome (slot_of session.now.dev_eui.0 self.old.devices) }
        ensures raised { self.new ≡ raised_table session.now self.old }
    {
        match self.slot_of(session.dev_eui) {
            Some(slot) => {
                self.devices[slot as usize].raise(session.join_nonce);
                true
            }
            None => false,
        }
    }

    /// Counts these sessions as granted, one after another, as [`raise`](Table::raise) does.
    pub fn raise_all(&mut self, sessions: &[SessionName])
        ensures { self.new ≡ raised_by_all sessions.now self.old }
    {
        for session in sessions {
            let _known = self.raise(session);
        }
    }

    // The first device that has fewer than `since` JoinNonces left.
    fn spent_device(&self, since: GrantsSince) -> Option<Eui>
        ensures { result ≡ option_map (λ d. d.dev_eui) (spent_device since self.now) }
    {
        let spent = self
            .devices
            .iter()
            .find(|device| !device.has_grants_left(since));
        spent.map(|device| device.dev_eui)
    }
}
