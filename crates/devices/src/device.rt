// The record that the network keeps of a device.
ghost use Rattle.std.specs.Prelude.{◌≡◌, ◌↔◌, IsTrue, MatchResult};
ghost use Rattle.lw_types.specs.declared.refusal.Refusal.TheVariants.{OutOfMemory};

use crate::{
    Activation, Application, GrantsSince, ItemQueue, LAST_HEARD, MacQueue, Provisioning, Rx1Offset,
    RxDelay, Tag, UplinkCount,
};
use lw_types::{Eui, JoinNonce, Key, Refusal};
use std::alloc::Global;

/// What the network knows of a device. Its queues survive a join.
#[derive(Clone, PartialEq, Eq, Drop)]
pub struct Device {
    pub dev_eui: Eui,
    pub join_eui: Eui,
    pub app_key: Key,
    /// The application that the device belongs to.
    pub application: Application,
    pub rx1_offset: Rx1Offset,
    pub rx_delay: RxDelay,
    /// The last DevNonce accepted.
    pub last_dev_nonce: Option<u16>,
    pub activation: Activation,
    /// The item that was sent confirmed and has no answer yet.
    pub awaited: Option<Tag>,
    pub mac_queue: MacQueue,
    pub items: ItemQueue,
    /// The number of new uplinks accepted, over all sessions.
    pub heard: UplinkCount,
}

impl Device {
    ghost use Rattle.std.specs.Prelude.{true, false};
    ghost use Rattle.devices.specs.Device.{new_device, one_more_heard};
    ghost use Rattle.devices.specs.Restored.{has_grants_left, raised_device, restored_device};

    /// The record of a device that was just provisioned. Takes no memory.
    pub fn provisioned(alloc: Global, provisioning: &Provisioning) -> Self
        ensures { result ≡ new_device provisioning.now }
    {
        Device {
            dev_eui: provisioning.dev_eui,
            join_eui: provisioning.join_eui,
            app_key: provisioning.app_key,
            application: provisioning.application,
            rx1_offset: provisioning.rx1_offset,
            rx_delay: provisioning.rx_delay,
            last_dev_nonce: None,
            activation: Activation::none(),
            awaited: None,
            mac_queue: MacQueue::empty(alloc),
            items: ItemQueue::empty(alloc),
            heard: UplinkCount::new(0).unwrap(),
        }
    }

    /// Counts one more uplink. At its highest value the count stays.
    pub fn hear_one_more(&mut self)
        ensures { self.new ≡ record self.old { heard = one_more_heard self.old.heard } }
    {
        let heard = self.heard.get();
        if heard < LAST_HEARD {
            self.heard = UplinkCount::new(heard + 1).unwrap();
        }
    }

    /// Counts this JoinNonce as granted to the device: raises the last granted one to it, unless
    /// that is higher already. All else stays.
    pub fn raise(&mut self, to: JoinNonce)
        ensures { self.new ≡ raised_device to self.old }
    {
        self.activation.raise(to);
    }

    /// Whether `since` JoinNonces are left above the last granted one.
    pub fn has_grants_left(&self, since: GrantsSince) -> bool
        ensures { result ≡ has_grants_left since self.now.activation }
    {
        self.activation.restored(since).is_some()
    }

    /// Restores the record of an older copy: raises the last granted JoinNonce by `since` and drops
    /// every session. All else stays. Returns whether `since` JoinNonces were left; if not, nothing
    /// changes.
    pub fn restore(&mut self, since: GrantsSince) -> bool
        ensures left { result ≡ has_grants_left since self.old.activation }
        ensures restored { result ≡ true → self.new ≡ restored_device since self.old }
        ensures same { result ≡ false → self.new ≡ self.old }
    {
        match self.activation.restored(since) {
            Some(activation) => {
                self.activation = activation;
                true
            }
            None => false,
        }
    }

    /// The same record in newly allocated memory.
    pub fn copy(&self) -> Result<Self, Refusal>
        ensures { MatchResult result (λ device. device ≡ self.now) (λ e. e ≡ OutOfMemory) }
    {
        Ok(self.clone()?)
    }

    /// Whether the two records are the same in every field.
    pub fn same_as(&self, other: &Device) -> bool
        ensures { IsTrue result ↔ (self.now ≡ other.now) }
    {
        self == other
    }
}

// The parts of a record that change together.
impl Device {
    ghost use Rattle.devices.specs.Parts.{nonces_of, session_of, counters_of};

    /// Whether both records have the same last DevNonce and the same last JoinNonce granted.
    pub fn same_nonces(&self, other: &Device) -> bool
        ensures { IsTrue result ↔ (nonces_of self.now ≡ nonces_of other.now) }
    {
        self.last_dev_nonce == other.last_dev_nonce
            && self.activation.granted() == other.activation.granted()
    }

    /// Whether both records have the same current session, leaving its counters aside.
    pub fn same_session(&self, other: &Device) -> bool
        ensures { IsTrue result
            ↔ (session_of self.now.activation ≡ session_of other.now.activation) }
    {
        self.activation.same_session(&other.activation)
    }

    /// Whether the counters of both records' current sessions are the same, leaving the sessions
    /// aside.
    pub fn same_counters(&self, other: &Device) -> bool
        ensures { IsTrue result
            ↔ (counters_of self.now.activation ≡ counters_of other.now.activation) }
    {
        self.activation.same_counters(&other.activation)
    }

    /// Whether both records have the same pending session.
    pub fn same_pending(&self, other: &Device) -> bool
        ensures { IsTrue result ↔ (self.now.activation.pending ≡ other.now.activation.pending) }
    {
        self.activation.same_pending(&other.activation)
    }

    /// Whether both records await the same item.
    pub fn same_awaited(&self, other: &Device) -> bool
        ensures { IsTrue result ↔ (self.now.awaited ≡ other.now.awaited) }
    {
        self.awaited == other.awaited
    }

    /// Whether both records have the same MAC commands waiting.
    pub fn same_mac_queue(&self, other: &Device) -> bool
        ensures { IsTrue result ↔ (self.now.mac_queue ≡ other.now.mac_queue) }
    {
        self.mac_queue == other.mac_queue
    }
}
