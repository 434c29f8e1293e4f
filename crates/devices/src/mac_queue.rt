// The MAC commands that wait for a device's next downlink.
ghost use Rattle.std.specs.Prelude.{◌≡◌, ◌≢◌, ◌≤◌, ◌<◌, ◌+◌, ◌++◌, ◌↔◌, true, List, [], ℕ, IsTrue};
ghost use Rattle.std.specs.Prelude.{drop, length, IfOk, MatchResult, OnErr, OnOk, Some, nat_eq};
ghost use Rattle.std.specs.Cmp.{partial_equiv_from_equiv};
ghost use Rattle.std.specs.Cmp.Lexicographic.{pointwise, nat_list_eq_equiv};
ghost use Rattle.std.specs.Fmt.{debug_list, decimal};
ghost use Rattle.mac_commands.specs.Queueable.{AreQueueable};
ghost use Rattle.mac_commands.specs.Reading.{fitting_len};
ghost use Rattle.devices.specs.MacQueue.{may_queue};

use mac_commands::{are_queueable, fit15};
use std::alloc::{AllocError, Global};
use std::marker::Model;

/// Whole MAC commands that an application may queue (LinkADRReq, DutyCycleReq and DevStatusReq,
/// TS001-1.0.4 §5), one after another in at most 128 bytes. In contracts it is the list of the
/// bytes.
pub struct MacQueue {
    bytes: Vec<u8>,
}

// By hand, so that it is proved once: a derived drop is proved again at each use of the type.
impl Drop for MacQueue {
    fn drop(self) {
        let Self { bytes: _ } = self;
    }
}

impl Model for MacQueue {
    ghost use Rattle.std.specs.Prelude.{◌≤◌, List, length, ℕ};
    ghost use Rattle.mac_commands.specs.Queueable.{AreQueueable};
    ghost use Rattle.devices.specs.declared.mac_queue.TheConstants.MacQueue.{MOST};

    ghost Value = { List ℕ };

    ghost view = { λ q. q.bytes.items };

    ghost invariant = { λ q. (length q.bytes.items ≤ MOST) × AreQueueable q.bytes.items };
}

impl MacQueue {
    /// The most bytes that wait.
    pub const MOST: usize = 128;

    /// No commands. Takes no memory.
    pub fn empty(alloc: Global) -> Self
        ensures { result ≡ [] }
    {
        MacQueue {
            bytes: Vec::new(alloc),
        }
    }

    /// These bytes, if they are at most 128 and are whole commands that may be queued; otherwise
    /// the vector is returned as the error.
    pub fn new(bytes: Vec<u8>) -> Result<Self, Vec<u8>>
        ensures { MatchResult result
            (λ q. (q ≡ bytes.items) × (length bytes.items ≤ Self.MOST) × AreQueueable bytes.items)
            (λ v. (v.items ≡ bytes.items)
            × ¬ ((length bytes.items ≤ Self.MOST) × AreQueueable bytes.items)) }
    {
        if bytes.len() <= Self::MOST && are_queueable(bytes.as_slice()) {
            Ok(MacQueue { bytes })
        } else {
            Err(bytes)
        }
    }

    /// A copy of these bytes in newly allocated memory.
    pub fn from_slice(alloc: Global, bytes: &[u8]) -> Result<Self, AllocError>
        requires few { length bytes.now ≤ Self.MOST }
        requires whole { AreQueueable bytes.now }
        ensures { IfOk result (λ q. q ≡ bytes.now) }
    {
        Ok(MacQueue {
            bytes: Vec::from_slice(alloc, bytes)?,
        })
    }

    /// Whether an application may queue these bytes: they must be one or more whole commands. Takes
    /// no memory.
    pub fn takes(bytes: &[u8]) -> bool
        ensures value { result ≡ may_queue bytes.now }
        ensures whole { IsTrue result ↔ ((bytes.now ≢ []) × AreQueueable bytes.now) }
    {
        !bytes.is_empty() && are_queueable(bytes)
    }

    /// Adds whole commands at the end. After an `Err` the queue is unchanged.
    pub fn append(&mut self, commands: &[u8]) -> Result<(), AllocError>
        requires room { length self.old + length commands.now ≤ Self.MOST }
        requires whole { may_queue commands.now ≡ true }
        ensures ok { OnOk result (self.new ≡ self.old ++ commands.now) }
        ensures err { OnErr result (self.new ≡ self.old) }
    {
        mac_commands::laws::whole_commands_join_and_part();
        mac_commands::laws::queues_are_found();
        self.bytes.extend_from_slice(commands)?;
        Ok(())
    }

    /// How many bytes from the front fit the room that is left of a downlink's FOpts: the most, in
    /// whole commands. Takes no memory.
    pub fn fitting(&self, room: u8) -> usize
        ensures value { result ≡ fitting_len self.now room }
        ensures within { result ≤ length self.now }
        ensures fits { result ≤ room }
    {
        fit15(self.bytes.as_slice(), room)
    }

    /// Removes from the front the commands that fit the room. Takes no memory.
    pub fn leave(&mut self, room: u8)
        ensures { self.new ≡ drop (fitting_len self.old room) self.old }
    {
        mac_commands::laws::what_fits_leaves_a_queue();
        let fits = fit15(self.bytes.as_slice(), room);
        self.bytes.drain(..fits);
    }

    /// Whether no commands wait.
    pub fn is_empty(&self) -> bool
        ensures { IsTrue result ↔ (self.now ≡ []) }
    {
        self.bytes.is_empty()
    }

    /// The bytes of the commands, at most 128.
    pub fn as_slice(&self) -> &[u8]
        ensures bytes { result.now ≡ self.now }
        ensures few { length self.now ≤ Self.MOST }
        ensures whole { AreQueueable self.now }
    {
        self.bytes.as_slice()
    }
}

impl Clone for MacQueue {
    ghost is_clone = { λ s t. t ≡ s };

    fn clone(&self) -> Result<Self, AllocError> {
        Ok(MacQueue {
            bytes: self.bytes.clone()?,
        })
    }
}

impl PartialEq for MacQueue {
    ghost eq = { λ x y. pointwise nat_eq x y };

    ghost laws = { partial_equiv_from_equiv nat_list_eq_equiv };

    fn eq(&self, other: &Self) -> bool {
        self.bytes.as_slice() == other.bytes.as_slice()
    }
}

impl Eq for MacQueue {
    ghost laws = { nat_list_eq_equiv };
}
