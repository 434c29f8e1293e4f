// Joins that a device was granted, and its sessions (TS001-1.0.4 §6.2).
ghost use Rattle.std.specs.Prelude.{◌≡◌, ◌≤◌, ◌<◌, ◌↔◌, ◌^◌, IsTrue, IfSome, option_map, unwrap_or};
ghost use Rattle.devices.specs.Activation.{current_nonce};

use crate::{Channels, GrantsSince, NextDown};
use lw_types::{JoinNonce, Key};
use std::marker::Model;

/// A session as a join makes it: its JoinNonce, its keys, and the channels from its accept.
#[derive(Clone, Copy, PartialEq, Eq)]
pub struct Session {
    pub join_nonce: JoinNonce,
    pub nwk_skey: Key,
    pub app_skey: Key,
    pub channels: Channels,
}

/// The current session, with the counter of its last uplink and of its next downlink.
#[derive(Clone, Copy, PartialEq, Eq)]
pub struct CurrentSession {
    pub session: Session,
    pub last_up: u32,
    pub next_down: NextDown,
}

/// The last JoinNonce granted to a device, and its sessions. No session is above the last grant.
/// The pending session waits for its first uplink; it is later than the current one.
#[derive(Clone, Copy, PartialEq, Eq)]
pub struct Activation {
    granted: Option<JoinNonce>,
    current: Option<CurrentSession>,
    pending: Option<Session>,
}

impl Model for Activation {
    ghost use Rattle.devices.specs.Activation.{Grants, AreInOrder};

    ghost Value = { Grants };

    ghost view = { λ a. record { granted = a.granted; current = a.current; pending = a.pending } };

    ghost invariant = { λ a. AreInOrder
        (record { granted = a.granted; current = a.current; pending = a.pending }) };

    ghost inverse = { λ g.
        record { granted = g.granted; current = g.current; pending = g.pending } };
}

impl Activation {
    ghost use Rattle.std.specs.Prelude.{◌≡◌, ◌^◌, Some, SomeIff, true};
    ghost use Rattle.devices.specs.Activation.{with_last_up, with_current, grants_of, no_grants};
    ghost use Rattle.devices.specs.Activation.{with_down_used, with_grant, AreInOrder};
    ghost use Rattle.devices.specs.Restored.{has_grants_left, raised_grants, restored_grants};

    /// Nothing granted yet.
    pub fn none() -> Self
        ensures { result ≡ no_grants }
    {
        Activation {
            granted: None,
            current: None,
            pending: None,
        }
    }

    /// These grants and sessions; `None` if they aren't in order.
    pub fn new(
        granted: Option<JoinNonce>,
        current: Option<CurrentSession>,
        pending: Option<Session>,
    ) -> Option<Self>
        ensures { let grants = grants_of granted current pending in
            SomeIff result (AreInOrder grants) grants }
    {
        let last = granted_nonce(&granted);
        let used = current_nonce(&current);
        if used <= last && is_between(&pending, used, last) {
            Some(Activation {
                granted,
                current,
                pending,
            })
        } else {
            None
        }
    }

    /// The last JoinNonce granted.
    pub fn granted(&self) -> Option<JoinNonce>
        ensures value { result ≡ self.now.granted }
        ensures in_order { AreInOrder self.now }
    {
        self.granted
    }

    /// The current session.
    pub fn current(&self) -> Option<CurrentSession>
        ensures { result ≡ self.now.current }
    {
        self.current
    }

    /// Grants a session with a JoinNonce above the last one. It is pending until its first uplink,
    /// and replaces a session that was pending. The current session stays.
    pub fn grant(&mut self, session: Session)
        requires { unwrap_or self.old.granted 0 < session.join_nonce }
        ensures { self.new ≡ with_grant self.old session }
    {
        self.granted = Some(session.join_nonce);
        self.pending = Some(session);
    }

    /// Makes the pending session the current one, after its first uplink, which has this counter.
    /// Its downlinks count from 0.
    pub fn begin(&mut self, session: Session, up: u32)
        requires { self.old.pending ≡ Some session }
        ensures { self.new ≡ with_current self.old session up }
    {
        self.current = Some(CurrentSession {
            session,
            last_up: up,
            next_down: NextDown::new(0).unwrap(),
        });
        self.pending = None;
    }

    /// Records that the current session had an uplink with this counter.
    pub fn advance(&mut self, current: CurrentSession, up: u32)
        requires { self.old.current ≡ Some current }
        ensures { self.new ≡ with_last_up self.old current up }
    {
        self.current = Some(CurrentSession {
            last_up: up,
            ..current
        });
    }

    /// Uses up the next downlink counter (FCntDown) of the current session.
    pub fn use_down(&mut self, current: CurrentSession)
        requires in_use { self.old.current ≡ Some current }
        requires is_left { current.next_down < 2 ^ 32 }
        ensures { self.new ≡ with_down_used self.old current }
    {
        let next_down = NextDown::new(current.next_down.get() + 1).unwrap();
        self.current = Some(CurrentSession {
            next_down,
            ..current
        });
    }

    /// Counts this JoinNonce as granted: raises the last granted one to it, unless that is higher
    /// already. The sessions stay.
    pub fn raise(&mut self, to: JoinNonce)
        ensures { self.new ≡ raised_grants to self.old }
    {
        if granted_nonce(&self.granted) < to.get() {
            self.granted = Some(to);
        }
    }

    /// The grants of a restored older copy: the last granted JoinNonce is `since` higher, and no
    /// session is left. `None` exactly if fewer than `since` JoinNonces are left above it.
    pub fn restored(&self, since: GrantsSince) -> Option<Self>
        ensures { SomeIff result (has_grants_left since self.now ≡ true)
            (restored_grants since self.now) }
    {
        let granted = JoinNonce::new(granted_nonce(&self.granted) + since.get() as u32)?;
        Some(Activation {
            granted: Some(granted),
            current: None,
            pending: None,
        })
    }

    /// The pending session, which hasn't had an uplink yet.
    pub fn pending(&self) -> Option<Session>
        ensures { result ≡ self.now.pending }
    {
        self.pending
    }
}

impl Activation {
    ghost use Rattle.devices.specs.Parts.{session_of, counters_of};

    /// Whether both have the same current session, leaving its counters aside.
    pub fn same_session(&self, other: &Activation) -> bool
        ensures { IsTrue result ↔ (session_of self.now ≡ session_of other.now) }
    {
        session_of(&self.current) == session_of(&other.current)
    }

    /// Whether the counters of both current sessions are the same, leaving the sessions aside.
    pub fn same_counters(&self, other: &Activation) -> bool
        ensures { IsTrue result ↔ (counters_of self.now ≡ counters_of other.now) }
    {
        counters_of(&self.current) == counters_of(&other.current)
    }

    /// Whether the pending session is the same one.
    pub fn same_pending(&self, other: &Activation) -> bool
        ensures { IsTrue result ↔ (self.now.pending ≡ other.now.pending) }
    {
        self.pending == other.pending
    }
}

// The session without its counters.
fn session_of(current: &Option<CurrentSession>) -> Option<Session>
    ensures { result ≡ option_map (λ c. c.session) current.now }
{
    match current {
        None => None,
        Some(current) => Some(current.session),
    }
}

// The counter of the last uplink and that of the next downlink.
fn counters_of(current: &Option<CurrentSession>) -> Option<(u32, NextDown)>
    ensures { result ≡ option_map (λ c. (c.last_up, c.next_down)) current.now }
{
    match current {
        None => None,
        Some(current) => Some((current.last_up, current.next_down)),
    }
}

// The number of the last grant, 0 if there is none.
fn granted_nonce(granted: &Option<JoinNonce>) -> u32
    ensures value { result ≡ unwrap_or granted.now 0 }
    ensures range { result < 2 ^ 24 }
{
    match granted {
        None => 0,
        Some(nonce) => nonce.get(),
    }
}

// The JoinNonce of the current session, 0 if there is none.
fn current_nonce(current: &Option<CurrentSession>) -> u32
    ensures { result ≡ current_nonce current.now }
{
    match current {
        None => 0,
        Some(current) => current.session.join_nonce.get(),
    }
}

// Whether the pending session, if there is one, is above the current session and at most the last
// grant.
fn is_between(pending: &Option<Session>, used: u32, last: u32) -> bool
    ensures { IsTrue result ↔ (IfSome pending.now (λ s. s.join_nonce ≤ last)
        × IfSome pending.now (λ s. used < s.join_nonce)) }
{
    match pending {
        None => true,
        Some(session) => {
            let waits = session.join_nonce.get();
            used < waits && waits <= last
        }
    }
}
