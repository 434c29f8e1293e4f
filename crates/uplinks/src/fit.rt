// The session of an uplink, and its counter there (TS001-1.0.4 §4.3.1.5, §4.4).
ghost use Rattle.std.specs.Prelude.{◌≡◌, IfOk, None, Some};
ghost use Rattle.counters.specs.Rebuilt.{rebuilt_counter};
ghost use Rattle.uplinks.specs.Fit.{current_trial, fit_of, later_trial, if_signed, is_for};
ghost use Rattle.uplinks.specs.Fit.{try_current, try_pending, verdict, pending_trial, IsOf};
ghost use Rattle.uplinks.specs.Arrival.{IsMicInputOf};

use crate::arrival::NetworkSlot;
use crate::laws::a_fit_is_of_its_device;
use counters::{Rebuilt, rebuild};
use devices::{Activation, CurrentSession, Session, dev_addr};
use frame_crypt::data_mic;
use lw_types::{Direction, Refusal};
use phy_payload::DataFrameRef;

/// The session to which an uplink belongs.
#[derive(Clone, Copy)]
pub enum Fit {
    /// The session that was pending, and the uplink's counter.
    First {
        session: Session,
        counter: u32,
    },
    /// The current session, and the uplink's counter, which is later than the last one.
    Next {
        session: CurrentSession,
        counter: u32,
    },
    /// The current session, whose last uplink comes again.
    Again {
        session: CurrentSession,
    },
}

/// How far a session accepts an uplink: each test is tried only if those before it passed.
#[derive(Clone, Copy)]
pub enum Trial {
    /// The session has another address.
    OtherDevAddr,
    /// The counter is too far above the session's last one.
    BadCounter,
    /// The MIC isn't the session's.
    BadMic,
    /// The uplink belongs to the session.
    Fits(Fit),
}

impl Trial {
    // The first trial that fits; if none fits, the one that passed more tests.
    fn later_trial(self, other: Trial) -> Trial
        ensures { result ≡ later_trial self other }
    {
        match (self, other) {
            (Trial::Fits(_), _) => self,
            (_, Trial::OtherDevAddr) => self,
            (Trial::BadMic, Trial::BadCounter) => self,
            (_, _) => other,
        }
    }

    // The session of the uplink, or its refusal.
    fn verdict(self) -> Result<Fit, Refusal>
        ensures { result ≡ verdict self }
    {
        match self {
            Trial::OtherDevAddr => Err(Refusal::UnknownDevAddr),
            Trial::BadCounter => Err(Refusal::CounterGap),
            Trial::BadMic => Err(Refusal::BadMic),
            Trial::Fits(fit) => Ok(fit),
        }
    }
}

impl NetworkSlot {
    // The session of the device to which the uplink belongs, in which its FCntUp counts on: the
    // pending or the current one.
    pub(crate) fn fit(
        &self,
        activation: &Activation,
        frame: &DataFrameRef<'_>,
        mic_input: &[u8],
    ) -> Result<Fit, Refusal>
        requires { IsMicInputOf frame.now mic_input.now }
        ensures value { result ≡ fit_of self.now.net_id self.now.slot activation.now frame.now }
        ensures of_device { IfOk result (λ fit. IsOf activation.now fit) }
    {
        a_fit_is_of_its_device();
        let (waiting, current) = (activation.pending(), activation.current());
        let first = self.try_pending(waiting, frame, mic_input);
        let next = self.try_current(current, frame, mic_input);
        first.later_trial(next).verdict()
    }

    // Tries the uplink in the pending session, which has had no counter yet.
    fn try_pending(
        &self,
        waiting: Option<Session>,
        frame: &DataFrameRef<'_>,
        mic_input: &[u8],
    ) -> Trial
        requires { IsMicInputOf frame.now mic_input.now }
        ensures { result ≡ try_pending self.now.net_id self.now.slot waiting frame.now }
    {
        match waiting {
            Some(session) if self.is_of(&session, frame) => try_first(session, frame, mic_input),
            Some(_) => Trial::OtherDevAddr,
            None => Trial::OtherDevAddr,
        }
    }

    // Tries the uplink in the current session.
    fn try_current(
        &self,
        current: Option<CurrentSession>,
        frame: &DataFrameRef<'_>,
        mic_input: &[u8],
    ) -> Trial
        requires { IsMicInputOf frame.now mic_input.now }
        ensures { result ≡ try_current self.now.net_id self.now.slot current frame.now }
    {
        match current {
            Some(session) if self.is_of(&session.session, frame) => {
                try_next(session, frame, mic_input)
            }
            Some(_) => Trial::OtherDevAddr,
            None => Trial::OtherDevAddr,
        }
    }

    // Whether the frame has exactly the address of a session.
    fn is_of(&self, session: &Session, frame: &DataFrameRef<'_>) -> bool
        ensures { result ≡ is_for self.now.net_id self.now.slot session.now frame.now }
    {
        let address = frame.dev_addr();
        address.0 == dev_addr(self.net_id, self.slot, session.join_nonce.get()).0
    }
}

// Tries an uplink in a pending session that has its address.
fn try_first(session: Session, frame: &DataFrameRef<'_>, mic_input: &[u8]) -> Trial
    requires { IsMicInputOf frame.now mic_input.now }
    ensures { result ≡ pending_trial session frame.now (rebuilt_counter None frame.now.f_cnt) }
{
    match rebuild(None, frame.f_cnt()) {
        Rebuilt::New(counter) => {
            let fit = Fit::First { session, counter };
            if_signed(&session, counter, frame, mic_input, fit)
        }
        Rebuilt::Repeat => Trial::BadCounter,
        Rebuilt::Gap => Trial::BadCounter,
    }
}

// Tries an uplink in a current session that has its address. A repeated uplink has the last
// counter.
fn try_next(current: CurrentSession, frame: &DataFrameRef<'_>, mic_input: &[u8]) -> Trial
    requires { IsMicInputOf frame.now mic_input.now }
    ensures { result ≡ current_trial current frame.now
        (rebuilt_counter (Some current.last_up) frame.now.f_cnt) }
{
    match rebuild(Some(current.last_up), frame.f_cnt()) {
        Rebuilt::New(counter) => {
            let fit = Fit::Next {
                session: current,
                counter,
            };
            if_signed(&current.session, counter, frame, mic_input, fit)
        }
        Rebuilt::Repeat => {
            let fit = Fit::Again { session: current };
            if_signed(&current.session, current.last_up, frame, mic_input, fit)
        }
        Rebuilt::Gap => Trial::BadCounter,
    }
}

// The fit, if the frame's MIC is the session's under this counter.
fn if_signed(
    session: &Session,
    counter: u32,
    frame: &DataFrameRef<'_>,
    mic_input: &[u8],
    fit: Fit,
) -> Trial
    requires { IsMicInputOf frame.now mic_input.now }
    ensures { result ≡ if_signed session.now counter frame.now fit }
{
    let key = &session.nwk_skey;
    let mic = data_mic(key, Direction::Up, frame.dev_addr(), counter, mic_input);
    if frame.mic().0 == mic {
        Trial::Fits(fit)
    } else {
        Trial::BadMic
    }
}
