// What a data frame does to the device at a slot (TS001-1.0.4 §4.3).
ghost use Rattle.std.specs.Prelude.{◌≡◌, MatchResult};
ghost use Rattle.lw_types.specs.Answer.{Answers};
ghost use Rattle.lw_types.specs.declared.refusal.Refusal.TheVariants.{OutOfMemory};
ghost use Rattle.phy_payload.specs.Frame.{data_mic_input};
ghost use Rattle.devices.specs.DeviceStep.{IsDeviceStep};
ghost use Rattle.downlinks.specs.Reply.{acknowledgement_step};
ghost use Rattle.uplinks.specs.Accepted.{uplink_step};
ghost use Rattle.devices.specs.Channels.{may_use};
ghost use Rattle.devices.specs.Heard.{IsReceivable};
ghost use Rattle.uplinks.specs.Fit.{fitted_session, IsOf};
ghost use Rattle.uplinks.specs.Step.{step_in_session, uplink_at};

use crate::Fit;
use crate::arrival::{HeardUplink, NetworkSlot, ReceivedUplink};
use devices::{CurrentSession, Device, Effects, Hearing};
use downlinks::SessionAt;
use lw_types::Refusal;
use phy_payload::laws::read_mic_inputs_are_short;
use std::alloc::Global;

/// Returns what an uplink does to the record of the device at a slot of a network: the record after
/// it, and its effects. The refusals, in this order:
/// - `UnknownDevAddr` if no session of the device has its address;
/// - `CounterGap` if its counter is too far above the last one in each session that has its
///   address;
/// - `BadMic` if its MIC isn't the session's;
/// - `UnknownChannel` if the copy that was heard best isn't on a channel of the session;
/// - `Repeat` if it comes again unconfirmed.
///
/// Each of these is returned whether or not memory is available. If memory runs out, the refusal is
/// `OutOfMemory`. The cost is bounded by the frame and the device's queues.
pub fn receive_uplink(
    alloc: Global,
    place: &NetworkSlot,
    device: &Device,
    received: &ReceivedUplink<'_>,
) -> Result<(Device, Effects), Refusal>
    requires { received.now.mic_input.now ≡ data_mic_input received.now.uplink.now.frame }
    ensures { Answers (uplink_at place.now.net_id place.now.slot device.now
        received.now.hearings.now received.now.uplink.now) IsDeviceStep result }
{
    let uplink = received.uplink;
    read_mic_inputs_are_short(&uplink.frame);
    let heard = HeardUplink {
        uplink,
        copies: received.hearings.copies(),
        best: received.hearings.best(),
    };
    match place.fit(&device.activation, &uplink.frame, received.mic_input) {
        Ok(fit) if fit.is_on_channel(&heard.best) => place.enter(alloc, device, fit, &heard),
        Ok(_) => Err(Refusal::UnknownChannel),
        Err(refusal) => Err(refusal),
    }
}

impl Fit {
    // Whether the best copy is on a channel of the session, on which the device may send.
    fn is_on_channel(&self, best: &Hearing) -> bool
        ensures { result ≡ may_use (fitted_session self.now).channels best.now.reception.frequency }
    {
        let session = match self {
            Fit::First { session, .. } => session,
            Fit::Next { session, .. } | Fit::Again { session } => &session.session,
        };
        session.channels.may_use(best.reception.frequency)
    }
}

impl NetworkSlot {
    // What the uplink does in its session.
    fn enter(
        &self,
        alloc: Global,
        device: &Device,
        fit: Fit,
        heard: &HeardUplink<'_>,
    ) -> Result<(Device, Effects), Refusal>
        requires of_device { IsOf device.now.activation fit }
        requires heard { IsReceivable heard.now.best.reception }
        ensures { Answers (step_in_session self.now.net_id self.now.slot device.now
            heard.now.uplink.now heard.now.copies heard.now.best fit) IsDeviceStep result }
    {
        match fit {
            Fit::Again { .. } if !heard.uplink.frame.confirmed() => Err(Refusal::Repeat),
            Fit::Again { session } => self.acknowledge(alloc, device, session, &heard.best),
            Fit::First { .. } => self.take_new(alloc, device, fit, heard),
            Fit::Next { .. } => self.take_new(alloc, device, fit, heard),
        }
    }

    // Takes a new uplink.
    fn take_new(
        &self,
        alloc: Global,
        device: &Device,
        fit: Fit,
        heard: &HeardUplink<'_>,
    ) -> Result<(Device, Effects), Refusal>
        requires of_device { IsOf device.now.activation fit }
        requires heard { IsReceivable heard.now.best.reception }
        ensures { MatchResult result
            (IsDeviceStep (uplink_step self.now.net_id self.now.slot device.now fit
            heard.now.uplink.now heard.now.copies heard.now.best))
            (λ e. e ≡ OutOfMemory) }
    {
        let mut after = device.copy()?;
        let mut effects = Effects::empty(alloc);
        self.accept_uplink(alloc, &mut after, &mut effects, fit, heard)?;
        Ok((after, effects))
    }

    // Acknowledges the last uplink of the current session, which comes again and is confirmed.
    fn acknowledge(
        &self,
        alloc: Global,
        device: &Device,
        session: CurrentSession,
        best: &Hearing,
    ) -> Result<(Device, Effects), Refusal>
        requires of_device { device.now.activation.current ≡ Some session }
        requires heard { IsReceivable best.now.reception }
        ensures { MatchResult result
            (IsDeviceStep (acknowledgement_step self.now.net_id self.now.slot device.now session
            best.now))
            (λ e. e ≡ OutOfMemory) }
    {
        let mut after = device.copy()?;
        let mut effects = Effects::empty(alloc);
        let place = self.session(session);
        downlinks::acknowledge(alloc, &mut after, &mut effects, &place, best)?;
        Ok((after, effects))
    }

    // The current session of the device here.
    pub(crate) fn session(&self, current: CurrentSession) -> SessionAt
        ensures { result ≡ record {
          net_id = self.now.net_id;
          slot = self.now.slot;
          current = current;
        } }
    {
        SessionAt {
            net_id: self.net_id,
            slot: self.slot,
            current,
        }
    }
}
