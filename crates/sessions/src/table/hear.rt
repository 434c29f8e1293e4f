// A frame that gateways heard, as a step of the device that sent it.
ghost use Rattle.std.specs.Prelude.{◌≡◌, IfOk, None, Ok, Some, MatchOption, slice_get};
ghost use Rattle.lw_types.specs.Answer.{Answers};
ghost use Rattle.phy_payload.specs.Frame.{data_mic_input};
ghost use Rattle.join_server.specs.Request.{dev_eui_of, IsRequest};
ghost use Rattle.sessions.specs.HeardStep.{StepsHeard};
ghost use Rattle.sessions.specs.Served.{served_frame, heard_command, heard_frame, received_in};
ghost use Rattle.sessions.specs.Served.{is_request};
ghost use Rattle.sessions.specs.Table.{slot_of, step, IsQuestion};
ghost use Rattle.sessions.specs.Decision.{AnswersTo, IsStepped};

use crate::join::{join, join_ask};
use crate::served::Served;
use crate::table::decide::Stepped;
use crate::{HeardStep, Table};
use devices::{Device, Hearings, slot_at};
use join_server::{JoinAsk, JoinRequestBytes};
use lw_types::{Eui, PhyPayload, Refusal};
use phy_payload::{PhyRef, read_phy};
use region_eu868::is_first_channel;
use std::alloc::Global;
use uplinks::{NetworkSlot, ReceivedUplink, Uplink};

/// The question to the join server, and the device that it is about.
#[derive(Clone, Copy)]
pub struct Question<'a> {
    pub slot: u16,
    pub device: &'a Device,
    pub ask: JoinAsk,
}

impl Table {
    /// What a frame with these copies does, for the decision with this sequence number. The frame
    /// and its copies are only borrowed. With them ([`HeardStep::into_decision`]) it is the
    /// decision of [`Table::decide`]. It is refused as `decide` refuses it.
    pub fn step_heard(
        &self,
        alloc: Global,
        seq: u64,
        phy_payload: &PhyPayload,
        hearings: &Hearings,
    ) -> Result<HeardStep, Refusal>
        ensures steps { StepsHeard self.now seq (heard_frame phy_payload.now hearings.now) result }
        ensures request { IfOk result (λ found. found.is_join_request
            ≡ is_request (received_in (heard_frame phy_payload.now hearings.now))) }
    {
        let frame = receive(phy_payload, hearings)?;
        let is_join_request = frame.is_request();
        let Stepped {
            slot,
            after,
            effects,
        } = self.serve(alloc, seq, phy_payload, hearings, &frame)?;
        let before = self.record_at(slot)?;
        let _ = self.devices();
        self.devices_are_apart();
        Ok(HeardStep {
            net_id: self.net_id(),
            seq,
            slot,
            before,
            after,
            effects,
            is_join_request,
        })
    }

    // What a frame that gateways heard does.
    pub(crate) fn hear(
        &self,
        alloc: Global,
        seq: u64,
        phy_payload: &PhyPayload,
        hearings: &Hearings,
    ) -> Result<Stepped, Refusal>
        ensures { let command = heard_command phy_payload.now hearings.now in
            AnswersTo command (step self.now command) IsStepped result }
    {
        let served = receive(phy_payload, hearings)?;
        self.serve(alloc, seq, phy_payload, hearings, &served)
    }

    // What a frame that is served does.
    fn serve(
        &self,
        alloc: Global,
        seq: u64,
        phy_payload: &PhyPayload,
        hearings: &Hearings,
        served: &Served<'_>,
    ) -> Result<Stepped, Refusal>
        requires { received_in (heard_frame phy_payload.now hearings.now) ≡ Ok served.now }
        ensures { let command = heard_command phy_payload.now hearings.now in
            AnswersTo command (step self.now command) IsStepped result }
    {
        match served {
            Served::Request(request) => {
                self.hear_request(alloc, seq, phy_payload, hearings, *request)
            }
            Served::Uplink(uplink) => self.hear_uplink(alloc, phy_payload, hearings, uplink),
        }
    }

    /// The question to the join server for a Join-Request, numbered as the decision to which it
    /// would lead. `None` if no device has its DevEUI. A decision asks it; otherwise only tests
    /// need it.
    pub fn question(&self, seq: u64, request: &JoinRequestBytes) -> Option<Question<'_>>
        ensures { MatchOption result
            (slot_of (dev_eui_of request.now) self.now.devices ≡ None)
            (λ question. IsQuestion self.now seq request.now question) }
    {
        let (slot, device) = self.device_of(request.dev_eui())?;
        let ask = join_ask(self.net_id(), slot, device, *request, seq);
        Some(Question { slot, device, ask })
    }

    // What a Join-Request does, under the number of the decision to which it would lead.
    fn hear_request(
        &self,
        alloc: Global,
        seq: u64,
        phy_payload: &PhyPayload,
        hearings: &Hearings,
        request: JoinRequestBytes,
    ) -> Result<Stepped, Refusal>
        requires { received_in (heard_frame phy_payload.now hearings.now)
            ≡ Ok (Served.Request request) }
        ensures { let command = heard_command phy_payload.now hearings.now in
            AnswersTo command (step self.now command) IsStepped result }
    {
        match self.question(seq, &request) {
            Some(question) => match join(alloc, question.device, &question.ask, hearings) {
                Ok((after, effects)) => Ok(Stepped {
                    slot: question.slot,
                    after,
                    effects,
                }),
                Err(refusal) => Err(refusal),
            },
            None => Err(Refusal::UnknownDevEui),
        }
    }

    // What an uplink does.
    fn hear_uplink(
        &self,
        alloc: Global,
        phy_payload: &PhyPayload,
        hearings: &Hearings,
        uplink: &Uplink<'_>,
    ) -> Result<Stepped, Refusal>
        requires { received_in (heard_frame phy_payload.now hearings.now)
            ≡ Ok (Served.Uplink uplink.now) }
        ensures { Answers (step self.now (heard_command phy_payload.now hearings.now))
            IsStepped result }
    {
        let slot = slot_at(uplink.frame.dev_addr());
        let received = ReceivedUplink {
            uplink,
            mic_input: without_mic(phy_payload.as_slice(), uplink),
            hearings,
        };
        match self.devices().get(slot as usize) {
            Some(device) => {
                let net_id = self.net_id();
                let place = NetworkSlot { net_id, slot };
                match uplinks::receive_uplink(alloc, &place, device, &received) {
                    Ok((after, effects)) => Ok(Stepped {
                        slot,
                        after,
                        effects,
                    }),
                    Err(refusal) => Err(refusal),
                }
            }
            None => Err(Refusal::UnknownDevAddr),
        }
    }

    // The slot of the device with this DevEUI, and the device.
    #[tactic(auto, using(crate::proofs::Placing::found_within, crate::proofs::Placing::found_name))]
    pub(crate) fn device_of(&self, dev_eui: Eui) -> Option<(u16, &Device)>
        ensures { MatchOption result
            (slot_of dev_eui.0 self.now.devices ≡ None)
            (λ found. (slot_of dev_eui.0 self.now.devices ≡ Some found.0)
            × (slice_get self.now.devices found.0 ≡ Some found.1.now)
            × (found.1.now.dev_eui.0 ≡ dev_eui.0)) }
    {
        let slot = self.slot_of(dev_eui)?;
        Some((slot, &self.devices()[slot as usize]))
    }
}

// The frame that was heard, if it is served and its best copy is on a channel where it may be sent.
// A Join-Request may be sent on the first channels only. Takes no memory.
fn receive<'a>(phy_payload: &'a PhyPayload, hearings: &Hearings) -> Result<Served<'a>, Refusal>
    ensures { result ≡ received_in (heard_frame phy_payload.now hearings.now) }
{
    let served = read_frame(phy_payload.as_slice())?;
    if served.is_request() && !is_first_channel(hearings.best().reception.frequency) {
        return Err(Refusal::UnknownChannel);
    }
    Ok(served)
}

// The frame of these bytes, if it is served. Takes no memory.
fn read_frame(bytes: &[u8]) -> Result<Served<'_>, Refusal>
    ensures { result ≡ served_frame bytes.now }
{
    match read_phy(bytes) {
        Ok(PhyRef::JoinRequest(_)) => {
            phy_payload::laws::reading_is_the_grammar();
            phy_payload::laws::a_join_request_has_23_bytes();
            Ok(Served::Request(request_bytes(bytes)))
        }
        Ok(PhyRef::JoinAccept(_)) => Err(Refusal::NotServed),
        Ok(PhyRef::DataFrame(frame)) => match Uplink::new(frame) {
            Ok(uplink) => Ok(Served::Uplink(uplink)),
            Err(refusal) => Err(refusal),
        },
        Err(refusal) => Err(refusal),
    }
}

// The Join-Request of these bytes.
fn request_bytes(bytes: &[u8]) -> JoinRequestBytes
    requires { IsRequest bytes.now }
    ensures { result ≡ bytes.now }
{
    let bytes: Result<[u8; 23], _> = bytes.try_into();
    JoinRequestBytes::new(bytes.unwrap()).unwrap()
}

// All of an uplink's frame except its MIC.
fn without_mic<'a>(bytes: &'a [u8], uplink: &Uplink<'_>) -> &'a [u8]
    requires { served_frame bytes.now ≡ Ok (Served.Uplink uplink.now) }
    ensures { result.now ≡ data_mic_input uplink.now.frame }
{
    phy_payload::laws::reading_is_the_grammar();
    phy_payload::laws::frames_are_short();
    phy_payload::laws::a_mic_stands_behind_its_input();
    &bytes[..bytes.len() - 4]
}
