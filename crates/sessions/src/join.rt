// Granting a device a session, by the texts of the join server (TS001-1.0.4 §6.2).
ghost use Rattle.std.specs.Prelude.{◌≡◌, ◌<◌, Some, MatchResult, unwrap_or};
ghost use Rattle.lw_types.specs.Answer.{AnswersWithMemory};
ghost use Rattle.lw_types.specs.declared.refusal.Refusal.TheVariants.{OutOfMemory};
ghost use Rattle.join_server.specs.Join.{answer_to};
ghost use Rattle.join_server.specs.Request.{dev_eui_of};
ghost use Rattle.backend_json.specs.Messages.{IsAsk};
ghost use Rattle.backend_json.specs.Replies.{accepted_of, reply};
ghost use Rattle.devices.specs.DeviceStep.{IsDeviceStep};
ghost use Rattle.sessions.specs.Join.{accept_downlink, accept_effects, grant_step, join_ask};
ghost use Rattle.sessions.specs.Join.{join_state, join_step, cause_refusal, transaction_of};
ghost use Rattle.sessions.specs.Join.{with_session};

use backend_json::{Accepted, Cause, JoinAns, answer_text, join_req_text, read_join_ans};
use devices::{
    Channels, Device, Downlink, Effect, Effects, Hearing, Hearings, ReceiveWindows, RxDelay,
    Session, SessionName, dev_addr,
};
use join_server::{JoinAsk, JoinGrant, JoinRequestBytes, JoinState, SealedAccept};
use lw_types::{Eui, JoinNonce, NetId, PhyPayload, Refusal};
use std::alloc::Global;

// The delay from the end of a Join-Request to RX1, in seconds (TS001-1.0.4 §6.2.6).
const JOIN_ACCEPT_DELAY1: u64 = 5;

// The question for the device at a slot. A grant would lead to the decision with this number.
pub(crate) fn join_ask(
    net_id: NetId,
    slot: u16,
    device: &Device,
    request: JoinRequestBytes,
    seq: u64,
) -> JoinAsk
    ensures { result ≡ join_ask net_id slot device.now request (transaction_of seq) }
{
    let granted = device.activation.granted().map_or(0, JoinNonce::get);
    JoinAsk {
        net_id,
        dev_addr: dev_addr(net_id, slot, granted + 1),
        dl_settings: device.rx1_offset.get() as u8 * 16,
        rx_delay: device.rx_delay,
        request,
        transaction: (seq % (1 << 32)) as u32,
    }
}

// What the join server stores of a device.
fn join_state(device: &Device) -> JoinState
    ensures { result ≡ join_state device.now }
{
    JoinState {
        dev_eui: device.dev_eui,
        join_eui: device.join_eui,
        app_key: device.app_key,
        dev_nonce: device.last_dev_nonce,
        join_nonce: device.activation.granted(),
    }
}

// The device's record after the answer to its question, and the accept.
pub(crate) fn join(
    alloc: Global,
    device: &Device,
    ask: &JoinAsk,
    hearings: &Hearings,
) -> Result<(Device, Effects), Refusal>
    requires { dev_eui_of ask.now.request ≡ device.now.dev_eui.0 }
    ensures { AnswersWithMemory (join_step device.now hearings.now ask.now) IsDeviceStep result }
{
    match ask_join_server(alloc, &join_state(device), ask) {
        Ok((state, grant)) => grant_to(alloc, device, hearings, &state, &grant),
        Err(refusal) => Err(refusal),
    }
}

// The device's record with a granted session, and the accept.
fn grant_to(
    alloc: Global,
    device: &Device,
    hearings: &Hearings,
    state: &JoinState,
    grant: &JoinGrant,
) -> Result<(Device, Effects), Refusal>
    requires { unwrap_or device.now.activation.granted 0 < grant.now.join_nonce }
    ensures { MatchResult result
        (IsDeviceStep (grant_step device.now hearings.now (state.now, grant.now)))
        (λ e. e ≡ OutOfMemory) }
{
    let effects = accept_effects(alloc, device.dev_eui, grant, hearings.best())?;
    Ok((with_session(device.copy()?, state, grant), effects))
}

// The join server's answer to a question, by the texts of both.
fn ask_join_server(
    alloc: Global,
    state: &JoinState,
    ask: &JoinAsk,
) -> Result<(JoinState, JoinGrant), Refusal>
    requires { dev_eui_of ask.now.request ≡ state.now.dev_eui.0 }
    ensures { AnswersWithMemory (answer_to state.now ask.now)
        (λ granted found. found ≡ granted) result }
{
    let (ans, after) = exchange(alloc, state, ask)?;
    match ans.result {
        Ok(accepted) => {
            let after = after.unwrap();
            Ok((after, grant_of(after.join_nonce.unwrap(), accepted)))
        }
        Err(cause) => Err(cause_refusal(cause)),
    }
}

// The grant of this JoinNonce.
fn grant_of(join_nonce: JoinNonce, accepted: Accepted) -> JoinGrant
    ensures join_nonce { result.join_nonce ≡ join_nonce }
    ensures accepted { accepted ≡ accepted_of result }
{
    let accept = accepted.accept;
    JoinGrant {
        join_nonce,
        nwk_skey: accepted.nwk_skey,
        app_skey: accepted.app_skey,
        accept,
    }
}

// Writes the question as a text, and reads the answer from the text that the join server returns.
fn exchange(
    alloc: Global,
    state: &JoinState,
    ask: &JoinAsk,
) -> Result<(JoinAns, Option<JoinState>), Refusal>
    ensures { MatchResult result (λ found. found ≡ reply state.now ask.now) (λ e. e ≡ OutOfMemory) }
{
    backend_json::laws::each_text_is_of_one_message();
    ask_in_range(*ask);
    let question = join_req_text(alloc, ask)?;
    let (answer, after) = answer_text(alloc, state, &question)?;
    Ok((read_join_ans(alloc, &answer)?, after))
}

// What holds of a question by its types.
fn ask_in_range(_ask: JoinAsk)
    ensures { IsAsk _ask }
{}

// The refusal of a cause.
fn cause_refusal(cause: Cause) -> Refusal
    ensures { result ≡ cause_refusal cause }
{
    match cause {
        Cause::UnknownDevEui => Refusal::UnknownDevEui,
        Cause::WrongJoinEui => Refusal::WrongJoinEui,
        Cause::BadMic => Refusal::BadMic,
        Cause::DevNonceUsed => Refusal::DevNonceUsed,
        Cause::JoinNonceSpent => Refusal::JoinNonceSpent,
        Cause::BadMessage => Refusal::BadMessage,
    }
}

// The record with the granted session.
fn with_session(mut device: Device, state: &JoinState, grant: &JoinGrant) -> Device
    requires { unwrap_or device.activation.granted 0 < grant.now.join_nonce }
    ensures { result ≡ with_session device (state.now, grant.now) }
{
    device.last_dev_nonce = state.dev_nonce;
    device.activation.grant(Session {
        join_nonce: grant.join_nonce,
        nwk_skey: grant.nwk_skey,
        app_skey: grant.app_skey,
        channels: Channels::Eight,
    });
    device
}

// The accept, for the gateway that heard the request best.
fn accept_effects(
    alloc: Global,
    dev_eui: Eui,
    grant: &JoinGrant,
    best: Hearing,
) -> Result<Effects, Refusal>
    ensures { MatchResult result
        (λ effects. effects ≡ accept_effects dev_eui grant.now (Some best))
        (λ e. e ≡ OutOfMemory) }
{
    let session = SessionName {
        dev_eui,
        join_nonce: grant.join_nonce,
    };
    let downlink = accept_downlink(alloc, best, &grant.accept)?;
    let mut effects = Effects::empty(alloc);
    effects.push(Effect::Accept { session, downlink })?;
    Ok(effects)
}

// The Join-Accept as a downlink, in RX1 after JOIN_ACCEPT_DELAY1, or in RX2.
fn accept_downlink(alloc: Global, best: Hearing, frame: &SealedAccept) -> Result<Downlink, Refusal>
    ensures { MatchResult result
        (λ downlink. downlink ≡ accept_downlink best frame.now)
        (λ e. e ≡ OutOfMemory) }
{
    Ok(Downlink {
        gateway: best.reception.gateway,
        stamp: best.stamp,
        frequency: best.reception.frequency,
        data_rate: best.reception.data_rate,
        delay: RxDelay::new(JOIN_ACCEPT_DELAY1).unwrap(),
        receive_windows: ReceiveWindows::Rx1OrRx2,
        frame: PhyPayload::from_slice(alloc, frame)?,
    })
}
