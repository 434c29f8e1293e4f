// Granting or refusing joins.
ghost use Rattle.std.specs.Prelude.{◌≡◌, ◌<◌, ◌^◌, MatchResult, Ok, Err, SomeIff};
ghost use Rattle.frame_crypt.specs.Joins.{sealed_accept};
ghost use Rattle.join_server.specs.Join.{admission, answer_to, accept_fields, is_later};
ghost use Rattle.join_server.specs.Join.{next_join_nonce};

use crate::{JoinAsk, JoinGrant, JoinRequestBytes, JoinState, SealedAccept};
use frame_crypt::{derive_keys, seal_accept};
use lw_types::{JoinNonce, Key, Refusal};
use region_eu868::CF_LIST;

/// Answers a Join-Request of the state's device, and returns the device's state after it. Refused
/// with `WrongJoinEui`; then with `BadMic`; then with `DevNonceUsed`, if the DevNonce isn't above
/// the last accepted one; then with `JoinNonceSpent`, if 16,777,215 was already granted. Takes no
/// memory.
pub fn answer(state: &JoinState, ask: &JoinAsk) -> Result<(JoinState, JoinGrant), Refusal>
    ensures { result ≡ answer_to state.now ask.now }
{
    let join_nonce = admit(state, &ask.request)?;
    let dev_nonce = ask.request.dev_nonce();
    let (nwk_skey, app_skey) = derive_keys(&state.app_key, join_nonce, ask.net_id, dev_nonce);
    let grant = JoinGrant {
        join_nonce,
        nwk_skey,
        app_skey,
        accept: accept_for(&state.app_key, join_nonce, ask),
    };
    let after = JoinState {
        dev_nonce: Some(dev_nonce),
        join_nonce: Some(join_nonce),
        ..*state
    };
    Ok((after, grant))
}

// The JoinNonce that a Join-Request is granted, or the refusal.
fn admit(state: &JoinState, request: &JoinRequestBytes) -> Result<JoinNonce, Refusal>
    ensures { MatchResult result
        (λ granted. (admission state.now request.now ≡ Ok tt)
        × (granted ≡ next_join_nonce state.now.join_nonce))
        (λ refusal. admission state.now request.now ≡ Err refusal) }
{
    if request.join_eui() != state.join_eui {
        return Err(Refusal::WrongJoinEui);
    }
    if !request.is_signed(&state.app_key) {
        return Err(Refusal::BadMic);
    }
    if !is_later(state.dev_nonce, request.dev_nonce()) {
        return Err(Refusal::DevNonceUsed);
    }
    next_join_nonce(state.join_nonce).ok_or(Refusal::JoinNonceSpent)
}

// Whether a DevNonce is above the device's last one.
fn is_later(last: Option<u16>, dev_nonce: u16) -> bool
    ensures { result ≡ is_later last dev_nonce }
{
    match last {
        None => true,
        Some(last) => last < dev_nonce,
    }
}

// The JoinNonce after the last one, if there is one.
fn next_join_nonce(last: Option<JoinNonce>) -> Option<JoinNonce>
    ensures { SomeIff result (next_join_nonce last < 2 ^ 24) (next_join_nonce last) }
{
    match last {
        None => JoinNonce::new(1),
        Some(last) => JoinNonce::new(last.get() + 1),
    }
}

// The sealed Join-Accept, with the CFList.
fn accept_for(key: &Key, join_nonce: JoinNonce, ask: &JoinAsk) -> SealedAccept
    ensures { result ≡ sealed_accept key.now.0 (accept_fields join_nonce ask.now) }
{
    let mut frame = fields(join_nonce, ask);
    seal_accept(key, &mut frame);
    frame
}

// The Join-Accept before it is sealed, with the channels that it adds.
fn fields(join_nonce: JoinNonce, ask: &JoinAsk) -> SealedAccept
    ensures { result ≡ accept_fields join_nonce ask.now }
{
    let [j0, j1, j2, _] = join_nonce.get().to_le_bytes();
    let [n0, n1, n2, _] = u32::from(ask.net_id.get()).to_le_bytes();
    let [a0, a1, a2, a3] = ask.dev_addr.0.to_le_bytes();
    let rx_delay = ask.rx_delay.get() as u8;
    let mut frame = [0; 33];
    frame[..13].copy_from_slice(&[
        0x20,
        j0,
        j1,
        j2,
        n0,
        n1,
        n2,
        a0,
        a1,
        a2,
        a3,
        ask.dl_settings,
        rx_delay,
    ]);
    frame[13..29].copy_from_slice(&CF_LIST);
    frame
}
