// Reading answers.
ghost use Rattle.std.specs.Prelude.{◌≡◌, ◌≢◌, ◌⊎◌, ◌<◌, ◌^◌, ℕ, List, codes, [], Ok, Err, Some};
ghost use Rattle.std.specs.Prelude.{IfOk, IfErr, IfSome, MatchOption};
ghost use Rattle.serde_json.specs.Data.{Members, member, no_members, number, string, unsigned};
ghost use Rattle.serde_json.specs.View.{members_view, view};
ghost use Rattle.lw_types.specs.Hex.{eui_text, hex_text, net_id_text};
ghost use Rattle.lw_types.specs.Values.{IsKey};
ghost use Rattle.lw_types.specs.declared.key.Key.{Key};
ghost use Rattle.lw_types.specs.declared.identifiers.Eui.{Eui};
ghost use Rattle.lw_types.specs.declared.refusal.Refusal.TheVariants.{OutOfMemory, BadMessage};
ghost use Rattle.backend_json.specs.declared.join_ans.Accepted.{Accepted};
ghost use Rattle.backend_json.specs.declared.join_ans.Cause.{Cause};
ghost use Rattle.backend_json.specs.declared.join_ans.JoinAns.{JoinAns};
ghost use Rattle.backend_json.specs.Answers.{IsAns, IsJoinAns, IsSealed, aes_key, code_of};
ghost use Rattle.backend_json.specs.Answers.{description_of, join_ans, result_object};

use crate::json::read_value;
use crate::members::Rest;
use crate::{Accepted, Cause, JoinAns};
use join_server::SealedAccept;
use lw_types::{Eui, HexArray, Key, NetId, Refusal};
use serde_json::Value;
use std::alloc::Global;

/// The answer of a text. Any text that is no answer is refused as `BadMessage`, by the rules of
/// [`crate::read_join_req`].
pub fn read_join_ans(alloc: Global, text: &str) -> Result<JoinAns, Refusal>
    ensures found { IfOk result (λ ans. IsAns ans × IsJoinAns text.now ans) }
    ensures refused { IfErr result (λ e. (e ≡ OutOfMemory)
        ⊎ ((e ≡ BadMessage) × ((ans : JoinAns) → IsAns ans → ¬ (IsJoinAns text.now ans)))) }
{
    ans_of(&read_value(alloc, text)?).ok_or(Refusal::BadMessage)
}

fn ans_of(value: &Value) -> Option<JoinAns>
    ensures { MatchOption result ((ans : JoinAns) → IsAns ans → view value.now ≢ join_ans ans)
        (λ ans. IsAns ans × (view value.now ≡ join_ans ans)) }
{
    match granted_of(value) {
        Some(ans) => Some(ans),
        None => refused_of(value),
    }
}

// The answer of the value, if it grants a session.
fn granted_of(value: &Value) -> Option<JoinAns>
    ensures { MatchOption result
        ((ans : JoinAns) (accepted : Accepted) → IsAns ans → ans.result ≡ Ok accepted
        → view value.now ≢ join_ans ans)
        (λ ans. IsAns ans × (view value.now ≡ join_ans ans)) }
{
    let mut rest = Rest::of(value)?;
    let app_skey = key_of(&mut rest, "AppSKey")?;
    rest.text("MessageType", "JoinAns")?;
    let nwk_skey = key_of(&mut rest, "NwkSKey")?;
    let accept = accept_of(&mut rest)?;
    let receiver = receiver_of(&mut rest)?;
    success_of(&mut rest)?;
    let (sender, transaction) = rest.sender()?;
    let accepted = Accepted {
        app_skey,
        nwk_skey,
        accept,
    };
    Some(JoinAns {
        receiver,
        sender,
        result: Ok(accepted),
        transaction,
    })
}

// The answer of the value, if it refuses a join.
fn refused_of(value: &Value) -> Option<JoinAns>
    ensures { MatchOption result
        ((ans : JoinAns) (cause : Cause) → IsAns ans → ans.result ≡ Err cause
        → view value.now ≢ join_ans ans)
        (λ ans. IsAns ans × (view value.now ≡ join_ans ans)) }
{
    let mut rest = Rest::of(value)?;
    rest.text("MessageType", "JoinAns")?;
    let receiver = receiver_of(&mut rest)?;
    let cause = cause_of(&mut rest)?;
    let (sender, transaction) = rest.sender()?;
    Some(JoinAns {
        receiver,
        sender,
        result: Err(cause),
        transaction,
    })
}

// The key in the next member, if it has this name.
fn key_of(rest: &mut Rest<'_>, name: &str) -> Option<Key>
    ensures found { IfSome result (λ key. IsKey key
        × (members_view rest.old.members
        ≡ member name.now (aes_key key) (members_view rest.new.members))) }
    ensures only { (key : Key) (others : Members) → IsKey key
        → members_view rest.old.members ≡ member name.now (aes_key key) others → result ≡ Some key }
{
    let mut inner = rest.object(name)?;
    let key = inner.value("AESKey")?;
    inner.end()?;
    Some(key)
}

// The accept.
fn accept_of(rest: &mut Rest<'_>) -> Option<SealedAccept>
    ensures found { IfSome result (λ accept. IsSealed accept × (members_view rest.old.members
        ≡ member (codes "PHYPayload") (string (hex_text accept)) (members_view rest.new.members))) }
    ensures only { (accept : List ℕ) (others : Members) → IsSealed accept
        → members_view rest.old.members
        ≡ member (codes "PHYPayload") (string (hex_text accept)) others → result ≡ Some accept }
{
    let HexArray(accept): HexArray<33> = rest.value("PHYPayload")?;
    Some(accept)
}

// ProtocolVersion and ReceiverID.
fn receiver_of(rest: &mut Rest<'_>) -> Option<NetId>
    ensures found { IfSome result (λ receiver. members_view rest.old.members
        ≡ member (codes "ProtocolVersion") (string (codes "1.0"))
        (member (codes "ReceiverID") (string (net_id_text receiver))
        (members_view rest.new.members))) }
    ensures only { (receiver : ℕ) (others : Members) → receiver < 64 → members_view rest.old.members
        ≡ member (codes "ProtocolVersion") (string (codes "1.0"))
        (member (codes "ReceiverID") (string (net_id_text receiver)) others)
        → result ≡ Some receiver }
{
    rest.text("ProtocolVersion", "1.0")?;
    rest.value("ReceiverID")
}

// Succeeds if the Result is Success.
fn success_of(rest: &mut Rest<'_>) -> Option<()>
    ensures { MatchOption result
        ((others : Members) → members_view rest.old.members
        ≢ member (codes "Result") (result_object (codes "Success") []) others)
        (λ _. members_view rest.old.members
        ≡ member (codes "Result") (result_object (codes "Success") [])
        (members_view rest.new.members)) }
{
    let mut inner = rest.object("Result")?;
    inner.text("Description", "")?;
    inner.text("ResultCode", "Success")?;
    inner.end()
}

// The cause in the Result.
fn cause_of(rest: &mut Rest<'_>) -> Option<Cause>
    ensures { MatchOption result
        ((cause : Cause) (others : Members) → members_view rest.old.members
        ≢ member (codes "Result") (result_object (code_of cause) (description_of cause)) others)
        (λ cause. members_view rest.old.members
        ≡ member (codes "Result") (result_object (code_of cause) (description_of cause))
        (members_view rest.new.members)) }
{
    let mut inner = rest.object("Result")?;
    let cause = Cause::described(inner.any_text("Description")?)?;
    inner.text("ResultCode", cause.code())?;
    inner.end()?;
    Some(cause)
}
