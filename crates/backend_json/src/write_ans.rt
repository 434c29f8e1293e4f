// Writing answers.
ghost use Rattle.std.specs.Prelude.{◌≡◌, codes, string_bytes, IfOk, Ok, MatchResult};
ghost use Rattle.serde_json.specs.Data.{Members, string, number, object as object_value, member};
ghost use Rattle.serde_json.specs.Data.{no_members, unsigned, put as with_member};
ghost use Rattle.serde_json.specs.Written.{compact_text};
ghost use Rattle.serde_json.specs.View.{view};
ghost use Rattle.lw_types.specs.Hex.{eui_text, key_text, net_id_text};
ghost use Rattle.lw_types.specs.declared.refusal.Refusal.TheVariants.{OutOfMemory};
ghost use Rattle.backend_json.specs.Answers.{IsJoinAns, join_ans, members_before};
ghost use Rattle.backend_json.specs.Writing.{HoldsMembers};

use crate::json::Object;
use crate::{Accepted, JoinAns};
use lw_types::{HexArray, Key, Refusal};
use serde_json::Value;
use std::alloc::{AllocError, Global};

/// The text of an answer: compact JSON, its members in the byte order of their names.
pub fn join_ans_text(alloc: Global, ans: &JoinAns) -> Result<String, Refusal>
    ensures { MatchResult result
        (λ text. (string_bytes text ≡ compact_text (join_ans ans.now))
        × IsJoinAns (string_bytes text) ans.now)
        (λ e. e ≡ OutOfMemory) }
{
    Ok(answer_value(alloc, ans)?.to_string(alloc)?)
}

// The value of an answer.
fn answer_value(alloc: Global, ans: &JoinAns) -> Result<Value, AllocError>
    ensures { IfOk result (λ value. view value ≡ join_ans ans.now) }
{
    match &ans.result {
        Ok(accepted) => {
            let opening = opening_of(alloc, accepted);
            let outcome = outcome(alloc, "Success", "");
            closed(opening, ans, outcome).whole()
        }
        Err(cause) => {
            let opening = Object::new(alloc).text("MessageType", "JoinAns");
            let outcome = outcome(alloc, cause.code(), cause.description());
            closed(opening, ans, outcome).whole()
        }
    }
}

// The members before ProtocolVersion, for an answer that grants a session.
fn opening_of(alloc: Global, accepted: &Accepted) -> Object
    ensures { HoldsMembers result (members_before (Ok accepted.now) no_members) }
{
    Object::new(alloc)
        .object("AppSKey", key_object(alloc, accepted.app_skey))
        .text("MessageType", "JoinAns")
        .object("NwkSKey", key_object(alloc, accepted.nwk_skey))
        .text("PHYPayload", HexArray(accepted.accept))
}

fn key_object(alloc: Global, key: Key) -> Object
    ensures { HoldsMembers result (member (codes "AESKey") (string (key_text key)) no_members) }
{
    Object::new(alloc).text("AESKey", HexArray(key.0))
}

// The Result.
fn outcome(alloc: Global, code: &str, description: &str) -> Object
    ensures { HoldsMembers result (member (codes "Description") (string description.now)
        (member (codes "ResultCode") (string code.now) no_members)) }
{
    Object::new(alloc)
        .text("Description", description)
        .text("ResultCode", code)
}

// Puts the members from ProtocolVersion on, with this Result.
fn closed(object: Object, ans: &JoinAns, outcome: Object) -> Object
    ensures { (members result_members : Members) → HoldsMembers object members
        → HoldsMembers outcome result_members → HoldsMembers result
        (with_member (codes "TransactionID") (number (unsigned ans.now.transaction))
        (with_member (codes "SenderID") (string (eui_text ans.now.sender))
        (with_member (codes "Result") (object_value result_members)
        (with_member (codes "ReceiverID") (string (net_id_text ans.now.receiver))
        (with_member (codes "ProtocolVersion") (string (codes "1.0")) members))))) }
{
    object
        .text("ProtocolVersion", "1.0")
        .text("ReceiverID", ans.receiver)
        .object("Result", outcome)
        .text("SenderID", ans.sender)
        .number("TransactionID", u64::from(ans.transaction))
}
