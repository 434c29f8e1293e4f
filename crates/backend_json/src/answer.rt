// The join server, asked by texts.
ghost use Rattle.std.specs.Prelude.{◌≡◌, string_bytes, MatchResult};
ghost use Rattle.serde_json.specs.Written.{compact_text};
ghost use Rattle.lw_types.specs.declared.refusal.Refusal.TheVariants.{OutOfMemory};
ghost use Rattle.backend_json.specs.declared.join_ans.JoinAns.{JoinAns};
ghost use Rattle.backend_json.specs.Answers.{IsAns, IsJoinAns, join_ans};
ghost use Rattle.backend_json.specs.Replies.{IsReply, ans_to, cause_of, bad_message_reply, reply};

use crate::{Accepted, Cause, JoinAns, join_ans_text, read_join_req};
use join_server::{JoinAsk, JoinState, answer};
use lw_types::{NetId, Refusal};
use std::alloc::Global;

/// Answers a text from a network, for the device of the state. Returns the text of the answer and,
/// after a granted join, the device's new state. Every text is answered. A refusal gives the first
/// cause that applies: the text is no question, the question is about another device, and then the
/// causes of [`answer`]. The only refusal of this call is `OutOfMemory`.
pub fn answer_text(
    alloc: Global,
    state: &JoinState,
    text: &str,
) -> Result<(String, Option<JoinState>), Refusal>
    ensures { MatchResult result
        (λ found. (ans : JoinAns) × IsAns ans × IsReply state.now text.now (ans, found.1)
        × (string_bytes found.0 ≡ compact_text (join_ans ans))
        × IsJoinAns (string_bytes found.0) ans)
        (λ e. e ≡ OutOfMemory) }
{
    let (ans, after) = reply_to(alloc, state, text)?;
    answer_in_range(ans);
    Ok((join_ans_text(alloc, &ans)?, after))
}

// The reply to a text.
fn reply_to(
    alloc: Global,
    state: &JoinState,
    text: &str,
) -> Result<(JoinAns, Option<JoinState>), Refusal>
    ensures { MatchResult result (IsReply state.now text.now) (λ e. e ≡ OutOfMemory) }
{
    match read_join_req(alloc, text) {
        Ok(ask) => Ok(reply(state, &ask)),
        Err(refusal) => match refusal {
            Refusal::OutOfMemory => Err(Refusal::OutOfMemory),
            _ => Ok(no_question(state)),
        },
    }
}

// The reply to a question.
fn reply(state: &JoinState, ask: &JoinAsk) -> (JoinAns, Option<JoinState>)
    ensures { result ≡ reply state.now ask.now }
{
    if ask.request.dev_eui() != state.dev_eui {
        return (ans_to(ask, Err(Cause::UnknownDevEui)), None);
    }
    match answer(state, ask) {
        Ok((after, grant)) => {
            let accept = grant.accept;
            let accepted = Accepted {
                app_skey: grant.app_skey,
                nwk_skey: grant.nwk_skey,
                accept,
            };
            (ans_to(ask, Ok(accepted)), Some(after))
        }
        Err(refusal) => (ans_to(ask, Err(cause_of(refusal))), None),
    }
}

fn ans_to(ask: &JoinAsk, answer: Result<Accepted, Cause>) -> JoinAns
    ensures { result ≡ ans_to ask.now answer }
{
    JoinAns {
        receiver: ask.net_id,
        sender: ask.request.join_eui(),
        result: answer,
        transaction: ask.transaction,
    }
}

fn cause_of(refusal: Refusal) -> Cause
    ensures { result ≡ cause_of refusal }
{
    match refusal {
        Refusal::WrongJoinEui => Cause::WrongJoinEui,
        Refusal::BadMic => Cause::BadMic,
        Refusal::DevNonceUsed => Cause::DevNonceUsed,
        Refusal::JoinNonceSpent => Cause::JoinNonceSpent,
        _ => Cause::BadMessage,
    }
}

fn no_question(state: &JoinState) -> (JoinAns, Option<JoinState>)
    ensures { result ≡ bad_message_reply state.now }
{
    let ans = JoinAns {
        receiver: NetId::zero(),
        sender: state.join_eui,
        result: Err(Cause::BadMessage),
        transaction: 0,
    };
    (ans, None)
}

// What holds of an answer by its types.
fn answer_in_range(_ans: JoinAns)
    ensures { IsAns _ans }
{}
