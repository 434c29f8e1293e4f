// The answer of a join server: a granted session, or why it isn't granted.
ghost use Rattle.std.specs.Prelude.{◌≡◌, IfSome, Some};
ghost use Rattle.backend_json.specs.declared.join_ans.Cause.{Cause};
ghost use Rattle.backend_json.specs.Answers.{code_of, description_of};

use join_server::SealedAccept;
use lw_types::{Eui, Key, NetId};

/// A granted session: its keys, and the accept for the device.
#[derive(Clone, Copy, PartialEq, Eq)]
pub struct Accepted {
    pub app_skey: Key,
    pub nwk_skey: Key,
    pub accept: SealedAccept,
}

/// Why a join isn't granted.
#[derive(Clone, Copy, PartialEq, Eq)]
pub enum Cause {
    /// The join server doesn't know the device.
    UnknownDevEui,
    /// The device asks another join server.
    WrongJoinEui,
    /// The Join-Request's MIC is wrong for its bytes.
    BadMic,
    /// The DevNonce isn't above the last one.
    DevNonceUsed,
    /// The device was granted its last JoinNonce.
    JoinNonceSpent,
    /// The text is no question.
    BadMessage,
}

impl Cause {
    /// The ResultCode.
    pub fn code(self) -> &'static str
        ensures { result.now ≡ code_of self }
    {
        match self {
            Cause::UnknownDevEui => "UnknownDevEUI",
            Cause::WrongJoinEui | Cause::DevNonceUsed | Cause::JoinNonceSpent => "JoinReqFailed",
            Cause::BadMic => "MICFailed",
            Cause::BadMessage => "Other",
        }
    }

    /// The Description, which is different for each cause.
    pub fn description(self) -> &'static str
        ensures { result.now ≡ description_of self }
    {
        match self {
            Cause::UnknownDevEui => "unknown device",
            Cause::WrongJoinEui => "wrong join eui",
            Cause::BadMic => "bad mic",
            Cause::DevNonceUsed => "dev nonce used",
            Cause::JoinNonceSpent => "join nonce spent",
            Cause::BadMessage => "bad message",
        }
    }

    /// The cause of this Description.
    pub(crate) fn described(description: &str) -> Option<Self>
        ensures found { IfSome result (λ cause. description.now ≡ description_of cause) }
        ensures only { (cause : Cause) → description.now ≡ description_of cause
            → result ≡ Some cause }
    {
        match description {
            "unknown device" => Some(Cause::UnknownDevEui),
            "wrong join eui" => Some(Cause::WrongJoinEui),
            "bad mic" => Some(Cause::BadMic),
            "dev nonce used" => Some(Cause::DevNonceUsed),
            "join nonce spent" => Some(Cause::JoinNonceSpent),
            "bad message" => Some(Cause::BadMessage),
            _ => None,
        }
    }
}

/// An answer, from a join server to a network.
#[derive(Clone, Copy, PartialEq, Eq)]
pub struct JoinAns {
    pub receiver: NetId,
    pub sender: Eui,
    pub result: Result<Accepted, Cause>,
    /// The number of the question.
    pub transaction: u32,
}
