//! The law of the texts. It is the contract of a function that does nothing.
ghost use Rattle.std.specs.Prelude.{◌≡◌, ℕ, List};
ghost use Rattle.join_server.specs.declared.ask.JoinAsk.{JoinAsk};
ghost use Rattle.backend_json.specs.declared.join_ans.JoinAns.{JoinAns};
ghost use Rattle.backend_json.specs.Answers.{IsAns, IsJoinAns};
ghost use Rattle.backend_json.specs.Messages.{IsAsk, IsJoinReq};

/// No text is of two questions, and no text is of two answers. So reading a text that was written
/// gives what was written.
pub fn each_text_is_of_one_message()
    ensures questions { (text : List ℕ) (a b : JoinAsk) → IsAsk a → IsAsk b → IsJoinReq text a
        → IsJoinReq text b → a ≡ b }
    ensures answers { (text : List ℕ) (a b : JoinAns) → IsAns a → IsAns b → IsJoinAns text a
        → IsJoinAns text b → a ≡ b }
{
    lw_types::laws::each_text_is_of_one_value();
}
