// The outcome of a call that may be refused once because memory ran out.
use lw_types::Refusal;

/// The outcome of a call.
#[derive(Clone, Copy)]
pub enum Attempt {
    /// The answer was right.
    AtOnce,
    /// It was refused because memory ran out, everything was as before, and then the answer was
    /// right.
    Again,
    /// Neither.
    Otherwise,
}

impl Attempt {
    /// Of a call that had an answer: whether it was right.
    pub fn at_once(is_due: bool) -> Self {
        if is_due {
            Attempt::AtOnce
        } else {
            Attempt::Otherwise
        }
    }

    /// Of a call that was refused because memory ran out: whether everything was as before, and
    /// whether the same call then had the right answer.
    pub fn again(is_as_before: bool, is_due: &Result<bool, Refusal>) -> Self {
        match is_due {
            Ok(true) if is_as_before => Attempt::Again,
            _ => Attempt::Otherwise,
        }
    }

    /// The words of a line.
    pub fn words(self) -> &'static str {
        match self {
            Attempt::AtOnce => "as due",
            Attempt::Again => "refused 30, as before, then as due",
            Attempt::Otherwise => "otherwise",
        }
    }
}
