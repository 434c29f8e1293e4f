// Lines to applications, as frames of the wire.
ghost use Rattle.std.specs.Prelude.{◌≡◌, ◌≤◌, ◌∷◌, [], codes, length, IfOk, IsOk};
ghost use Rattle.std.specs.Fmt.{decimal};
ghost use Rattle.lw_types.specs.Words.{line_of};
ghost use Rattle.lw_types.specs.Answer.{Answers};
ghost use Rattle.gateway_wire.specs.Answer.{answer_frame, answer_head, refused_line};
ghost use Rattle.gateway_wire.specs.Answer.{short_answer_frame};
ghost use Rattle.gateway_wire.specs.Put.{IsPut};

use link_messages::Line;
use lw_types::{Bytes, Refusal};
use std::alloc::{AllocError, Global};

/// The first byte of the content of an answer to an application.
pub const ANSWER: u8 = 0x13;

/// The most bytes of an answer's line: its frame has a content of at most 700.
pub const LONGEST_ANSWER: usize = 699;

// The number of bytes before the line: those of the length, and the first of the content.
const HEAD: usize = 2 + 1;

/// The most bytes of a frame of the wire for an application.
pub const LONGEST_ANSWER_FRAME: usize = HEAD + LONGEST_ANSWER;

/// A frame of the wire for an application. The two bytes of its length come first.
pub type AnswerFrame = Bytes<LONGEST_ANSWER_FRAME>;

/// The whole frame that sends this line to an application. Refused with `FrameTooLong` exactly if
/// the line has more than 699 bytes, otherwise with `OutOfMemory` if memory runs out.
pub fn answer_frame(alloc: Global, line: &Line) -> Result<AnswerFrame, Refusal>
    ensures { Answers (short_answer_frame line.now) (λ wanted frame. frame ≡ wanted) result }
{
    let text = line.as_str().as_bytes();
    if text.len() > LONGEST_ANSWER {
        return Err(Refusal::FrameTooLong);
    }
    let mut bytes = Vec::new(alloc);
    put_answer(text, &mut bytes)?;
    let frame: Result<_, _> = AnswerFrame::new(bytes);
    Ok(frame.unwrap())
}

/// Appends the frame of the answer to a refused request, which is `refused N` with the refusal's
/// number. If memory runs out, the bytes that were there stay, and others may come after them.
pub fn put_refusal(alloc: Global, refusal: Refusal, bytes: &mut Vec<u8>) -> Result<(), AllocError>
    ensures put { IsPut (answer_frame (refused_line refusal)) bytes.old.items result
        bytes.new.items }
    ensures short { IsOk result → length (refused_line refusal) ≤ LONGEST_ANSWER }
{
    let line = line_of_number(alloc, refusal.number())?;
    put_answer(line.as_str().as_bytes(), bytes)
}

/// Appends the frame that sends this line to an application.
pub(crate) fn put_answer(line: &[u8], bytes: &mut Vec<u8>) -> Result<(), AllocError>
    requires { length line.now ≤ LONGEST_ANSWER }
    ensures { IsPut (answer_frame line.now) bytes.old.items result bytes.new.items }
{
    put_answer_head(line.len(), bytes)?;
    bytes.extend_from_slice(line)
}

/// Appends what comes before a line of `len` bytes in its frame, and reserves room for the line
/// too.
pub(crate) fn put_answer_head(len: usize, bytes: &mut Vec<u8>) -> Result<(), AllocError>
    requires { len ≤ LONGEST_ANSWER }
    ensures { IsPut (answer_head len) bytes.old.items result bytes.new.items }
{
    bytes.reserve(HEAD + len)?;
    bytes.extend_from_slice(&(1 + len as u16).to_be_bytes())?;
    bytes.push(ANSWER)?;
    Ok(())
}

// The line with the number of a refusal.
#[tactic(auto, unfolding(lw_types::specs::Words::line_of))]
fn line_of_number(alloc: Global, number: u8) -> Result<Line, AllocError>
    ensures line { IfOk result (λ line. line ≡ line_of (codes "refused" ∷ decimal number ∷ [])) }
    ensures short { IfOk result (λ line. length line ≤ LONGEST_ANSWER) }
{
    let text = format!(in alloc; "refused {number}")?;
    Ok(Line::new(text))
}
