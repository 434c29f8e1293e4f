// Bytes as upper-case hex. No other hex is written or read.
ghost use Rattle.std.specs.Prelude.{◌≡◌, ℕ, ◌⊎◌, List, length, IsTrue, ◌↔◌, IfOk, IfErr, IfSome};
ghost use Rattle.std.specs.Prelude.{MatchResult, Some, Err};
ghost use Rattle.std.specs.Fmt.{WritesOnOk};
ghost use Rattle.std.specs.List.{AllPass};
ghost use Rattle.std.specs.String.{string_bytes};
ghost use Rattle.hex.specs.Hex.{IsBytes};
ghost use Rattle.lw_types.specs.Hex.{hex_text, is_upper_digit, IsHexText, field_text, IsFieldText};
ghost use Rattle.lw_types.specs.declared.refusal.Refusal.TheVariants.{OutOfMemory, BadMessage};

use crate::refusal::Refusal;
use crate::text::FromText;
use hex::FromHex;
use std::alloc::{AllocError, Global};
use std::fmt;

/// Whether each character is a digit: `0` to `9`, or `A` to `F`.
fn is_upper(text: &str) -> bool
    ensures { IsTrue result ↔ AllPass is_upper_digit text.now }
{
    text.as_bytes()
        .iter()
        .all(|digit| matches!(*digit, b'0'..=b'9' | b'A'..=b'F'))
}

/// Whether the text is the hex of some bytes.
fn is_hex(text: &str) -> bool
    ensures { IsTrue result ↔ IsHexText text.now }
{
    text.len() % 2 == 0 && is_upper(text)
}

/// The bytes of a text of twice `N` digits; `None` for any other text.
pub(crate) fn read_array<const N: usize>(text: &str) -> Option<[u8; N]>
    ensures found { IfSome result
        (λ bytes. IsBytes bytes × (length bytes ≡ N) × (text.now ≡ hex_text bytes)) }
    ensures only { (bytes : List ℕ) → IsBytes bytes → length bytes ≡ N → text.now ≡ hex_text bytes
        → result ≡ Some bytes }
{
    if !is_hex(text) {
        return None;
    }
    <[u8; N]>::from_hex(text).ok()
}

/// Writes two digits for each byte, the first byte first.
pub(crate) fn show<W: fmt::Write>(f: &mut fmt::Formatter<W>, bytes: &[u8]) -> fmt::Result
    ensures { WritesOnOk W.write_str_gives f.old result (hex_text bytes.now) f.new }
{
    for byte in bytes {
        write!(f, "{byte:02X}")?;
    }
    Ok(())
}

/// Two digits for each byte, the first byte first.
#[tactic(auto, unfolding(crate::specs::Hex::hex_text))]
pub fn write_hex(alloc: Global, bytes: &[u8]) -> Result<String, AllocError>
    ensures { IfOk result (λ text. string_bytes text ≡ hex_text bytes.now) }
{
    hex::encode_upper(alloc, bytes)
}

/// The bytes whose text this is. Any other text is refused as `BadMessage`, whether or not memory
/// is available.
pub fn read_hex(alloc: Global, text: &str) -> Result<Vec<u8>, Refusal>
    ensures found { IfOk result (λ bytes. text.now ≡ hex_text bytes.items) }
    ensures only { (bytes : List ℕ) → IsBytes bytes → text.now ≡ hex_text bytes
        → MatchResult result (λ found. found.items ≡ bytes) (λ e. e ≡ OutOfMemory) }
    ensures malformed { (result ≡ Err BadMessage) ↔ ¬ (IsHexText text.now) }
    ensures refused { IfErr result (λ e. (e ≡ BadMessage) ⊎ (e ≡ OutOfMemory)) }
{
    if !is_hex(text) {
        return Err(Refusal::BadMessage);
    }
    match hex::decode(alloc, text) {
        Ok(bytes) => Ok(bytes),
        Err(_) => Err(Refusal::OutOfMemory),
    }
}

/// Bytes of a fixed number, shown as two digits each, the first byte first.
#[derive(Clone, Copy, PartialEq, Eq)]
pub struct HexArray<const N: usize>(pub [u8; N]);

impl<const N: usize> fmt::Display for HexArray<N> {
    ghost output = { λ array. Some (hex_text array.0) };

    fn fmt<W: fmt::Write>(&self, f: &mut fmt::Formatter<W>) -> fmt::Result {
        show(f, &self.0)
    }
}

impl<const N: usize> FromText for HexArray<N> {
    ghost use Rattle.std.specs.Prelude.{◌≡◌, length};
    ghost use Rattle.hex.specs.Hex.{IsBytes};
    ghost use Rattle.lw_types.specs.Hex.{hex_text};

    ghost is_value = { λ array. IsBytes array.0 × (length array.0 ≡ N) };

    ghost text_of = { λ array. hex_text array.0 };

    fn from_text(text: &str) -> Option<Self> {
        Some(HexArray(read_array(text)?))
    }
}

/// Bytes as one word of a line: their hex, or `-` if there are none.
#[derive(Clone, Copy)]
pub struct ByteField<'a>(pub &'a [u8]);

impl fmt::Display for ByteField<'_> {
    ghost output = { λ field. Some (field_text field.0.now) };

    #[tactic(auto, unfolding(crate::specs::Hex::field_text))]
    fn fmt<W: fmt::Write>(&self, f: &mut fmt::Formatter<W>) -> fmt::Result {
        if self.0.is_empty() {
            f.write_str("-")
        } else {
            show(f, self.0)
        }
    }
}

/// The bytes whose word in a line this is. Any other text is refused as `BadMessage`, whether or
/// not memory is available.
pub fn read_field(alloc: Global, text: &str) -> Result<Vec<u8>, Refusal>
    ensures found { IfOk result (λ bytes. text.now ≡ field_text bytes.items) }
    ensures only { (bytes : List ℕ) → IsBytes bytes → text.now ≡ field_text bytes
        → MatchResult result (λ found. found.items ≡ bytes) (λ e. e ≡ OutOfMemory) }
    ensures malformed { (result ≡ Err BadMessage) ↔ ¬ (IsFieldText text.now) }
    ensures refused { IfErr result (λ e. (e ≡ BadMessage) ⊎ (e ≡ OutOfMemory)) }
{
    match text {
        "" => Err(Refusal::BadMessage),
        "-" => Ok(Vec::new(alloc)),
        _ => read_hex(alloc, text),
    }
}
