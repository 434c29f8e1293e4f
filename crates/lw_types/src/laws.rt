//! Laws of texts, for crates that write and read lines of them, and the bounds of the types.
ghost use Rattle.std.specs.Prelude.{◌≡◌, ◌<◌, ◌≤◌, ◌^◌, FitsSigned, List, MatchResult, ℕ, ℤ};
ghost use Rattle.std.specs.Prelude.{length};
ghost use Rattle.std.specs.Fmt.{decimal, signed_decimal};
ghost use Rattle.std.specs.Int.{w16};
ghost use Rattle.hex.specs.Hex.{IsBytes};
ghost use Rattle.lw_types.specs.declared.identifiers.DevAddr.{DevAddr};
ghost use Rattle.lw_types.specs.declared.identifiers.Eui.{Eui};
ghost use Rattle.lw_types.specs.declared.key.Key.{Key};
ghost use Rattle.lw_types.specs.Hex.{dev_addr_text, eui_text, field_text, hex_text, key_text};
ghost use Rattle.lw_types.specs.Hex.{net_id_text};
ghost use Rattle.lw_types.specs.Words.{line_of, words_of, AreWords, IsWord};

use crate::payload::{LONGEST_FRAME, LONGEST_PAYLOAD, Payload, PhyPayload};

/// No two values share a text.
pub fn each_text_is_of_one_value()
    ensures hex { (a : List ℕ) (b : List ℕ) → IsBytes a → IsBytes b → hex_text a ≡ hex_text b
        → a ≡ b }
    ensures fields { (a : List ℕ) (b : List ℕ) → IsBytes a → IsBytes b → field_text a ≡ field_text b
        → a ≡ b }
    ensures euis { (a : Eui) (b : Eui) → a.0 < 2 ^ 64 → b.0 < 2 ^ 64 → eui_text a ≡ eui_text b
        → a ≡ b }
    ensures addresses { (a : DevAddr) (b : DevAddr) → a.0 < 2 ^ 32 → b.0 < 2 ^ 32
        → dev_addr_text a ≡ dev_addr_text b → a ≡ b }
    ensures networks { (a : ℕ) (b : ℕ) → a < 64 → b < 64 → net_id_text a ≡ net_id_text b → a ≡ b }
    ensures keys { (a : Key) (b : Key) → IsBytes a.0 → IsBytes b.0 → key_text a ≡ key_text b
        → a ≡ b }
    ensures decimals { (a : ℕ) (b : ℕ) → a < 2 ^ 64 → b < 2 ^ 64 → decimal a ≡ decimal b → a ≡ b }
    ensures signed { (a : ℤ) (b : ℤ) → FitsSigned w16 a → FitsSigned w16 b
        → signed_decimal a ≡ signed_decimal b → a ≡ b }
{}

/// No text has a space, so each is one word of a line.
pub fn each_text_is_a_word()
    ensures hex { (bytes : List ℕ) → IsBytes bytes → IsWord (hex_text bytes) }
    ensures fields { (bytes : List ℕ) → IsBytes bytes → IsWord (field_text bytes) }
    ensures euis { (eui : Eui) → IsWord (eui_text eui) }
    ensures addresses { (address : DevAddr) → IsWord (dev_addr_text address) }
    ensures networks { (network : ℕ) → network < 64 → IsWord (net_id_text network) }
    ensures keys { (key : Key) → IsBytes key.0 → IsWord (key_text key) }
    ensures decimals { (n : ℕ) → n < 2 ^ 64 → IsWord (decimal n) }
    ensures signed { (z : ℤ) → FitsSigned w16 z → IsWord (signed_decimal z) }
{}

/// A line is its words: joining a line's words gives the line again, and splitting a joined line
/// gives its words.
pub fn a_line_is_its_words()
    ensures line { (line : List ℕ) → line_of (words_of line) ≡ line }
    ensures words { (words : List (List ℕ)) → AreWords words → words_of (line_of words) ≡ words }
{}

/// A list of bytes is a frame exactly if it has at most 255 bytes.
pub fn frames_have_at_most_255_bytes(bytes: Vec<u8>) -> Result<PhyPayload, Vec<u8>>
    ensures { MatchResult result (λ _. length bytes.items ≤ 255) (λ _. 255 < length bytes.items) }
{
    PhyPayload::new(bytes)
}

/// A list of bytes is a payload exactly if it has at most 242 bytes.
pub fn payloads_have_at_most_242_bytes(bytes: Vec<u8>) -> Result<Payload, Vec<u8>>
    ensures { MatchResult result (λ _. length bytes.items ≤ 242) (λ _. 242 < length bytes.items) }
{
    Payload::new(bytes)
}

/// The most bytes of a frame, and of a frame's payload.
pub fn limits_are_these()
    ensures frame { LONGEST_FRAME ≡ 255 }
    ensures payload { LONGEST_PAYLOAD ≡ 242 }
{}
