//! Laws of frames and their bytes. Each is the contract of a function that does nothing.
ghost use Rattle.std.specs.Prelude.{◌≡◌, ◌∷◌, ◌-◌, ◌≤◌, [], List, ℕ, drop, length, take};
ghost use Rattle.std.specs.Int.{from_le_bytes, w16, w64};
ghost use Rattle.lw_types.specs.Hex.{IsBytes};
ghost use Rattle.phy_payload.specs.declared.phy.Phy.{Phy};
ghost use Rattle.phy_payload.specs.declared.data_frame.DataFrame.{DataFrame};
ghost use Rattle.phy_payload.specs.declared.join.JoinRequest.{JoinRequest};
ghost use Rattle.phy_payload.specs.Frame.{data_mic_input, request_mic_input, spelling, FitsPhy};
ghost use Rattle.phy_payload.specs.Frame.{IsPhy};
ghost use Rattle.phy_payload.specs.Reading.{phy_at};

use crate::contents::LONGEST_F_OPTS;
use crate::{DataFrame, DataFrameRef};

/// No frame has two spellings.
pub fn each_frame_has_one_spelling()
    ensures { (a : List ℕ) (b : List ℕ) (frame : Phy) → IsPhy a frame → IsPhy b frame → a ≡ b }
{}

/// No two frames share a spelling.
pub fn each_spelling_is_of_one_frame()
    ensures { (bytes : List ℕ) (a : Phy) (b : Phy) → IsPhy bytes a → IsPhy bytes b → a ≡ b }
{}

/// A frame has 12 to 255 bytes.
pub fn frames_are_short()
    ensures least { (bytes : List ℕ) (frame : Phy) → IsPhy bytes frame → 12 ≤ length bytes }
    ensures most { (bytes : List ℕ) (frame : Phy) → IsPhy bytes frame → length bytes ≤ 255 }
{}

/// The message over which a data frame's MIC is made has at most 251 bytes.
#[tactic(auto, using(crate::proofs::Lengths::message_len))]
pub fn mic_inputs_are_short(frame: &DataFrame)
    ensures { length (data_mic_input frame.now) ≤ 251 }
{
    let _ = frame.contents.port_payload();
}

/// The same for a data frame that refers to the bytes it was read from.
#[tactic(auto, using(crate::proofs::Lengths::message_len))]
pub fn read_mic_inputs_are_short(frame: &DataFrameRef<'_>)
    ensures { length (data_mic_input frame.now) ≤ 251 }
{
    let _ = frame.port_payload();
}

/// The last four bytes of a data frame or of a Join-Request are its MIC. The bytes before them are
/// the message over which the MIC is made.
pub fn a_mic_stands_behind_its_input()
    ensures requests { (bytes : List ℕ) (r : JoinRequest) → IsPhy bytes (Phy.JoinRequest r)
        → (take (length bytes - 4) bytes ≡ request_mic_input r)
        × (drop (length bytes - 4) bytes ≡ r.mic.0) }
    ensures data_frames { (bytes : List ℕ) (d : DataFrame) → IsPhy bytes (Phy.DataFrame d)
        → (take (length bytes - 4) bytes ≡ data_mic_input d)
        × (drop (length bytes - 4) bytes ≡ d.mic.0) }
{}

/// Reading from left to right gives a frame exactly if the bytes are that frame.
pub fn reading_is_the_grammar()
    ensures read { (bytes : List ℕ) (frame : Phy) → IsBytes bytes → phy_at bytes ≡ Ok frame
        → IsPhy bytes frame }
    ensures spelled { (bytes : List ℕ) (frame : Phy) → IsPhy bytes frame → phy_at bytes ≡ Ok frame }
{}

/// The Join-Requests are the strings of 23 bytes whose MHDR is 0. Their fields are JoinEUI (8),
/// DevEUI (8), DevNonce (2) and MIC (4), low bytes first (TS001-1.0.4 §4.2, §6.2.5).
pub fn a_join_request_has_23_bytes()
    ensures shape { (bytes : List ℕ) (r : JoinRequest) → IsPhy bytes (Phy.JoinRequest r)
        → (length bytes ≡ 23) × (take 1 bytes ≡ 0 ∷ []) }
    ensures fields { (bytes : List ℕ) (r : JoinRequest) → IsPhy bytes (Phy.JoinRequest r)
        → (r.join_eui.0 ≡ from_le_bytes w64 (take 8 (drop 1 bytes)))
        × (r.dev_eui.0 ≡ from_le_bytes w64 (take 8 (drop 9 bytes)))
        × (r.dev_nonce ≡ from_le_bytes w16 (take 2 (drop 17 bytes)))
        × (r.mic.0 ≡ drop 19 bytes) }
    ensures each { (bytes : List ℕ) → IsBytes bytes → length bytes ≡ 23 → take 1 bytes ≡ 0 ∷ []
        → (r : JoinRequest) × IsPhy bytes (Phy.JoinRequest r) }
{}

/// The most bytes of FOpts.
pub fn limits_are_these()
    ensures { LONGEST_F_OPTS ≡ 15 }
{}
