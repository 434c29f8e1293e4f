//! Laws of the frames' cryptography. The functions do nothing: their contracts are the laws.
ghost use Rattle.std.specs.Prelude.{◌≡◌, ◌<◌, ◌^◌, ℕ, List, All, length};
ghost use Rattle.aes128.specs.Cipher.{IsBlock};
ghost use Rattle.lw_types.specs.declared.direction.Direction.{Direction};
ghost use Rattle.frame_crypt.specs.Frames.{crypted_payload};
ghost use Rattle.frame_crypt.specs.Joins.{IsAccept, opened_accept, sealed_accept, with_mic};

/// The device opens a sealed Join-Accept to the frame with its MIC, and opens no other frame to
/// that.
pub fn a_sealed_accept_is_opened()
    ensures opened { (key frame : List ℕ) → IsBlock key → IsAccept frame
        → opened_accept key (sealed_accept key frame) ≡ with_mic key frame }
    ensures only { (key frame other : List ℕ) → IsBlock key → IsAccept other
        → opened_accept key other ≡ with_mic key frame → other ≡ sealed_accept key frame }
{
    aes128::laws::encryption_gives_a_block();
    aes128::laws::decryption_gives_a_block();
    aes128::laws::decryption_undoes_encryption();
}

/// An encrypted payload has the same number of bytes.
pub fn a_crypted_payload_has_the_length()
    ensures length { (key : List ℕ) (dir : Direction) (addr counter : ℕ) (payload : List ℕ)
        → length (crypted_payload key dir addr counter payload) ≡ length payload }
    ensures bytes { (key : List ℕ) (dir : Direction) (addr counter : ℕ) (payload : List ℕ)
        → IsBlock key
        → All (λ byte. byte < 2 ^ 8) payload
        → All (λ byte. byte < 2 ^ 8) (crypted_payload key dir addr counter payload) }
{
    aes128::laws::encryption_gives_a_block();
}

/// Encrypting a payload twice gives it back, so decryption is the same operation.
pub fn crypting_twice_gives_the_payload()
    ensures { (key : List ℕ) (dir : Direction) (addr counter : ℕ) (payload : List ℕ)
        → crypted_payload key dir addr counter (crypted_payload key dir addr counter payload)
        ≡ payload }
{}
