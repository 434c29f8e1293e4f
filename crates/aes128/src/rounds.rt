// One round of the cipher, and its inverse (FIPS 197 §5.1, §5.3).
ghost use Rattle.std.specs.Prelude.{◌≡◌, ◌<◌, ◌+◌, ◌%◌, [], ◌∷◌, ◌++◌, map};
ghost use Rattle.aes128.specs.Cipher.{xor, column, s_box, mixed_column, shifted_column, sub_bytes};
ghost use Rattle.aes128.specs.Cipher.{shift_rows, mix_columns};
ghost use Rattle.aes128.specs.InverseCipher.{inv_s_box, inv_sub_bytes, unshifted_column};
ghost use Rattle.aes128.specs.InverseCipher.{inv_shift_rows, inv_mix_columns};

use crate::columns::unmixed;
use crate::substitution::{mixed_substituted, substituted, unsubstituted};
use crate::sums::xor;

// A column of the state after SubBytes and ShiftRows.
#[inline(always)]
fn shifted_column(state: &[u8; 16], c: usize) -> [u8; 4]
    requires { c < 4 }
    ensures { result ≡ map s_box (shifted_column state.now c) }
{
    [
        substituted(state[4 * c]),
        substituted(state[1 + 4 * ((c + 1) % 4)]),
        substituted(state[2 + 4 * ((c + 2) % 4)]),
        substituted(state[3 + 4 * ((c + 3) % 4)]),
    ]
}

// A column of the state after a round.
#[inline(always)]
fn round_column(state: &[u8; 16], key: &[u8; 16], c: usize) -> [u8; 4]
    requires { c < 4 }
    ensures { result ≡ xor (mixed_column (map s_box (shifted_column state.now c)))
        (column key.now c) }
{
    mixed_substituted(
        state[4 * c],
        state[1 + 4 * ((c + 1) % 4)],
        state[2 + 4 * ((c + 2) % 4)],
        state[3 + 4 * ((c + 3) % 4)],
        u32::from_le_bytes(column_at(key, c)),
    )
}

#[inline(always)]
pub fn joined_columns(a: [u8; 4], b: [u8; 4], c: [u8; 4], d: [u8; 4]) -> [u8; 16]
    ensures { result ≡ column a 0 ++ (column b 0 ++ (column c 0 ++ column d 0)) }
{
    [
        a[0], a[1], a[2], a[3], b[0], b[1], b[2], b[3], c[0], c[1], c[2], c[3], d[0], d[1], d[2],
        d[3],
    ]
}

#[inline(always)]
pub fn round(state: &mut [u8; 16], key: &[u8; 16])
    ensures { state.new ≡ xor (mix_columns (shift_rows (sub_bytes state.old))) key.now }
{
    *state = joined_columns(
        round_column(state, key, 0),
        round_column(state, key, 1),
        round_column(state, key, 2),
        round_column(state, key, 3),
    );
}

#[inline(always)]
pub fn last_round(state: &mut [u8; 16], key: &[u8; 16])
    ensures { state.new ≡ xor (shift_rows (sub_bytes state.old)) key.now }
{
    *state = joined_columns(
        shifted_column(state, 0),
        shifted_column(state, 1),
        shifted_column(state, 2),
        shifted_column(state, 3),
    );
    xor(state, key);
}

// A column of the state after InvShiftRows and InvSubBytes.
#[inline(always)]
fn unshifted_column(state: &[u8; 16], c: usize) -> [u8; 4]
    requires { c < 4 }
    ensures { result ≡ map inv_s_box (unshifted_column state.now c) }
{
    [
        unsubstituted(state[4 * c]),
        unsubstituted(state[1 + 4 * ((c + 3) % 4)]),
        unsubstituted(state[2 + 4 * ((c + 2) % 4)]),
        unsubstituted(state[3 + 4 * ((c + 1) % 4)]),
    ]
}

// InvShiftRows and InvSubBytes.
#[inline(always)]
fn unshift(state: &mut [u8; 16])
    ensures { state.new ≡ inv_sub_bytes (inv_shift_rows state.old) }
{
    *state = joined_columns(
        unshifted_column(state, 0),
        unshifted_column(state, 1),
        unshifted_column(state, 2),
        unshifted_column(state, 3),
    );
}

#[inline(always)]
pub fn column_at(state: &[u8; 16], c: usize) -> [u8; 4]
    requires { c < 4 }
    ensures { result ≡ column state.now c }
{
    [
        state[4 * c],
        state[1 + 4 * c],
        state[2 + 4 * c],
        state[3 + 4 * c],
    ]
}

// InvMixColumns.
#[inline(always)]
fn unmix(state: &mut [u8; 16])
    ensures { state.new ≡ inv_mix_columns state.old }
{
    *state = joined_columns(
        unmixed(column_at(state, 0)),
        unmixed(column_at(state, 1)),
        unmixed(column_at(state, 2)),
        unmixed(column_at(state, 3)),
    );
}

// The inverse of a round.
#[inline(always)]
pub fn unround(state: &mut [u8; 16], key: &[u8; 16])
    ensures { state.new ≡ inv_sub_bytes (inv_shift_rows (inv_mix_columns (xor state.old key.now))) }
{
    xor(state, key);
    unmix(state);
    unshift(state);
}

// The inverse of the last round.
#[inline(always)]
pub fn undo_last_round(state: &mut [u8; 16], key: &[u8; 16])
    ensures { state.new ≡ inv_sub_bytes (inv_shift_rows (xor state.old key.now)) }
{
    xor(state, key);
    unshift(state);
}
