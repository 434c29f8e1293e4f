// Payloads as words of a line.
ghost use Rattle.std.specs.Prelude.{◌≡◌, ◌<◌, length, slice_index};
ghost use Rattle.hex.specs.Hex.{upper_digits};
ghost use Rattle.lw_types.specs.Hex.{field_text};
ghost use Rattle.gateway_wire.specs.Put.{IsPut};

use std::alloc::AllocError;

const DIGITS: &[u8; 16] = b"0123456789ABCDEF";

/// The number of characters of the word for these bytes.
#[tactic(auto, using(crate::proofs::LineLengths::length_of_field))]
pub(crate) fn field_len(field: &[u8]) -> usize
    ensures { result ≡ length (field_text field.now) }
{
    (2 * field.len()).max(1)
}

/// Appends the word for these bytes: two upper-case digits for each byte, or `-` for no bytes.
#[tactic(auto, unfolding(lw_types::specs::Hex::field_text))]
pub(crate) fn put_field(field: &[u8], bytes: &mut Vec<u8>) -> Result<(), AllocError>
    ensures { IsPut (field_text field.now) bytes.old.items result bytes.new.items }
{
    if field.is_empty() {
        bytes.push(b'-')?;
        return Ok(());
    }
    for byte in field {
        bytes.extend_from_slice(&[digit(byte / 16), digit(byte % 16)])?;
    }
    Ok(())
}

// The digit of a number below 16.
fn digit(value: u8) -> u8
    requires { value < 16 }
    ensures { result ≡ slice_index upper_digits value }
{
    DIGITS[usize::from(value)]
}
