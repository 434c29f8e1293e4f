// Decimals. Each number has one spelling: no `+`, no leading zeros, and no `-0`.
ghost use Rattle.std.specs.Prelude.{◌≡◌, ◌<◌, ◌^◌, ◌||◌, FitsSigned};
ghost use Rattle.std.specs.Fmt.{decimal, signed_decimal};
ghost use Rattle.std.specs.Int.{w16};
ghost use Rattle.lw_types.specs.Decimal.{starts_plain, starts_with_minus};

use crate::text::FromText;

/// Whether the text has no sign and no leading zero. Such a text is a decimal if all its other
/// bytes are digits.
fn starts_plain(text: &str) -> bool
    ensures { result ≡ starts_plain text.now }
{
    match text.as_bytes().first() {
        Some(b'0') => text.len() == 1,
        Some(b'1'..=b'9') => true,
        _ => false,
    }
}

/// Whether the text has no leading zero, and no sign except a minus before a number other than 0.
fn starts_signed(text: &str) -> bool
    ensures { result ≡ (starts_plain text.now || starts_with_minus text.now) }
{
    match text.as_bytes() {
        [b'-', b'1'..=b'9', ..] => true,
        _ => starts_plain(text),
    }
}

impl FromText for u8 {
    ghost is_value = { λ n. n < 2 ^ 8 };

    ghost text_of = { decimal };

    fn from_text(text: &str) -> Option<Self> {
        if !starts_plain(text) {
            return None;
        }
        text.parse().ok()
    }
}

impl FromText for u16 {
    ghost is_value = { λ n. n < 2 ^ 16 };

    ghost text_of = { decimal };

    fn from_text(text: &str) -> Option<Self> {
        if !starts_plain(text) {
            return None;
        }
        text.parse().ok()
    }
}

impl FromText for u32 {
    ghost is_value = { λ n. n < 2 ^ 32 };

    ghost text_of = { decimal };

    fn from_text(text: &str) -> Option<Self> {
        if !starts_plain(text) {
            return None;
        }
        text.parse().ok()
    }
}

impl FromText for u64 {
    ghost is_value = { λ n. n < 2 ^ 64 };

    ghost text_of = { decimal };

    fn from_text(text: &str) -> Option<Self> {
        if !starts_plain(text) {
            return None;
        }
        text.parse().ok()
    }
}

impl FromText for i16 {
    ghost is_value = { λ n. FitsSigned w16 n };

    ghost text_of = { signed_decimal };

    fn from_text(text: &str) -> Option<Self> {
        if !starts_signed(text) {
            return None;
        }
        text.parse().ok()
    }
}
