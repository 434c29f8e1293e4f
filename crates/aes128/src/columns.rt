// Products with small elements, and InvMixColumns of a column (FIPS 197 §4.2, §5.3.3).
ghost use Rattle.std.specs.Prelude.{◌≡◌, [], ◌∷◌};
ghost use Rattle.aes128.specs.Field.{◌•◌};
ghost use Rattle.aes128.specs.InverseCipher.{unmixed_column};

#[inline(always)]
pub fn doubled(byte: u8) -> u8
    ensures { result ≡ 2 • byte }
{
    if byte < 128 {
        byte << 1
    } else {
        (byte << 1) ^ 0x1b
    }
}

// The products of a byte with 9, 11, 13 and 14.
#[inline(always)]
fn multiples(byte: u8) -> [u8; 4]
    ensures { result ≡ (9 • byte) ∷ (11 • byte) ∷ (13 • byte) ∷ (14 • byte) ∷ [] }
{
    let two = doubled(byte);
    let four = doubled(two);
    let eight = doubled(four);
    [
        eight ^ byte,
        eight ^ two ^ byte,
        eight ^ four ^ byte,
        eight ^ four ^ two,
    ]
}

// InvMixColumns of one column.
#[inline(always)]
pub fn unmixed(column: [u8; 4]) -> [u8; 4]
    ensures { result ≡ unmixed_column column }
{
    let [a, b, c, d] = column;
    let [a9, a11, a13, a14] = multiples(a);
    let [b9, b11, b13, b14] = multiples(b);
    let [c9, c11, c13, c14] = multiples(c);
    let [d9, d11, d13, d14] = multiples(d);
    [
        a14 ^ b11 ^ c13 ^ d9,
        a9 ^ b14 ^ c11 ^ d13,
        a13 ^ b9 ^ c14 ^ d11,
        a11 ^ b13 ^ c9 ^ d14,
    ]
}
