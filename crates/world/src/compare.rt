// How a result is held against what was published: its bytes against hexadecimal digits.
ghost use Rattle.std.specs.Prelude.{◌≡◌, ◌/◌, true, [], ◌∷◌};
ghost use Rattle.world.specs.Hex.{digit_of, hex_of};

// The two digits of a byte.
fn digits(b: u8) -> [u8; 2]
    ensures { result ≡ digit_of (b / 16) ∷ digit_of b ∷ [] }
{
    let digits = b"0123456789abcdef";
    [digits[usize::from(b / 16)], digits[usize::from(b % 16)]]
}

// Whether `hex` is `got` in hexadecimal: true is answered of nothing else.
pub fn agrees(got: &[u8], hex: &[u8]) -> bool
    ensures { result ≡ true → hex.now ≡ hex_of got.now }
{
    hex.len() == 2 * got.len()
        && got
            .iter()
            .zip(hex.as_chunks::<2>().0)
            .all(|(byte, pair)| *pair == digits(*byte))
}
