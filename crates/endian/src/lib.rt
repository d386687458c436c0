// Little-endian numbers in lent bytes, at the widths that the dip and the lanes have: loading and storing.
// Serves the crates above; no public call. Where a cast narrows here, it is proved to lose nothing: `TryFrom` would bring an error that cannot be.
#![tactic(auto)]

ghost use Rattle.std.specs.Prelude.{◌≡◌, ◌≤◌, ℕ, length};
ghost use Rattle.endian.specs.Little.{from_bytes, to_bytes};

// A number that stands in a run of bytes, the lowest byte first.
pub trait Little: Copy {
    // How many bytes it has.
    ghost size: { ℕ };

    // The number that it stands for.
    ghost value: { Self → ℕ };

    fn load(s: &[u8]) -> Self
        requires { length s.now ≡ size }
        ensures { value result ≡ from_bytes s.now };

    fn store(self, out: &mut [u8])
        requires { length out.old ≡ size }
        ensures { out.new ≡ to_bytes size (value self) };

    // From fewer bytes than it has.
    fn load_part(s: &[u8]) -> Self
        requires { length s.now ≤ size }
        ensures { value result ≡ from_bytes s.now };

    // As many of its lowest bytes as there is room for; zeros behind all of them.
    fn store_part(self, out: &mut [u8])
        ensures { out.new ≡ to_bytes (length out.old) (value self) };
}

// The three are alike but for the type: std has from_le_bytes and to_le_bytes for each type by name and under no trait, and no macro may write an impl that the gate
// takes. `load_part` and `store_part` as provided methods would want a law of each type's `From` and `Into` in place of its line.
impl Little for u16 {
    ghost size = { 2 };

    ghost value = { λ x. x };

    fn load(s: &[u8]) -> u16 {
        // Byte by byte, so that the check sees the number by computing, and the compiler one load.
        u16::from_le_bytes([s[0], s[1]])
    }

    fn store(self, out: &mut [u8]) {
        out.copy_from_slice(&u16::to_le_bytes(self));
    }

    // No `From` narrows: that the number fits is shown.
    fn load_part(s: &[u8]) -> u16 {
        number(s) as u16
    }

    fn store_part(self, out: &mut [u8]) {
        spread(u64::from(self), out);
    }
}

// As u16, by this type's own calls of std.
impl Little for u32 {
    ghost size = { 4 };

    ghost value = { λ x. x };

    fn load(s: &[u8]) -> u32 {
        u32::from_le_bytes([s[0], s[1], s[2], s[3]])
    }

    fn store(self, out: &mut [u8]) {
        out.copy_from_slice(&u32::to_le_bytes(self));
    }

    // As at u16: shown to fit.
    fn load_part(s: &[u8]) -> u32 {
        number(s) as u32
    }

    fn store_part(self, out: &mut [u8]) {
        spread(u64::from(self), out);
    }
}

// As u16, by this type's own calls of std.
impl Little for u64 {
    ghost size = { 8 };

    ghost value = { λ x. x };

    fn load(s: &[u8]) -> u64 {
        u64::from_le_bytes([s[0], s[1], s[2], s[3], s[4], s[5], s[6], s[7]])
    }

    fn store(self, out: &mut [u8]) {
        out.copy_from_slice(&u64::to_le_bytes(self));
    }

    fn load_part(s: &[u8]) -> u64 {
        number(s)
    }

    fn store_part(self, out: &mut [u8]) {
        spread(self, out);
    }
}

// The number whose bytes are s: the last byte is the highest.
fn number(s: &[u8]) -> u64
    requires { length s.now ≤ 8 }
    ensures { result ≡ from_bytes s.now }
{
    s.iter()
        .rev()
        .fold(0, |x, byte| (x << 8) | u64::from(*byte))
}

// The lowest bytes of x, as many as out has.
fn spread(x: u64, out: &mut [u8])
    ensures { out.new ≡ to_bytes (length out.old) x }
{
    let mut rest = x;
    for byte in out.iter_mut() {
        // No `From` narrows, and `to_le_bytes` has eight bytes, where out may have more.
        *byte = (rest % 256) as u8;
        rest /= 256;
    }
}
