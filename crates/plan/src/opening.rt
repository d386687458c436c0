// What a start injects at one Piston.
ghost use Rattle.std.specs.Prelude.{◌≡◌, ◌+◌, ◌≤◌, ◌<◌, length, get_or, take, drop};
ghost use Rattle.plan.specs.Start.{start_bytes};

use rates::ByteCount;

// The key in a key pack of `pack` bytes, and the nonce.
#[derive(Clone, Copy)]
pub struct Opening<'a> {
    pub pack: ByteCount,
    pub key: &'a [u8],
    pub nonce: &'a [u8],
    ghost bounded: { (pack.0 < 256) × (length key.now + 2 ≤ pack.0) × (length nonce.now ≤ 1024) },
}

impl Opening<'_> {
    // How many bytes it has: behind the nonce the number of Pistons and the index of this one.
    pub fn length(self) -> ByteCount
        ensures value { result.0 ≡ length (start_bytes self.entry.pack.0 self.entry.key.now self.entry.nonce.now) }
        ensures few { result.0 ≤ 1281 }
    {
        self.pack + ByteCount::of(self.nonce) + ByteCount(2)
    }

    // Byte i of it: key pack, nonce, the number of Pistons (1) and the index of this one (0).
    fn byte(self, i: ByteCount) -> u8
        ensures { result ≡ get_or (start_bytes self.entry.pack.0 self.entry.key.now self.entry.nonce.now) i.0 0 }
    {
        // both meet indices and the lengths of slices here
        let behind = self.pack.0;
        let at = i.0;
        if at == 0 {
            return self.pack.as_byte();
        }
        if at <= self.key.len() {
            return self.key[at - 1];
        }
        if at == self.key.len() + 1 {
            return 1;
        }
        if at < behind {
            return 0;
        }
        if at < behind + self.nonce.len() {
            return self.nonce[at - behind];
        }
        if at == behind + self.nonce.len() {
            1
        } else {
            0
        }
    }

    // The stretch of it that begins at byte `from` and is as long as out.
    pub fn part(self, from: ByteCount, out: &mut [u8])
        requires { from.0 + length out.old ≤ length (start_bytes self.pack.0 self.key.now self.nonce.now) }
        ensures { out.new ≡ take (length out.old) (drop from.0 (start_bytes self.entry.pack.0 self.entry.key.now self.entry.nonce.now)) }
    {
        for (j, byte) in out.iter_mut().enumerate() {
            *byte = self.byte(from + ByteCount(j));
        }
    }
}
