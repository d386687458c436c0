// Bytes by a pattern: what two words of a vector stand for, and the messages of the published hashes.
ghost use Rattle.std.specs.Prelude.{◌≡◌, ◌<◌, ◌+◌, ◌%◌, ◌^◌, ◌↔◌, ℕ, IsTrue, length, slice_index};
ghost use Rattle.trials.specs.Byte.{byte_at};

// Byte i is first + step * i + lift * (i / period), modulo 256; where `step` is 0, every byte is `first`.
#[derive(Clone, Copy, Debug)]
pub struct Pattern {
    pub first: u8,
    pub step: u8,
    pub period: usize,
    pub lift: u8,
    ghost repeats: { 0 < period },
}

// The lowest byte: `u8::try_from` refuses what is over 255.
pub fn low(n: usize) -> u8
    ensures { result ≡ n % 256 }
{
    let [low, ..] = n.to_le_bytes();
    low
}

// Inlined, so that where the period is known at the call no byte costs a division, and the compiler takes many bytes at once.
impl Pattern {
    #[inline(always)]
    pub fn at(&self, i: usize) -> u8
        ensures { result ≡ byte_at self.now.first self.now.step self.now.period self.now.lift i }
    {
        if self.step == 0 {
            return self.first;
        }
        let steps = self.step.wrapping_mul(low(i));
        let lifts = self.lift.wrapping_mul(low(i / self.period));
        self.first.wrapping_add(steps).wrapping_add(lifts)
    }

    #[inline(always)]
    pub fn fill(&self, into: &mut [u8])
        ensures { (k : ℕ) → k < length into.old → slice_index into.new k ≡ byte_at self.now.first self.now.step self.now.period self.now.lift k }
    {
        // One byte over and over: std's `fill` is quicker than the loop.
        if self.step == 0 {
            into.fill(self.first);
            return;
        }
        for (i, byte) in into.iter_mut().enumerate() {
            *byte = self.at(i);
        }
    }

    // Whether these are the bytes from byte `from` on. Every byte is looked at, also past one that differs, so that many are taken at once.
    #[inline(always)]
    pub fn is_in(&self, bytes: &[u8], from: usize) -> bool
        requires { from + length bytes.now < 2 ^ 64 }
        ensures { IsTrue result ↔ ((k : ℕ) → k < length bytes.now → slice_index bytes.now k ≡ byte_at self.now.first self.now.step self.now.period self.now.lift (from + k)) }
    {
        let mut all = true;
        for (i, byte) in bytes.iter().enumerate() {
            all = all & (*byte == self.at(from + i));
        }
        all
    }
}
