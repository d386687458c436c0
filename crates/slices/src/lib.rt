// What std has no method for: comparing two runs of bytes in a time that tells nothing of them. The laws of parts that were lent stand here too.
// Serves the crates above; no public call.
#![tactic(auto)]

ghost use Rattle.std.specs.Prelude.{◌≡◌};
ghost use Rattle.slices.specs.Same.{same_bytes};

// Not `a == b`, which ends at the first byte that differs: here every byte is looked at, so that the time tells nothing of where two tags differ
// (docs/SECURITY.md).
pub fn same(a: &[u8], b: &[u8]) -> bool
    ensures { result ≡ same_bytes a.now b.now }
{
    if a.len() != b.len() {
        return false;
    }
    let diff = a.iter().zip(b).fold(0, |diff, (x, y)| diff | (x ^ y));
    diff == 0
}
