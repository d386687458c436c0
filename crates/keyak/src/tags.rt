// The tag of lanes, given out or compared with one that came.
ghost use Rattle.std.specs.Prelude.{◌≡◌, length, take};
ghost use Rattle.keccak.specs.State.{bytes};
ghost use Rattle.slices.specs.Same.{same_bytes};
ghost use Rattle.motorist.specs.Instance.{tag_len};

use lanes::Lanes;

pub fn give_tag<L: Lanes>(lanes: L, tag: &mut [u8])
    requires { length tag.old ≡ tag_len }
    ensures { tag.new ≡ take tag_len (bytes L.BYTES (L.lanes lanes)) }
{
    piston::squeeze(lanes, tag);
}

// Whether it is the one given; all its bytes are compared. It stays a function of its own in the machine code, since bench/timing makes its answer public there.
#[inline(never)]
pub fn tag_is<L: Lanes>(lanes: L, tag: &[u8]) -> bool
    ensures { result ≡ same_bytes (take tag_len (bytes L.BYTES (L.lanes lanes))) tag.now }
{
    let mut right = [0u8; table::TAG_BYTES];
    piston::squeeze(lanes, &mut right);
    slices::same(&right, tag)
}
