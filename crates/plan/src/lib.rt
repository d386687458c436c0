// The plan of a group as the code walks it, block by block, the same at every width of a lane: which stretch of the text and
// of the metadata the next block takes, and where in the block they go; and what a start injects. Serves the Engine's and the Piston's code; no public call.
#![tactic(auto)]

ghost use Rattle.std.specs.Prelude.{◌≡◌};
ghost use Rattle.plan.specs.Cut.{eom_at};
ghost use Rattle.motorist.specs.Piston.{eom};
ghost use Rattle.motorist.specs.Motorist.{taken};
ghost use Rattle.motorist.specs.Instance.{tag_len};

use rates::{ByteCount, Rates};

mod group;
mod opening;

pub use group::Group;
pub use opening::Opening;

// The block's text is the message's from `text` up to `textend`, from byte `at` of the block on; metadata likewise, from `from` on.
// No ranges: a `Range` is not `Copy`, and a cut is handed on by value; the laws of the walk (`Fits`, `Stage`, `step`) speak of the four places one by one.
#[derive(Clone, Copy, Debug, PartialEq, Eq)]
pub struct Cut {
    pub at: ByteCount,
    pub text: ByteCount,
    pub textend: ByteCount,
    pub from: ByteCount,
    pub meta: ByteCount,
    pub metaend: ByteCount,
}

// The EOM of a block in a group that ends with `eom`: 0 where a block after it is left to do.
pub fn eom_at(more: bool, eom: u8) -> u8
    ensures { result ≡ eom_at more eom }
{
    if more { 0 } else { eom }
}

// The EOM of a group from which a tag is taken, and of a start by whether one is asked for.
pub fn eom_tag(rates: Rates) -> u8
    requires { rates.tag.0 ≡ tag_len }
    ensures { result ≡ tag_len }
{
    rates.tag.as_byte()
}

pub fn eom_of(rates: Rates, tagged: bool) -> u8
    requires { rates.tag.0 ≡ tag_len }
    ensures { result ≡ eom (taken tagged) }
{
    if tagged { eom_tag(rates) } else { 255 }
}
