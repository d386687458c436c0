// A buffer is lent as a part of a larger array, whose other bytes are marked before the call and looked at after it.
ghost use Rattle.std.specs.Prelude.{◌≡◌, ◌≤◌, ◌+◌, ◌↔◌, length, IsTrue};
ghost use Rattle.vectors.specs.Mark.{mark, AreMarked};

use crate::words::Words;
use trials::pattern::low;

// So many bytes lie before each lent part, and at least as many after it.
const AROUND: usize = 32;

// The arrays: room for 65,600 bytes of output, and for 32 of a tag.
pub type OutputArray = [u8; 65664];

pub type TagArray = [u8; 96];

// The lent part of an array, and what is around it.
#[derive(Drop)]
pub struct Guarded<'a> {
    before: &'a mut [u8],
    pub lent: &'a mut [u8],
    after: &'a mut [u8],
}

// The mark at place i: no two neighbours have the same, so that a byte moved is seen as well.
fn mark_at(i: usize) -> u8
    ensures { result ≡ mark i }
{
    low(i) ^ 165
}

// Whether each byte has its mark, where the first is at place `from`. Every byte is looked at, and of its place the lowest byte alone is reckoned,
// so that the compiler takes many bytes at once. Not `(from..).zip(bytes)`: that ends at the largest number, and would say nothing of those past it.
fn are_marked(bytes: &[u8], from: usize) -> bool
    ensures { IsTrue result ↔ AreMarked bytes.now from }
{
    let first = low(from);
    let mut all = true;
    for (i, byte) in bytes.iter().enumerate() {
        all = all & (*byte == mark_at(usize::from(first.wrapping_add(low(i)))));
    }
    all
}

impl<'a> Guarded<'a> {
    // Of an array, with so many bytes lent.
    pub fn of(array: &'a mut [u8], size: usize) -> Self
        requires { 64 + size ≤ length array.old }
        ensures { length result.lent.now ≡ size }
    {
        let (before, rest) = array.split_at_mut(AROUND);
        let (lent, after) = rest.split_at_mut(size);
        Guarded {
            before,
            lent,
            after,
        }
    }

    // The words LENGTH A B PLACE HEX of a buffer that is to be lent: all bytes around it are marked.
    pub fn read(words: &mut Words<'_>, array: &'a mut [u8]) -> Self
        requires { 64 ≤ length array.old }
        ensures { 64 + length result.lent.now ≤ length array.old }
    {
        for (i, byte) in array.iter_mut().enumerate() {
            *byte = mark_at(i);
        }
        let end = array.len() - AROUND;
        let size = words.given(&mut array[AROUND..end]).len();
        Guarded::of(array, size)
    }

    // Whether all but the lent part is as it was marked.
    pub fn is_kept(&self) -> bool
        ensures { IsTrue result ↔ (AreMarked self.now.before.now 0 × AreMarked self.now.after.now (AROUND + length self.now.lent.now)) }
    {
        are_marked(self.before, 0) && are_marked(self.after, AROUND + self.lent.len())
    }
}
