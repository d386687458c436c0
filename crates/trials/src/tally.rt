// How many comparisons agreed, how many differed, and how that is told, for the programs that try the library.
ghost use Rattle.std.specs.Prelude.{◌≡◌, ◌+◌, ◌%◌, ◌^◌, true, false, not, Bool, List, count_by};
ghost use Rattle.std.specs.Iterator.{IsFinite, Drains};

use std::fmt;
use std::ops::AddAssign;

#[derive(Clone, Copy, Debug, Default, PartialEq, Eq)]
pub struct Tally {
    pub agreed: usize,
    pub differed: usize,
}

impl Tally {
    // Of comparisons, each of which agreed or not.
    pub fn of<I: Iterator<Item = bool> + Drop>(comparisons: I) -> Tally
        requires can { I.can_next comparisons }
        requires ends { IsFinite (I.remaining comparisons) }
        ensures { (xs : List Bool) × Drains I.next_gives comparisons xs × (result.agreed ≡ count_by (λ x. x) xs % 2 ^ 64) × (result.differed ≡ count_by not xs % 2 ^ 64) }
    {
        let mut tally = Tally::default();
        for same in comparisons {
            tally.note(same);
        }
        tally
    }

    // One comparison more. A flag, since that is what a comparison gives: with a method for each, every caller would write this `if`.
    pub fn note(&mut self, same: bool)
        ensures agreed { same ≡ true → self.new ≡ record { agreed = (self.old.agreed + 1) % 2 ^ 64; differed = self.old.differed } }
        ensures differed { same ≡ false → self.new ≡ record { agreed = self.old.agreed; differed = (self.old.differed + 1) % 2 ^ 64 } }
    {
        if same {
            self.agreed = self.agreed.wrapping_add(1);
        } else {
            self.differed = self.differed.wrapping_add(1);
        }
    }
}

impl AddAssign for Tally {
    ghost add_assign_gives = { λ t u s. s ≡ record { agreed = (t.agreed + u.agreed) % 2 ^ 64; differed = (t.differed + u.differed) % 2 ^ 64 } };

    fn add_assign(&mut self, other: Tally) {
        self.agreed = self.agreed.wrapping_add(other.agreed);
        self.differed = self.differed.wrapping_add(other.differed);
    }
}

impl fmt::Display for Tally {
    fn fmt<W: fmt::Write>(&self, f: &mut fmt::Formatter<W>) -> fmt::Result {
        write!(f, "{} agreed, {} differed", self.agreed, self.differed)
    }
}
