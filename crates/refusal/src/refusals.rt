// Why an operation refuses.
ghost use Rattle.std.specs.Prelude.{◌≡◌};
ghost use Rattle.refusal.specs.Refusals.{number_of, place_of, tested};

use std::error::Error;
use std::fmt;

// A refusal. Each has a number, and some have a place: callers in C and the stored cases know a refusal by the two.
#[derive(Clone, Copy, Debug, PartialEq, Eq)]
pub enum Refusal {
    // 1: a width that the operation does not take
    Width,
    // 2: a length
    Length,
    // 3: an entry that is too large; the first such, counted through the slices tested
    Entry { place: usize },
    // 4: no decomposition of the table over the basis
    Undecomposable,
    // 5: the mark or the version of a record
    Mark,
    // 6: a record of another table; the first input that differs
    Differs { place: usize },
    // 6: a record of another table than the operation's own
    Table,
    // 7: the share count
    ShareCount,
    // 8: a step number that is not below the total; the first such in the list
    Step { place: usize },
    // 9: output bits that do not pair with the width
    OutputBits,
}

impl Refusal {
    // The number of the refusal. No `From<Refusal>` gives it: the number alone has lost the place.
    pub fn number(self) -> u8
        ensures { result ≡ number_of self }
    {
        match self {
            Refusal::Width => 1,
            Refusal::Length => 2,
            Refusal::Entry { .. } => 3,
            Refusal::Undecomposable => 4,
            Refusal::Mark => 5,
            Refusal::Differs { .. } | Refusal::Table => 6,
            Refusal::ShareCount => 7,
            Refusal::Step { .. } => 8,
            Refusal::OutputBits => 9,
        }
    }

    // Its place, 0 where it has none.
    pub fn place(self) -> usize
        ensures { result ≡ place_of self }
    {
        match self {
            Refusal::Entry { place } | Refusal::Differs { place } | Refusal::Step { place } =>
                place,
            _ => 0,
        }
    }
}

impl fmt::Display for Refusal {
    fn fmt<W: fmt::Write>(&self, f: &mut fmt::Formatter<W>) -> fmt::Result {
        write!(f, "number {}, place {}", self.number(), self.place())
    }
}

// Written out: a derive of `Error` is in a crate of its own, and this one, which all others are built over, is over none.
impl Error for Refusal {}

// A test: refuses unless this holds.
#[tactic(auto, unfolding(crate::specs::Refusals::tested))]
pub fn refuse_unless(holds: bool, refusal: Refusal) -> Result<(), Refusal>
    ensures { result ≡ tested holds refusal }
{
    if holds { Ok(()) } else { Err(refusal) }
}
