// The tests that operations share.
#![tactic(auto)]

pub mod answers;
pub mod refusals;

ghost use Rattle.std.specs.Prelude.{◌≡◌, ◌+◌, ◌<◌, ◌≤◌, ◌^◌, [], length, MatchResult};
ghost use Rattle.refusal.specs.Outcome.{Outcome, done, refused};
ghost use Rattle.refusal.specs.Range.{one_to};
ghost use Rattle.refusal.specs.Large.{first_large, found, test_below};
ghost use Rattle.refusal.specs.Refusals.{report, nothing, number_of, place_of};
ghost use Rattle.refusal.specs.Watch.{list_fits, test_steps};

pub use answers::{HandedBack, answer_words};
pub use refusals::{Refusal, refuse_unless};

// Whether x is one of the numbers 1 to `most`.
#[tactic(auto, unfolding(crate::specs::Range::one_to))]
pub fn one_to(most: usize, x: usize) -> bool
    ensures { result ≡ one_to most x }
{
    (1..=most).contains(&x)
}

// The place of the first entry that is not below the bound, if there is one.
pub fn first_large(bound: u8, entries: &[u8]) -> Option<usize>
    ensures { result ≡ found (first_large bound entries.now) (length entries.now) }
{
    // no entry ends this pass, so that many are tested at once
    if entries.iter().fold(true, |all, e| all & (*e < bound)) {
        return None;
    }
    entries.iter().position(|e| *e >= bound)
}

// The test that all entries are below the bound: the refusal names the first that is not, by its place counted from `from`, since the entries may be
// a part of what the operation counts through. Each refusal of a place is a `match`: its variant is what the two functions differ in.
pub fn refuse_large(bound: u8, entries: &[u8], from: usize) -> Result<(), Refusal>
    requires { from + length entries.now < 2 ^ 64 }
    ensures { report nothing result ≡ test_below bound from entries.now (done []) }
{
    match first_large(bound, entries) {
        Some(at) => Err(Refusal::Entry { place: from + at }),
        None => Ok(()),
    }
}

// The place of the first step number that is not below the total, if there is one. This is one call of the library: a function over both kinds of
// numbers, for it and `first_large`, would be longer than the two.
pub fn first_past(total: u32, list: &[u32]) -> Option<usize>
    ensures { result ≡ found (first_large total list.now) (length list.now) }
{
    list.iter().position(|number| *number >= total)
}

// The test that all step numbers are below the total: the refusal names the first that is not.
pub fn refuse_past(total: u32, list: &[u32]) -> Result<(), Refusal>
    ensures { MatchResult result
        (λ _. length list.now ≤ first_large total list.now)
        (λ e. (next : Outcome) → test_steps total list.now next ≡ refused (number_of e) (place_of e)) }
{
    match first_past(total, list) {
        Some(place) => Err(Refusal::Step { place }),
        None => Ok(()),
    }
}

// Whether a list of so many numbers has as many places for their values, and is not too long.
pub fn list_fits(numbers: usize, places: usize) -> bool
    ensures { result ≡ list_fits numbers places }
{
    numbers == places && numbers <= 64
}
