// Answers as four words, for callers that know no Result.
ghost use Rattle.std.specs.Prelude.{◌≡◌, List, ℕ};
ghost use Rattle.refusal.specs.Refusals.{report, nothing};
ghost use Rattle.refusal.specs.Words.{words, three};

use crate::refusals::Refusal;

// What a success hands back.
pub trait HandedBack {
    // as numbers, in the paper's order
    ghost numbers: { Self → List ℕ };

    // As words, 0 in those that are not used.
    fn words(self) -> [u64; 3]
        ensures { result ≡ three (numbers self) };
}

impl HandedBack for () {
    ghost numbers = { nothing };

    fn words(self) -> [u64; 3] {
        [0; 3]
    }
}

// An answer: the number of a refusal, 0 for done; then its place, or what is handed back.
#[tactic(auto, unfolding(crate::specs::Words::words))]
pub fn answer_words<T: HandedBack>(answer: Result<T, Refusal>) -> [u64; 4]
    ensures { result ≡ words (report T.numbers answer) }
{
    match answer {
        Ok(value) => {
            let [first, second, third] = value.words();
            [0, first, second, third]
        }
        Err(refusal) => [refusal.number() as u64, refusal.place() as u64, 0, 0],
    }
}
