// The counts of a run.
ghost use Rattle.std.specs.Prelude.{◌≡◌};
ghost use Rattle.steps.specs.Machine.{zero_counts, with_steps};
ghost use Rattle.steps.specs.Taken.{handed, handed_back};

use crate::drawing::bytes_for;
use refusal::HandedBack;

// What a run has taken so far: masked products, random elements and steps. The next step's number is `steps`.
#[derive(Clone, Copy)]
pub struct Counts {
    pub products: usize,
    pub random: usize,
    pub steps: u32,
}

impl Counts {
    // Those at the start of a run, by the definition's name. (`Default` would say so through a ghost member.)
    pub fn zero() -> Counts
        ensures { result ≡ zero_counts }
    {
        Counts {
            products: 0,
            random: 0,
            steps: 0,
        }
    }

    // These with the next step's number.
    pub fn with_steps(self, steps: u32) -> Counts
        ensures { result ≡ with_steps self steps }
    {
        Counts { steps, ..self }
    }

    // What a call hands back of these, where a random element has so many bits.
    pub fn taken(self, width: u32) -> Taken
        ensures { handed result ≡ handed_back width self }
    {
        Taken {
            products: self.products,
            random: bytes_for(width, self.random),
            steps: self.steps,
        }
    }
}

// What a masked call has taken: masked products, random bytes and steps. It is no `Counts`, whose random elements are not counted in bytes.
#[derive(Clone, Copy, Debug, PartialEq, Eq)]
pub struct Taken {
    pub products: usize,
    pub random: usize,
    pub steps: u32,
}

impl HandedBack for Taken {
    ghost numbers = { handed };

    fn words(self) -> [u64; 3] {
        [
            self.products as u64,
            self.random as u64,
            u64::from(self.steps),
        ]
    }
}
