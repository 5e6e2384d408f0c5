// How many shares there are.
ghost use Rattle.std.specs.Prelude.{◌≡◌, ◌-◌, ◌*◌, ◌≤◌, true, false, MatchResult};
ghost use Rattle.refusal.specs.Range.{one_to};
ghost use Rattle.refusal.specs.declared.refusals.Refusal.TheVariants as refusals;

use refusal::{Refusal, one_to};

// A share count: at most 9, since a sharing is held in nine places. It may be 0, since the product, the layers of a block and the S-box on a sharing
// take that too; that of a call is not, which the tests of a call find.
#[derive(Clone, Copy, Debug, PartialEq, Eq)]
pub struct ShareCount {
    pub count: usize,
    pub ghost few: { count ≤ 9 },
}

impl ShareCount {
    // The share count of a call: 1 to 9, else it is refused.
    #[tactic(auto, unfolding(refusal::specs::Range::one_to))]
    pub fn new(s: u32) -> Result<ShareCount, Refusal>
        ensures { MatchResult result (λ n. (n.count ≡ s) × (one_to 9 s ≡ true)) (λ e. (e ≡ refusals.ShareCount) × (one_to 9 s ≡ false)) }
    {
        let count = s as usize;
        if one_to(9, count) {
            Ok(ShareCount { count })
        } else {
            Err(Refusal::ShareCount)
        }
    }

    // How many ordered pairs of two shares there are: s(s - 1).
    pub fn ordered_pairs(self) -> usize
        ensures { result ≡ self.count * (self.count - 1) }
    {
        self.count * self.count.saturating_sub(1)
    }
}
