// What a masked block of s shares takes.
ghost use Rattle.std.specs.Prelude.{◌≡◌};
ghost use Rattle.aes.specs.Figures.{block_products, block_draws, block_steps};

use steps::{Counts, ShareCount};

// What a block takes.
#[tactic(auto, unfolding(crate::specs::Figures::block_products, crate::specs::Figures::block_draws, crate::specs::Figures::block_steps), using(product::proofs::Counts::few_pairs))]
pub fn block_counts(s: ShareCount) -> Counts
    ensures products { result.products ≡ block_products }
    ensures draws { result.random ≡ block_draws s.count }
    ensures steps { result.steps ≡ block_steps s.count }
{
    let ordered = s.ordered_pairs();
    Counts {
        products: 800,
        random: 400 * ordered,
        steps: (3080 * s.count + 2800 * ordered + 10) as u32,
    }
}
