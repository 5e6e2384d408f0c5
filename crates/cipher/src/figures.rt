// What a masked block and a masked opening of s shares take.
ghost use Rattle.std.specs.Prelude.{◌≡◌, ◌+◌, ◌-◌, ◌*◌, ◌≤◌};
ghost use Rattle.cipher.specs.Figures.{block_products, block_draws, block_steps, open_products, open_draws, open_steps};

use steps::{Counts, ShareCount};

// What 31 rounds and a key addition take: a round has so many S-boxes, so many nibbles recorded of every share, and so many of share 0 alone.
fn rounds_take(boxes: usize, nibbles: usize, single: usize, s: ShareCount) -> Counts
    requires { (boxes ≤ 100) × (nibbles ≤ 100) × (single ≤ 100) }
    ensures products { result.products ≡ 62 * boxes }
    ensures draws { result.random ≡ 31 * boxes * (s.count * (s.count - 1)) }
    ensures steps { result.steps ≡ 31 * (nibbles * s.count + boxes * (7 * (s.count * s.count) + 50 * s.count) + single) + 16 * s.count }
{
    let n = s.count;
    Counts {
        products: 62 * boxes,
        random: 31 * boxes * s.ordered_pairs(),
        steps: (31 * (nibbles * n + boxes * (7 * (n * n) + 50 * n) + single) + 16 * n) as u32,
    }
}

// What a block takes.
#[tactic(auto, unfolding(crate::specs::Figures::block_products, crate::specs::Figures::block_draws, crate::specs::Figures::block_steps))]
pub fn block_counts(s: ShareCount) -> Counts
    ensures products { result.products ≡ block_products }
    ensures draws { result.random ≡ block_draws s.count }
    ensures steps { result.steps ≡ block_steps s.count }
{
    rounds_take(17, 52, 2, s)
}

// What an opening takes.
#[tactic(auto, unfolding(crate::specs::Figures::open_products, crate::specs::Figures::open_draws, crate::specs::Figures::open_steps))]
pub fn open_counts(s: ShareCount) -> Counts
    ensures products { result.products ≡ open_products }
    ensures draws { result.random ≡ open_draws s.count }
    ensures steps { result.steps ≡ open_steps s.count }
{
    rounds_take(18, 72, 4, s)
}
