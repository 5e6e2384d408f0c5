// The operation AES block.
ghost use Rattle.std.specs.Prelude.{length};
ghost use Rattle.refusal.specs.Outcome.{Answered};
ghost use Rattle.refusal.specs.Refusals.{report};
ghost use Rattle.steps.specs.Taken.{handed};
ghost use Rattle.aes.specs.Operations.{block_outcome, block_output};

use crate::encryption::Aes128;
use refusal::Refusal;
use steps::Taken;
use steps::calling::call;

// The masked AES-128 block of s shares, 1 to 9, of a key and of a block. `out` takes the shares of the ciphertext.
// It hands back how many masked products, random bytes and steps it took.
// Refused: 7 share count; 2 a length. Then `out` is unchanged.
#[tactic(auto, unfolding(crate::specs::Operations::block_outcome, crate::specs::Operations::block_output))]
pub fn block(
    s: u32,
    key: &[u8],
    block: &[u8],
    random: &[u8],
    out: &mut [u8],
) -> Result<Taken, Refusal>
    ensures { Answered
        (block_outcome s key.now block.now random.now (length out.old))
        (block_output s key.now block.now random.now)
        out.old (report handed result) out.new }
{
    call(&Aes128, s, key, block, random, out)
}
