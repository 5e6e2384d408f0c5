// The operation Watch AES block.
ghost use Rattle.std.specs.Prelude.{length};
ghost use Rattle.refusal.specs.Outcome.{Answered};
ghost use Rattle.refusal.specs.Refusals.{report};
ghost use Rattle.steps.specs.Taken.{handed};
ghost use Rattle.aes.specs.Operations.{watch_outcome, watch_output};

use crate::encryption::Aes128;
use refusal::Refusal;
use steps::Taken;
use steps::calling::watch;

// The masked block under a watch: value k is what the step whose number stands at place k of the list records.
// It hands back how many masked products, random bytes and steps it took.
// Refused: as AES block; 2 also for lengths of list and values that differ, or over 64 numbers; last 8, a number that is not a step's.
// Then `values` is unchanged.
#[tactic(auto, unfolding(crate::specs::Operations::watch_outcome, crate::specs::Operations::watch_output))]
pub fn watch_block(
    s: u32,
    key: &[u8],
    block: &[u8],
    random: &[u8],
    list: &[u32],
    values: &mut [u8],
) -> Result<Taken, Refusal>
    ensures { Answered
        (watch_outcome s key.now block.now random.now list.now (length values.old))
        (watch_output s key.now block.now random.now list.now)
        values.old (report handed result) values.new }
{
    watch(&Aes128, s, key, block, random, list, values)
}
