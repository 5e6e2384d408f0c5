// The operation Watch S-box.
ghost use Rattle.std.specs.Prelude.{length};
ghost use Rattle.refusal.specs.Outcome.{Answered};
ghost use Rattle.refusal.specs.Refusals.{report};
ghost use Rattle.steps.specs.Taken.{handed};
ghost use Rattle.sbox.specs.Operations.{watch_outcome, watch_output};

use crate::arguments::accept;
use refusal::{Refusal, list_fits, refuse_past};
use steps::Taken;

// The masked S-box under a watch: value k is what the step whose number stands at place k of the list records.
// It hands back how many masked products, random bytes and steps it took.
// Refused: as S-box; 2 also for lengths of list and values that differ, or over 64 numbers; last 8, a number that is not a step's.
// Then `values` is unchanged. List and values are parameters of their own, as C lends them.
pub fn watch_sbox(
    bytes: &[u8],
    s: u32,
    shares: &[u8],
    random: &[u8],
    list: &[u32],
    values: &mut [u8],
) -> Result<Taken, Refusal>
    ensures { Answered
        (watch_outcome bytes.now s shares.now random.now list.now (length values.old))
        (watch_output bytes.now s shares.now random.now list.now)
        values.old (report handed result) values.new }
{
    let fits = list_fits(list.len(), values.len());
    let call = accept(bytes, s, shares, random, fits)?;
    refuse_past(call.step_count(), list)?;
    let counts = call.watched(list, values);
    Ok(counts.taken(call.record.layout.width))
}
