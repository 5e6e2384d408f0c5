// The tests that the S-box and its watch share.
ghost use Rattle.std.specs.Prelude.{◌≡◌, [], ◌∷◌, ◌++◌, ◌^◌, ◌<◌, ◌≤◌, length, IfOk};
ghost use Rattle.refusal.specs.Outcome.{done};
ghost use Rattle.refusal.specs.Large.{test_below};
ghost use Rattle.refusal.specs.Refusals.{report, nothing};
ghost use Rattle.decomposition.specs.Layout.{Pair};
ghost use Rattle.steps.specs.Tape.{elements};
ghost use Rattle.sbox.specs.Accepted.{IsCall};
ghost use Rattle.sbox.specs.Operations.{sbox_lengths, tested_random, call_tests};

use crate::calling::AcceptedCall;
use crate::figures::draw_count;
use decomposition::{Layout, read};
use refusal::{Refusal, refuse_large, refuse_unless};
use steps::{ShareCount, bytes_for, refuse_large_random};

// All tests: they hand on the call. `fits` says whether what is lent for output has its length: all lengths are one test, the last of them another's in a call
// than in a watch.
pub fn accept<'a>(
    bytes: &'a [u8],
    s: u32,
    shares: &'a [u8],
    random: &'a [u8],
    fits: bool,
) -> Result<AcceptedCall<'a>, Refusal>
    ensures outcome { report (λ a. a.record.layout.width ∷ []) result ≡ call_tests bytes.now s shares.now random.now fits }
    ensures accepted { IfOk result (IsCall bytes.now s shares.now random.now) }
{
    let record = read(bytes)?;
    let count = ShareCount::new(s)?;
    refuse_unless(
        lengths_fit(&record.layout, count, shares.len(), random.len(), fits),
        Refusal::Length,
    )?;
    refuse_large_elements(&record.layout, shares, random)?;
    Ok(AcceptedCall {
        record,
        count,
        shares,
        random,
    })
}

// Whether shares and random bytes, so many, are what so many shares take, and `fits` holds.
#[tactic(auto, unfolding(crate::specs::Operations::sbox_lengths))]
fn lengths_fit(layout: &Layout, s: ShareCount, shares: usize, random: usize, fits: bool) -> bool
    requires { Pair layout.now.width layout.now.outputs }
    ensures { result ≡ sbox_lengths layout.now.width layout.now.outputs s.count shares random fits }
{
    let bytes = bytes_for(layout.width, draw_count(layout, s));
    shares == s.count && (random == bytes && fits)
}

// The test of the elements: the shares, then, but for width 4, the random elements.
fn refuse_large_elements(layout: &Layout, shares: &[u8], random: &[u8]) -> Result<(), Refusal>
    requires inputs { (layout.now.inputs ≡ 2 ^ layout.now.width) × (layout.now.inputs < 256) }
    requires lengths { (length shares.now ≤ 9) × (length (elements layout.now.width random.now) ≤ 200) }
    ensures { report nothing result
        ≡ test_below (2 ^ layout.now.width) 0 (shares.now ++ tested_random layout.now.width random.now) (done []) }
{
    let bound = layout.inputs;
    refuse_large(bound, shares, 0)?;
    if layout.width == 4 {
        return Ok(());
    }
    refuse_large_random(layout.width, bound, random, shares.len())
}
