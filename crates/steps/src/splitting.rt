// The operation Split.
ghost use Rattle.std.specs.Prelude.{◌≡◌, ◌*◌, ◌<◌, ◌≤◌, length};
ghost use Rattle.refusal.specs.Outcome.{Answered};
ghost use Rattle.refusal.specs.Refusals.{report, nothing};
ghost use Rattle.steps.specs.Fill.{tabulate};
ghost use Rattle.steps.specs.Operations.{split_lengths, split_outcome, masked_byte, split_shares};

use crate::columns::column_sum;
use crate::share_count::ShareCount;
use refusal::{Refusal, one_to, refuse_unless};

// Splits a value of 1 to 16 bytes into s shares, 1 to 9: share 0 is the value plus all masks, the rest are the masks.
// The masks lie one after the other, that of share 1 first, and so do the shares in `out`, share 0 first.
// Refused: 7 share count; 2 a length. Then `out` is unchanged.
pub fn split(value: &[u8], s: u32, masks: &[u8], out: &mut [u8]) -> Result<(), Refusal>
    ensures { Answered (split_outcome (length value.now) s (length masks.now) (length out.old))
        (split_shares s value.now masks.now) out.old (report nothing result) out.new }
{
    let s = ShareCount::new(s)?;
    let n = value.len();
    refuse_unless(lengths_fit(n, s, masks.len(), out.len()), Refusal::Length)?;
    let (first, rest) = out.split_at_mut(n);
    first_share(value, s.count - 1, masks, first);
    copy_masks(masks, rest);
    Ok(())
}

// Writes the other shares, the masks. By index: the library's copy may be a call of C's `memmove`, which the archive would need from outside.
#[tactic(auto, using(crate::proofs::Fill::fills))]
fn copy_masks(masks: &[u8], out: &mut [u8])
    requires { length out.old ≡ length masks.now }
    ensures { out.new ≡ masks.now }
{
    for (j, byte) in out.iter_mut().enumerate() {
        *byte = masks[j];
    }
}

// Whether value, masks and out, of so many bytes, have the lengths for so many shares.
#[tactic(auto, using(crate::proofs::Operations::few_bytes), unfolding(crate::specs::Operations::split_lengths, refusal::specs::Range::one_to))]
fn lengths_fit(value: usize, s: ShareCount, masks: usize, out: usize) -> bool
    requires { 0 < s.count }
    ensures { result ≡ split_lengths value s.count masks out }
{
    one_to(16, value) && masks == (s.count - 1) * value && out == s.count * value
}

// Writes share 0: the value plus its k masks.
#[tactic(auto, using(crate::proofs::Fill::fills))]
fn first_share(value: &[u8], k: usize, masks: &[u8], out: &mut [u8])
    requires { (length value.now ≤ 16) × (k * length value.now ≤ length masks.now) × (length out.old ≡ length value.now) }
    ensures { out.new ≡ tabulate (length value.now) (masked_byte value.now k masks.now) }
{
    let n = value.len();
    for (j, byte) in out.iter_mut().enumerate() {
        *byte = value[j] ^ column_sum(masks, n, j, k);
    }
}
