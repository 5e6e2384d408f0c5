// The operation Join.
ghost use Rattle.std.specs.Prelude.{◌≡◌, ◌*◌, ◌≤◌, length};
ghost use Rattle.refusal.specs.Outcome.{Answered};
ghost use Rattle.refusal.specs.Refusals.{report, nothing};
ghost use Rattle.steps.specs.Operations.{join_lengths, join_outcome, join_shares};

use crate::columns::column_sum;
use crate::share_count::ShareCount;
use refusal::{Refusal, one_to, refuse_unless};

// Joins s shares, 1 to 9, that lie one after the other, into the value of 1 to 16 bytes that is their sum.
// Refused: 7 share count; 2 a length. Then `out` is unchanged.
pub fn join(shares: &[u8], s: u32, out: &mut [u8]) -> Result<(), Refusal>
    ensures { Answered (join_outcome (length shares.now) s (length out.old))
        (join_shares (length out.old) s shares.now) out.old (report nothing result) out.new }
{
    let s = ShareCount::new(s)?;
    refuse_unless(lengths_fit(shares.len(), s, out.len()), Refusal::Length)?;
    add_shares(shares, s, out);
    Ok(())
}

// Whether shares and out, of so many bytes, have the lengths for so many shares.
#[tactic(auto, using(crate::proofs::Operations::few_bytes), unfolding(crate::specs::Operations::join_lengths, refusal::specs::Range::one_to))]
fn lengths_fit(shares: usize, s: ShareCount, out: usize) -> bool
    ensures { result ≡ join_lengths shares s.count out }
{
    one_to(16, out) && shares == s.count * out
}

// Writes the sum of s shares.
#[tactic(auto, using(crate::proofs::Fill::fills), unfolding(crate::specs::Operations::joined_byte))]
fn add_shares(shares: &[u8], s: ShareCount, out: &mut [u8])
    requires { (length out.old ≤ 16) × (s.count * length out.old ≤ length shares.now) }
    ensures { out.new ≡ join_shares (length out.old) s.count shares.now }
{
    let n = out.len();
    for (j, byte) in out.iter_mut().enumerate() {
        *byte = column_sum(shares, n, j, s.count);
    }
}
