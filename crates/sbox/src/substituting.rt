// The operation S-box.
ghost use Rattle.std.specs.Prelude.{◌≡◌, ◌≤◌, length, take};
ghost use Rattle.refusal.specs.Outcome.{Answered};
ghost use Rattle.refusal.specs.Refusals.{report};
ghost use Rattle.steps.specs.Taken.{handed};
ghost use Rattle.sbox.specs.Operations.{sbox_outcome, sbox_output};

use crate::arguments::accept;
use refusal::Refusal;
use steps::Taken;

// Copies the first shares out.
fn store(shares: &[u8], out: &mut [u8])
    requires { length out.old ≤ length shares.now }
    ensures { out.new ≡ take (length out.old) shares.now }
{
    out.copy_from_slice(&shares[..out.len()]);
}

// The masked S-box of s shares, 1 to 9, by a record. `out` takes the shares of the result.
// It hands back how many masked products, random bytes and steps it took.
// Refused: as Read; 7 share count; 2 a length; 3 an element too large. Then `out` is unchanged.
pub fn sbox(
    bytes: &[u8],
    s: u32,
    shares: &[u8],
    random: &[u8],
    out: &mut [u8],
) -> Result<Taken, Refusal>
    ensures { Answered (sbox_outcome bytes.now s shares.now random.now (length out.old))
        (sbox_output bytes.now s shares.now random.now) out.old (report handed result) out.new }
{
    let fits = out.len() == s as usize;
    let call = accept(bytes, s, shares, random, fits)?;
    let (result, counts) = call.unwatched();
    store(&result, out);
    Ok(counts.taken(call.record.layout.width))
}
