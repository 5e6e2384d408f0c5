// Random elements: the one place where it is known how they lie in the lent bytes.
ghost use Rattle.std.specs.Prelude.{◌≡◌, false, cond, [], ◌+◌, ◌<◌, ◌≤◌, ◌^◌, eqb, length, get_or};
ghost use Rattle.refusal.specs.Outcome.{done};
ghost use Rattle.refusal.specs.Large.{test_below};
ghost use Rattle.refusal.specs.Refusals.{report, nothing};
ghost use Rattle.steps.specs.Tape.{elements, bytes_for};

use refusal::{Refusal, refuse_large};

// How random elements of `width` bits lie in a byte: how many besides the first, and what each is below as it lies there.
fn packing(width: u32) -> (usize, u32)
    ensures beside { result.0 ≡ cond (eqb width 4) 1 0 }
    ensures limit { result.1 ≡ cond (eqb width 4) 16 256 }
    ensures bounds { (result.0 ≤ 1) × (0 < result.1) × (result.1 ≤ 256) }
{
    if width == 4 { (1, 16) } else { (0, 256) }
}

// Random element number `at`, of `width` bits: the bytes and a number, since the place of an element in them is what is settled here. The width settles
// numbers and no branch: a branch here would part the two products of a pair.
pub fn draw(width: u32, random: &[u8], at: usize) -> u8
    requires { at < length (elements width random.now) }
    ensures { result ≡ get_or (elements width random.now) at 0 }
{
    let (more, limit) = packing(width);
    let b = random[at / (more + 1)] as u32;
    let shift = 4 * more * (1 - at % 2);
    ((b >> shift) % limit) as u8
}

// How many bytes hold so many random elements of `width` bits.
#[tactic(auto, using(crate::proofs::Tape::bytes_saved))]
pub fn bytes_for(width: u32, count: usize) -> usize
    ensures { result ≡ bytes_for width count }
{
    let (more, _) = packing(width);
    count - more * (count / 2)
}

// How many random elements of `width` bits the bytes hold, where each holds one.
#[tactic(auto, using(crate::proofs::Tape::elements_one))]
pub fn element_count(width: u32, random: &[u8]) -> usize
    requires { eqb width 4 ≡ false }
    ensures { result ≡ length (elements width random.now) }
{
    random.len()
}

// The test that all random elements are below the bound, where each byte holds one: the refusal names the first that is not, by its place counted
// from `from`.
#[tactic(auto, using(crate::proofs::Tape::elements_one))]
pub fn refuse_large_random(width: u32, bound: u8, random: &[u8], from: usize) -> Result<(), Refusal>
    requires one_a_byte { eqb width 4 ≡ false }
    requires room { from + length (elements width random.now) < 2 ^ 64 }
    ensures { report nothing result ≡ test_below bound from (elements width random.now) (done []) }
{
    refuse_large(bound, random, from)
}
