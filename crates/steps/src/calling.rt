// Masked operations of a key and a block, and their watches.
ghost use Rattle.std.specs.Prelude.{◌≡◌, List, ℕ, ◌*◌, ◌<◌, ◌≤◌, eqb, [], length, take, MatchResult};
ghost use Rattle.xor.specs.Sum.{Small};
ghost use Rattle.refusal.specs.Outcome.{Answered, done, refused};
ghost use Rattle.refusal.specs.Refusals.{report, number_of, place_of};
ghost use Rattle.steps.specs.Call.{call_outcome, watch_outcome, watch_output};
ghost use Rattle.steps.specs.Machine.{Ready, Went};
ghost use Rattle.steps.specs.ShareBytes.{ZeroPast};
ghost use Rattle.steps.specs.Taken.{handed};
ghost use Rattle.steps.specs.Ciphering.{Cipher, accepted, Right, call_lengths, argument_tests, call_of, output_of};

use crate::counts::Taken;
use crate::drawing::bytes_for;
use crate::machine::{Execution, Machine};
use crate::recording::{Unwatched, Watch};
use crate::share_count::ShareCount;
use refusal::{Refusal, list_fits, refuse_past, refuse_unless};

// A masked operation of a key and a block, by records that are accepted, if it has any. Its random elements have WIDTH bits, and a sharing of a block is
// held in PLACES bytes, those of share 0 first.
pub trait Ciphering<const WIDTH: u32, const PLACES: usize> {
    ghost KEY: { ℕ };

    ghost BLOCK: { ℕ };

    // The operation in the definition's terms.
    ghost cipher: { Self → Cipher };

    // How many bytes a share of a key has. (Of a type with a lifetime no constant is proved to be what a ghost member says.)
    fn key_bytes(&self) -> usize
        ensures { result ≡ KEY };

    // How many bytes a share of a block has.
    fn block_bytes(&self) -> usize
        ensures { result ≡ BLOCK };

    // How many random elements it draws. On so many shares the operation is right: it computes what it is to, and takes its figures.
    fn draw_count(&self, s: ShareCount) -> usize
        ensures draws { result ≡ (cipher self.now).draws s.count }
        ensures right { 0 < s.count → Right (accepted WIDTH KEY BLOCK (cipher self.now) s.count) };

    // How many steps it takes.
    fn step_count(&self, s: ShareCount) -> u32
        ensures { result ≡ (cipher self.now).steps s.count };

    // The shares of the result, of those of a key and of a block: these bytes are what is written. The bytes past them are zero. (A proof knows of an array that
    // it holds bytes, and how many, only where the array is lent as a slice.)
    fn run<M: Machine>(
        &self,
        machine: &mut M,
        s: ShareCount,
        key: &[u8],
        block: &[u8],
    ) -> [u8; PLACES]
        requires lengths { (0 < s.count) × (length key.now ≡ KEY * s.count) × (length block.now ≡ BLOCK * s.count) }
        requires ready { Ready ((cipher self.now).program s.count key.now block.now) (M.state machine.old) }
        requires elements { Small WIDTH (M.state machine.old).tape }
        ensures went { (x : List ℕ) × Went ((cipher self.now).program s.count key.now block.now) (M.state machine.old) x (M.state machine.new)
            × (Small 8 result → BLOCK * s.count ≤ length result → take (BLOCK * s.count) result ≡ (cipher self.now).written s.count x) }
        ensures zero_past { ZeroPast BLOCK s.count result };

    // Keys and blocks are short, and nine shares of a block have places.
    ghost sizes: { (KEY ≤ 16) × (BLOCK ≤ 16) × (PLACES ≡ 9 * BLOCK) };
}

// Whether key, block and random bytes, so many, are what a call on s shares takes, and `fits` holds.
#[tactic(auto, unfolding(crate::specs::Ciphering::call_lengths))]
fn lengths_fit<const WIDTH: u32, const PLACES: usize, C: Ciphering<WIDTH, PLACES>>(
    cipher: &C,
    s: ShareCount,
    key: usize,
    block: usize,
    random: usize,
    fits: bool,
) -> bool
    ensures fits { result ≡ call_lengths (accepted WIDTH C.KEY C.BLOCK (C.cipher cipher.now) s.count) key block random fits }
    ensures right { 0 < s.count → Right (accepted WIDTH C.KEY C.BLOCK (C.cipher cipher.now) s.count) }
{
    let bytes = bytes_for(WIDTH, cipher.draw_count(s));
    key == cipher.key_bytes() * s.count
        && (block == cipher.block_bytes() * s.count && (random == bytes && fits))
}

// The tests of the arguments: they hand on the share count.
// `fits` says whether what is lent for output has its length: all lengths are one test, the last of them another's in a call than in a watch.
fn accept<const WIDTH: u32, const PLACES: usize, C: Ciphering<WIDTH, PLACES>>(
    cipher: &C,
    s: u32,
    key: &[u8],
    block: &[u8],
    random: &[u8],
    fits: bool,
) -> Result<ShareCount, Refusal>
    ensures { MatchResult result
        (λ n. (n.count ≡ s) × (argument_tests (accepted WIDTH C.KEY C.BLOCK (C.cipher cipher.now) s) key.now block.now random.now fits ≡ done [])
        × Right (accepted WIDTH C.KEY C.BLOCK (C.cipher cipher.now) s))
        (λ e. argument_tests (accepted WIDTH C.KEY C.BLOCK (C.cipher cipher.now) s) key.now block.now random.now fits ≡ refused (number_of e) (place_of e)) }
{
    let count = ShareCount::new(s)?;
    refuse_unless(
        lengths_fit(cipher, count, key.len(), block.len(), random.len(), fits),
        Refusal::Length,
    )?;
    Ok(count)
}

// Copies the first bytes out. A proof knows of a slice, and of no array, that it holds bytes.
fn store(shares: &[u8], out: &mut [u8])
    requires { length out.old ≤ length shares.now }
    ensures bytes { Small 8 shares.now }
    ensures copied { out.new ≡ take (length out.old) shares.now }
{
    out.copy_from_slice(&shares[..out.len()]);
}

// The operation: `out` takes the shares of the result. Where it is refused `out` is unchanged. (Call and watch each name their recorder where the run is
// made: the size of an `Execution` at an open recorder is not proved.)
pub fn call<const WIDTH: u32, const PLACES: usize, C: Ciphering<WIDTH, PLACES>>(
    cipher: &C,
    s: u32,
    key: &[u8],
    block: &[u8],
    random: &[u8],
    out: &mut [u8],
) -> Result<Taken, Refusal>
    ensures { Answered
        (call_outcome (call_of (accepted WIDTH C.KEY C.BLOCK (C.cipher cipher.now) s) key.now block.now random.now) (eqb (length out.old) (C.BLOCK * s)))
        (output_of (accepted WIDTH C.KEY C.BLOCK (C.cipher cipher.now) s) key.now block.now random.now)
        out.old (report handed result) out.new }
{
    let fits = out.len() == cipher.block_bytes() * s as usize;
    let count = accept(cipher, s, key, block, random, fits)?;
    let mut machine = Execution::<WIDTH, Unwatched>::new(random, Unwatched);
    let shares = cipher.run(&mut machine, count, key, block);
    store(&shares, out);
    Ok(machine.counts.taken(WIDTH))
}

// The operation under a watch: value k is what the step whose number stands at place k of the list records. Where it is refused `values` is unchanged.
pub fn watch<const WIDTH: u32, const PLACES: usize, C: Ciphering<WIDTH, PLACES>>(
    cipher: &C,
    s: u32,
    key: &[u8],
    block: &[u8],
    random: &[u8],
    list: &[u32],
    values: &mut [u8],
) -> Result<Taken, Refusal>
    ensures { Answered
        (watch_outcome (call_of (accepted WIDTH C.KEY C.BLOCK (C.cipher cipher.now) s) key.now block.now random.now) list.now (length values.old))
        (watch_output (call_of (accepted WIDTH C.KEY C.BLOCK (C.cipher cipher.now) s) key.now block.now random.now) list.now)
        values.old (report handed result) values.new }
{
    let fits = list_fits(list.len(), values.len());
    let count = accept(cipher, s, key, block, random, fits)?;
    refuse_past(cipher.step_count(count), list)?;
    // Without numbers nobody watches, and no step asks a recorder.
    if list.is_empty() {
        let mut unwatched = Execution::<WIDTH, Unwatched>::new(random, Unwatched);
        cipher.run(&mut unwatched, count, key, block);
        return Ok(unwatched.counts.taken(WIDTH));
    }
    let mut machine = Execution::<WIDTH, Watch>::new(random, Watch::new(list));
    cipher.run(&mut machine, count, key, block);
    machine.recorder.copy_to(values);
    Ok(machine.counts.taken(WIDTH))
}
