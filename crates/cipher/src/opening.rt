// The operations Open and Watch open.
ghost use Rattle.std.specs.Prelude.{◌≡◌, [], length, IfOk};
ghost use Rattle.std.proofs.Common.{rules};
ghost use Rattle.refusal.specs.Outcome.{Answered};
ghost use Rattle.refusal.specs.Refusals.{report};
ghost use Rattle.steps.specs.Taken.{handed};
ghost use Rattle.decomposition.specs.Record.{coefficients_of};
ghost use Rattle.present.specs.Present.{table};
ghost use Rattle.present.specs.Decrypt.{inverse_table};
ghost use Rattle.cipher.specs.Ciphering.{Realizes, on_bytes};
ghost use Rattle.cipher.specs.OpenOperations.{both_tests, opened, open_outcome, open_output, watch_open_outcome, watch_open_output};

use crate::enciphering::Sealing;
use crate::figures::open_counts;
use crate::key_schedule::run_key;
use crate::linear_parts::{BlockShares, add_round_key};
use crate::nibble_box::NibbleBox;
use crate::rounds::RoundState;
use refusal::Refusal;
use steps::calling::{Ciphering, call, watch};
use steps::machine::Machine;
use steps::{ShareCount, Taken};

// The table of the inverse S-box.
pub const INVERSE: [u8; 16] = [5, 14, 15, 8, 12, 1, 2, 13, 11, 4, 6, 3, 0, 7, 9, 10];

// Masked decryption, by a record of the table, for the key, and one of the inverse table.
#[derive(Clone, Copy)]
pub struct Opening<'a> {
    pub sealing: Sealing<'a>,
    pub inverse: NibbleBox<'a>,
    pub ghost realizes: { Realizes inverse_table inverse.record.coefficients.now },
}

impl<'a> Opening<'a> {
    // The tests of the two records.
    pub fn new(bytes: &'a [u8], inverse: &'a [u8]) -> Result<Opening<'a>, Refusal>
        ensures outcome { report (λ _. []) result ≡ both_tests bytes.now inverse.now }
        ensures coefficients { IfOk result (λ x. (x.sealing.nibble_box.record.coefficients.now ≡ coefficients_of bytes.now)
            × (x.inverse.record.coefficients.now ≡ coefficients_of inverse.now)) }
    {
        let sealing = Sealing::new(bytes)?;
        let table = INVERSE;
        let inverse = NibbleBox::of(&table, inverse)?;
        Ok(Opening { sealing, inverse })
    }
}

impl Ciphering<4, 72> for Opening<'_> {
    ghost KEY = { 10 };

    ghost BLOCK = { 8 };

    ghost cipher = { λ x. on_bytes (opened x.sealing.nibble_box.record.coefficients.now x.inverse.record.coefficients.now) };

    fn key_bytes(&self) -> usize {
        10
    }

    fn block_bytes(&self) -> usize {
        8
    }

    fn draw_count(&self, s: ShareCount) -> usize {
        open_counts(s).random
    }

    fn step_count(&self, s: ShareCount) -> u32 {
        open_counts(s).steps
    }

    fn run<M: Machine>(
        &self,
        machine: &mut M,
        s: ShareCount,
        key: &[u8],
        block: &[u8],
    ) -> BlockShares {
        let mut loaded = RoundState::load(s, key, block);
        let state = &mut loaded;
        run_key(
            machine,
            &self.sealing.nibble_box,
            state.count,
            &mut state.key,
        );
        add_round_key(machine, s, &state.key, &mut state.block);
        state.undo_rounds(machine, &self.inverse);
        state.block
    }

    ghost sizes = { Prim.search rules };
}

// The masked opening of s shares, 1 to 9, of a key and of a block, by a record of PRESENT's S-box and one of its inverse. `out` takes the shares of the
// result. It hands back how many masked products, random bytes and steps it took.
// Refused: the first record as in Block; then the second by the same rules; 7 share count; 2 a length. Then `out` is unchanged.
pub fn open(
    rec: &[u8],
    inverse: &[u8],
    s: u32,
    key: &[u8],
    block: &[u8],
    random: &[u8],
    out: &mut [u8],
) -> Result<Taken, Refusal>
    ensures { Answered
        (open_outcome rec.now inverse.now s key.now block.now random.now (length out.old))
        (open_output rec.now inverse.now s key.now block.now random.now)
        out.old (report handed result) out.new }
{
    call(&Opening::new(rec, inverse)?, s, key, block, random, out)
}

// The masked opening under a watch: value k is what the step whose number stands at place k of the list records.
// It hands back how many masked products, random bytes and steps it took.
// Refused: as Open; 2 also for lengths of list and values that differ, or over 64 numbers; last 8, a number that is not a step's.
// Then `values` is unchanged.
pub fn watch_open(
    rec: &[u8],
    inverse: &[u8],
    s: u32,
    key: &[u8],
    block: &[u8],
    random: &[u8],
    list: &[u32],
    values: &mut [u8],
) -> Result<Taken, Refusal>
    ensures { Answered
        (watch_open_outcome rec.now inverse.now s key.now block.now random.now list.now (length values.old))
        (watch_open_output rec.now inverse.now s key.now block.now random.now list.now)
        values.old (report handed result) values.new }
{
    watch(
        &Opening::new(rec, inverse)?,
        s,
        key,
        block,
        random,
        list,
        values,
    )
}
