// The operations Block and Watch block.
ghost use Rattle.std.specs.Prelude.{◌≡◌, [], length, IfOk};
ghost use Rattle.std.proofs.Common.{rules};
ghost use Rattle.refusal.specs.Outcome.{Answered};
ghost use Rattle.refusal.specs.Refusals.{report};
ghost use Rattle.steps.specs.Taken.{handed};
ghost use Rattle.decomposition.specs.Record.{coefficients_of};
ghost use Rattle.present.specs.Present.{table};
ghost use Rattle.cipher.specs.Ciphering.{Realizes, record_tests, on_bytes};
ghost use Rattle.cipher.specs.Operations.{sealed, block_outcome, block_output, watch_outcome, watch_output};

use crate::figures::block_counts;
use crate::linear_parts::{BlockShares, add_round_key};
use crate::nibble_box::NibbleBox;
use crate::rounds::RoundState;
use refusal::Refusal;
use steps::calling::{Ciphering, call, watch};
use steps::machine::Machine;
use steps::{ShareCount, Taken};

// The table of PRESENT's S-box.
pub const TABLE: [u8; 16] = [12, 5, 6, 11, 9, 0, 10, 13, 3, 14, 15, 8, 4, 7, 1, 2];

// Masked encryption, by a record of the table.
#[derive(Clone, Copy)]
pub struct Sealing<'a> {
    pub nibble_box: NibbleBox<'a>,
    pub ghost realizes: { Realizes table nibble_box.record.coefficients.now },
}

impl<'a> Sealing<'a> {
    // The tests of the record.
    pub fn new(bytes: &'a [u8]) -> Result<Sealing<'a>, Refusal>
        ensures outcome { report (λ _. []) result ≡ record_tests table bytes.now }
        ensures coefficients { IfOk result (λ x. x.nibble_box.record.coefficients.now ≡ coefficients_of bytes.now) }
    {
        let table = TABLE;
        let nibble_box = NibbleBox::of(&table, bytes)?;
        Ok(Sealing { nibble_box })
    }
}

impl Ciphering<4, 72> for Sealing<'_> {
    ghost KEY = { 10 };

    ghost BLOCK = { 8 };

    ghost cipher = { λ x. on_bytes (sealed x.nibble_box.record.coefficients.now) };

    fn key_bytes(&self) -> usize {
        10
    }

    fn block_bytes(&self) -> usize {
        8
    }

    fn draw_count(&self, s: ShareCount) -> usize {
        block_counts(s).random
    }

    fn step_count(&self, s: ShareCount) -> u32 {
        block_counts(s).steps
    }

    fn run<M: Machine>(
        &self,
        machine: &mut M,
        s: ShareCount,
        key: &[u8],
        block: &[u8],
    ) -> BlockShares {
        let mut loaded = RoundState::load(s, key, block);
        let state = &mut loaded;
        state.rounds(machine, &self.nibble_box);
        add_round_key(machine, s, &state.key, &mut state.block);
        state.block
    }

    ghost sizes = { Prim.search rules };
}

// The masked block of s shares, 1 to 9, of a key and of a block, by a record of PRESENT's S-box. `out` takes the shares of the result.
// It hands back how many masked products, random bytes and steps it took.
// Refused: as Read; 1 width 6; 6 another table; 7 share count; 2 a length; 3 a random element too large. Then `out` is unchanged.
pub fn block(
    rec: &[u8],
    s: u32,
    key: &[u8],
    block: &[u8],
    random: &[u8],
    out: &mut [u8],
) -> Result<Taken, Refusal>
    ensures { Answered
        (block_outcome rec.now s key.now block.now random.now (length out.old))
        (block_output rec.now s key.now block.now random.now)
        out.old (report handed result) out.new }
{
    call(&Sealing::new(rec)?, s, key, block, random, out)
}

// The masked block under a watch: value k is what the step whose number stands at place k of the list records.
// It hands back how many masked products, random bytes and steps it took.
// Refused: as Block; 2 also for lengths of list and values that differ, or over 64 numbers; last 8, a number that is not a step's.
// Then `values` is unchanged.
pub fn watch_block(
    rec: &[u8],
    s: u32,
    key: &[u8],
    block: &[u8],
    random: &[u8],
    list: &[u32],
    values: &mut [u8],
) -> Result<Taken, Refusal>
    ensures { Answered
        (watch_outcome rec.now s key.now block.now random.now list.now (length values.old))
        (watch_output rec.now s key.now block.now random.now list.now)
        values.old (report handed result) values.new }
{
    watch(&Sealing::new(rec)?, s, key, block, random, list, values)
}
