// The masked S-box on the nibbles of a block and of a key.
ghost use Rattle.std.specs.Prelude.{◌≡◌, [], ◌*◌, ◌<◌, ◌≤◌, length, IfOk};
ghost use Rattle.xor.specs.Sum.{Small};
ghost use Rattle.refusal.specs.Refusals.{report};
ghost use Rattle.decomposition.specs.Layout.{layout};
ghost use Rattle.decomposition.specs.Record.{coefficients_of};
ghost use Rattle.cipher.specs.Ciphering.{record_tests};
ghost use Rattle.steps.specs.Machine.{Went};
ghost use Rattle.steps.specs.ShareBytes.{sharing, KeptPast};
ghost use Rattle.present.specs.Masked.{masked_nibble, masked_sbox_layer};

use crate::linear_parts::{BlockShares, NonZeroCount};
use decomposition::{Record, read};
use refusal::{Refusal, refuse_unless};
use steps::machine::Machine;

// The S-box of a record of four bits in and four out.
#[derive(Clone, Copy)]
pub struct NibbleBox<'a> {
    pub record: Record<'a>,
    pub ghost four: { record.layout ≡ layout 4 4 },
    pub ghost small: { Small 4 record.coefficients.now },
}

impl<'a> NibbleBox<'a> {
    ghost use Rattle.cipher.specs.Rounds.{sbox_of, Prepared};

    // The S-box of a record of the table. Refused: as Read; 1 width 6; 6 another table. The last is no test of its own: its other arm hands back the box.
    pub fn of(table: &[u8; 16], bytes: &'a [u8]) -> Result<NibbleBox<'a>, Refusal>
        ensures outcome { report (λ _. []) result ≡ record_tests table.now bytes.now }
        ensures coefficients { IfOk result (λ b. b.record.coefficients.now ≡ coefficients_of bytes.now) }
    {
        let record = read(bytes)?;
        refuse_unless(record.layout.width == 4, Refusal::Width)?;
        match record.first_difference(table) {
            Some(_) => Err(Refusal::Table),
            None => Ok(NibbleBox { record }),
        }
    }

    // The S-box on nibble k of each share, of w bytes. Bytes past the shares in use are kept.
    pub fn substitute<M: Machine>(
        &self,
        machine: &mut M,
        s: NonZeroCount,
        w: usize,
        k: usize,
        l: &mut [u8],
    )
        requires in_bounds { (k < 2 * w) × (w * s.shares.count ≤ length l.old) }
        requires prepared { Prepared (masked_nibble (sbox_of self.now s.shares.count) k (sharing w s.shares.count l.old)) (M.state machine.old) }
        ensures went { Went (masked_nibble (sbox_of self.now s.shares.count) k (sharing w s.shares.count l.old)) (M.state machine.old)
            (sharing w s.shares.count l.new) (M.state machine.new) }
        ensures kept_past { KeptPast w s.shares.count l.old l.new }
    {
        let x = layers::column(w, s.shares, k, l);
        let y = sbox::run(
            machine,
            s.shares,
            &self.record.layout,
            self.record.coefficients,
            &x,
        );
        layers::replace_column(w, s.shares, k, &y, l);
    }

    // The S-box on nibbles 0 to 15 of a block. Bytes past the shares in use are kept.
    pub fn substitute_block<M: Machine>(
        &self,
        machine: &mut M,
        s: NonZeroCount,
        block: &mut BlockShares,
    )
        requires { Prepared (masked_sbox_layer (sbox_of self.now s.shares.count) (sharing 8 s.shares.count block.old)) (M.state machine.old) }
        ensures went { Went (masked_sbox_layer (sbox_of self.now s.shares.count) (sharing 8 s.shares.count block.old)) (M.state machine.old)
            (sharing 8 s.shares.count block.new) (M.state machine.new) }
        ensures kept_past { KeptPast 8 s.shares.count block.old block.new }
    {
        for k in 0..16 {
            self.substitute(machine, s, 8, k, block);
        }
    }
}
