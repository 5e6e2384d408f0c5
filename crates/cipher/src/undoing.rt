// The rounds of a masked opening. A round undone has other parts than a round, in another order, as its definition has them: no constant tells the two
// apart, and so it is with their key updates.
ghost use Rattle.std.specs.Prelude.{◌≡◌};
ghost use Rattle.steps.specs.Machine.{Went};
ghost use Rattle.present.specs.Present.{size80};
ghost use Rattle.present.specs.Opening.{for_back, masked_undo_round};
ghost use Rattle.cipher.specs.Rounds.{sbox_of, sharings, Prepared};

use crate::key_schedule::undo_update;
use crate::linear_parts::{add_round_key, linear_map};
use crate::nibble_box::NibbleBox;
use crate::rounds::RoundState;
use layers::{InversePermutation, Round};
use steps::machine::Machine;

impl RoundState {
    // Round r undone, by the inverse S-box.
    pub fn undo_round<M: Machine>(&mut self, machine: &mut M, inverse: &NibbleBox<'_>, r: Round)
        requires { Prepared (masked_undo_round (sbox_of inverse.now self.old.count.shares.count) size80 self.old.count.shares.count r.number (sharings self.old))
            (M.state machine.old) }
        ensures went { Went (masked_undo_round (sbox_of inverse.now self.old.count.shares.count) size80 self.old.count.shares.count r.number (sharings self.old))
            (M.state machine.old) (sharings self.new) (M.state machine.new) }
        ensures same_count { self.new.count ≡ self.old.count }
    {
        let s = self.count;
        linear_map::<InversePermutation, M>(machine, s.shares, &mut self.block);
        inverse.substitute_block(machine, s, &mut self.block);
        undo_update(machine, inverse, s, r, &mut self.key);
        add_round_key(machine, s.shares, &self.key, &mut self.block);
    }

    // Rounds 31 to 1 undone.
    pub fn undo_rounds<M: Machine>(&mut self, machine: &mut M, inverse: &NibbleBox<'_>)
        requires { Prepared (for_back 1 32 (masked_undo_round (sbox_of inverse.now self.old.count.shares.count) size80 self.old.count.shares.count) (sharings self.old))
            (M.state machine.old) }
        ensures went { Went (for_back 1 32 (masked_undo_round (sbox_of inverse.now self.old.count.shares.count) size80 self.old.count.shares.count) (sharings self.old))
            (M.state machine.old) (sharings self.new) (M.state machine.new) }
        ensures same_count { self.new.count ≡ self.old.count }
    {
        for r in (1..32).rev() {
            self.undo_round(machine, inverse, Round { number: r });
        }
    }
}
