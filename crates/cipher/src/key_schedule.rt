// The key updates of a masked block and of a masked opening. Bytes past the shares in use are kept.
ghost use Rattle.steps.specs.Program.{for};
ghost use Rattle.steps.specs.Machine.{Went};
ghost use Rattle.steps.specs.ShareBytes.{sharing, KeptPast};
ghost use Rattle.present.specs.Present.{size80};
ghost use Rattle.present.specs.Masked.{masked_update};
ghost use Rattle.present.specs.Opening.{masked_undo_update};
ghost use Rattle.cipher.specs.Rounds.{sbox_of, Prepared};

use crate::linear_parts::{KeyShares, NonZeroCount, linear_map, round_number};
use crate::nibble_box::NibbleBox;
use layers::{InverseRotation, Rotation, Round};
use steps::machine::Machine;

// The key update of round r.
pub fn update_key<M: Machine>(
    machine: &mut M,
    nibble_box: &NibbleBox<'_>,
    s: NonZeroCount,
    r: Round,
    key: &mut KeyShares,
)
    requires { Prepared (masked_update (sbox_of nibble_box.now s.shares.count) size80 s.shares.count r.number (sharing 10 s.shares.count key.old))
        (M.state machine.old) }
    ensures went { Went (masked_update (sbox_of nibble_box.now s.shares.count) size80 s.shares.count r.number (sharing 10 s.shares.count key.old))
        (M.state machine.old) (sharing 10 s.shares.count key.new) (M.state machine.new) }
    ensures kept_past { KeptPast 10 s.shares.count key.old key.new }
{
    linear_map::<Rotation, M>(machine, s.shares, &mut *key);
    nibble_box.substitute(machine, s, 10, 19, &mut *key);
    round_number(machine, s, r, key);
}

// The key updates of rounds 1 to 31, by the S-box.
pub fn run_key<M: Machine>(
    machine: &mut M,
    nibble_box: &NibbleBox<'_>,
    s: NonZeroCount,
    key: &mut KeyShares,
)
    requires { Prepared (for 1 32 (masked_update (sbox_of nibble_box.now s.shares.count) size80 s.shares.count) (sharing 10 s.shares.count key.old))
        (M.state machine.old) }
    ensures went { Went (for 1 32 (masked_update (sbox_of nibble_box.now s.shares.count) size80 s.shares.count) (sharing 10 s.shares.count key.old))
        (M.state machine.old) (sharing 10 s.shares.count key.new) (M.state machine.new) }
    ensures kept_past { KeptPast 10 s.shares.count key.old key.new }
{
    for r in 1..32 {
        update_key(machine, nibble_box, s, Round { number: r }, key);
    }
}

// The key update of round r undone, from its last part to its first, by the inverse S-box: other parts in another order, as the definition has them.
pub fn undo_update<M: Machine>(
    machine: &mut M,
    inverse: &NibbleBox<'_>,
    s: NonZeroCount,
    r: Round,
    key: &mut KeyShares,
)
    requires { Prepared (masked_undo_update (sbox_of inverse.now s.shares.count) size80 s.shares.count r.number (sharing 10 s.shares.count key.old))
        (M.state machine.old) }
    ensures went { Went (masked_undo_update (sbox_of inverse.now s.shares.count) size80 s.shares.count r.number (sharing 10 s.shares.count key.old))
        (M.state machine.old) (sharing 10 s.shares.count key.new) (M.state machine.new) }
    ensures kept_past { KeptPast 10 s.shares.count key.old key.new }
{
    round_number(machine, s, r, &mut *key);
    inverse.substitute(machine, s, 10, 19, &mut *key);
    linear_map::<InverseRotation, M>(machine, s.shares, key);
}
