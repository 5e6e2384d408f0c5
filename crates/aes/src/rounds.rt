// The rounds of a masked block, under a key schedule.
ghost use Rattle.std.specs.Prelude.{◌<◌};
ghost use Rattle.steps.specs.Program.{for};
ghost use Rattle.steps.specs.Machine.{Ready, Went};
ghost use Rattle.rijndael.specs.Masked.{masked_round, masked_last_round, masked_cipher};
ghost use Rattle.aes.specs.Sbox as spec;

use crate::layers::{add_round_key, mix_columns, shift_rows};
use crate::parts::{BlockShares, ScheduleShares};
use crate::substitution::sub_bytes;
use steps::ShareCount;
use steps::machine::Machine;

// A round of the state, 1 to 9 in the cipher: of its number only that a round key has it is asked.
fn round<M: Machine>(
    machine: &mut M,
    s: ShareCount,
    w: &ScheduleShares,
    r: usize,
    state: &mut BlockShares,
)
    requires r_bound { r < 11 }
    requires ready { Ready (masked_round (spec.sbox s.count) s.count w.now r state.old) (M.state machine.old) }
    ensures { Went (masked_round (spec.sbox s.count) s.count w.now r state.old) (M.state machine.old) state.new (M.state machine.new) }
{
    sub_bytes(machine, s, state);
    let shifted = shift_rows(machine, s, state);
    let mixed = mix_columns(machine, s, &shifted);
    *state = add_round_key(machine, s, r, w, &mixed);
}

// Rounds 1 to 9.
fn rounds<M: Machine>(machine: &mut M, s: ShareCount, w: &ScheduleShares, state: &mut BlockShares)
    requires { Ready (for 1 10 (masked_round (spec.sbox s.count) s.count w.now) state.old) (M.state machine.old) }
    ensures { Went (for 1 10 (masked_round (spec.sbox s.count) s.count w.now) state.old) (M.state machine.old) state.new (M.state machine.new) }
{
    for r in 1..10 {
        round(machine, s, w, r, state);
    }
}

// Round 10, without MixColumns.
fn last_round<M: Machine>(
    machine: &mut M,
    s: ShareCount,
    w: &ScheduleShares,
    state: &mut BlockShares,
) -> BlockShares
    requires { Ready (masked_last_round (spec.sbox s.count) s.count w.now state.old) (M.state machine.old) }
    ensures { Went (masked_last_round (spec.sbox s.count) s.count w.now state.old) (M.state machine.old) result (M.state machine.new) }
{
    sub_bytes(machine, s, state);
    let shifted = shift_rows(machine, s, state);
    add_round_key(machine, s, 10, w, &shifted)
}

// Cipher: AddRoundKey, rounds 1 to 9, and round 10.
pub fn cipher<M: Machine>(
    machine: &mut M,
    s: ShareCount,
    w: &ScheduleShares,
    block: &BlockShares,
) -> BlockShares
    requires { Ready (masked_cipher (spec.sbox s.count) s.count w.now block.now) (M.state machine.old) }
    ensures { Went (masked_cipher (spec.sbox s.count) s.count w.now block.now) (M.state machine.old) result (M.state machine.new) }
{
    let mut state = add_round_key(machine, s, 0, w, block);
    rounds(machine, s, w, &mut state);
    last_round(machine, s, w, &mut state)
}
