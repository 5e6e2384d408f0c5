// The masked key expansion. The key schedule is a string of 176 bytes in shares.
ghost use Rattle.std.specs.Prelude.{◌≡◌, ◌+◌, ◌*◌, ◌≤◌, ◌<◌};
ghost use Rattle.field.specs.Power.{pow};
ghost use Rattle.steps.specs.Program.{for};
ghost use Rattle.steps.specs.Machine.{Ready, Went};
ghost use Rattle.rijndael.specs.Masked.{masked_rcon, masked_new_word, masked_next_key, masked_key_expansion};
ghost use Rattle.aes.specs.Sbox as spec;
ghost use Rattle.aes.specs.Rounds.{expanding_in};

use crate::layers::{KeyNumber, add_word, rot_word};
use crate::parts::{BlockShares, ScheduleShares, WordShares, put_shares};
use crate::substitution::sub_bytes;
use field::{Field, Gf256};
use steps::ShareCount;
use steps::machine::Machine;

// The element 2 to the power e, by doubling: the first byte of a round constant.
fn power_of_two(e: u8) -> u8
    ensures { result ≡ pow 8 2 e }
{
    let mut power = 1;
    for _i in 0..e {
        power = Gf256::double(power);
    }
    power
}

// Rcon of round key r is added to share 0.
fn add_rcon<M: Machine>(machine: &mut M, r: KeyNumber, t: &mut WordShares)
    requires { Ready (masked_rcon r.number t.old) (M.state machine.old) }
    ensures { Went (masked_rcon r.number t.old) (M.state machine.old) t.new (M.state machine.new) }
{
    let e = (r.number - 1) as u8;
    let v = t[0] ^ power_of_two(e);
    machine.record(v);
    t[0] = v;
}

// Word i, made with temp, which it then is.
fn new_word<M: Machine>(
    machine: &mut M,
    s: ShareCount,
    i: usize,
    w: &mut ScheduleShares,
    temp: &mut WordShares,
)
    requires i_bound { (4 ≤ i) × (i < 44) }
    requires ready { Ready (masked_new_word s.count i (expanding_in w.old temp.old)) (M.state machine.old) }
    ensures { Went (masked_new_word s.count i (expanding_in w.old temp.old)) (M.state machine.old) (expanding_in w.new temp.new) (M.state machine.new) }
{
    let word = add_word(machine, s, i, w, temp);
    put_shares(s, 4 * i, &word, w);
    *temp = word;
}

// The four words of round key r, the first made with temp.
fn new_words<M: Machine>(
    machine: &mut M,
    s: ShareCount,
    r: KeyNumber,
    w: &mut ScheduleShares,
    temp: &mut WordShares,
)
    requires { Ready (for 0 4 (λ t. masked_new_word s.count (4 * r.number + t)) (expanding_in w.old temp.old)) (M.state machine.old) }
    ensures { Went (for 0 4 (λ t. masked_new_word s.count (4 * r.number + t)) (expanding_in w.old temp.old)) (M.state machine.old) (expanding_in w.new temp.new) (M.state machine.new) }
{
    for k in 0..4 {
        new_word(machine, s, 4 * r.number + k, w, temp);
    }
}

// Round key r.
fn next_key<M: Machine>(machine: &mut M, s: ShareCount, r: KeyNumber, w: &mut ScheduleShares)
    requires { Ready (masked_next_key (spec.sbox s.count) s.count r.number w.old) (M.state machine.old) }
    ensures { Went (masked_next_key (spec.sbox s.count) s.count r.number w.old) (M.state machine.old) w.new (M.state machine.new) }
{
    let mut temp = rot_word(machine, s, r, w);
    sub_bytes(machine, s, &mut temp);
    add_rcon(machine, r, &mut temp);
    new_words(machine, s, r, w, &mut temp);
}

// Round keys 1 to 10.
fn next_keys<M: Machine>(machine: &mut M, s: ShareCount, w: &mut ScheduleShares)
    requires { Ready (for 1 11 (masked_next_key (spec.sbox s.count) s.count) w.old) (M.state machine.old) }
    ensures { Went (for 1 11 (masked_next_key (spec.sbox s.count) s.count) w.old) (M.state machine.old) w.new (M.state machine.new) }
{
    for r in 1..11 {
        next_key(machine, s, KeyNumber { number: r }, w);
    }
}

// KeyExpansion: the key schedule of a key.
pub fn expand<M: Machine>(machine: &mut M, s: ShareCount, key: &BlockShares) -> ScheduleShares
    requires { Ready (masked_key_expansion (spec.sbox s.count) s.count key.now) (M.state machine.old) }
    ensures { Went (masked_key_expansion (spec.sbox s.count) s.count key.now) (M.state machine.old) result (M.state machine.new) }
{
    let mut w = [0u8; 1584];
    put_shares(s, 0, key, &mut w);
    next_keys(machine, s, &mut w);
    w
}
