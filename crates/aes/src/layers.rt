// The layers of the cipher, on strings of bytes in shares: each is made place by place, and recorded. What a closure asks of the numbers that it captures
// it has to say itself, and so do the functions here that make closures; a place in a string, a word and a round of the cipher are numbers of loops.
ghost use Rattle.std.specs.Prelude.{◌≡◌, [], ◌*◌, ◌≤◌, ◌<◌};
ghost use Rattle.xor.specs.Xor.{◌⊕◌};
ghost use Rattle.field.specs.Mul.{mul};
ghost use Rattle.steps.specs.Machine.{Ready, Went};
ghost use Rattle.rijndael.specs.Strings.{place_of, record_string, make_shares};
ghost use Rattle.rijndael.specs.Rijndael.{shift_byte, mix_byte, key_byte, rot_byte, word_byte};
ghost use Rattle.rijndael.specs.Masked.{masked_shift_rows, masked_mix_columns, masked_add_round_key, masked_rot_word};

use crate::parts::{BlockShares, ScheduleShares, WordShares, make_shares};
use crate::recording::recorded;
use field::{Field, Gf256};
use steps::ShareCount;
use steps::machine::Machine;

// The number of a round key that the key expansion makes; round key 0 is the key itself.
#[derive(Clone, Copy)]
pub struct KeyNumber {
    pub number: usize,
    pub ghost made: { (0 < number) × (number < 11) },
}

// ShiftRows.
#[tactic(auto, using(crate::proofs::Places::shift_place))]
pub fn shift_rows<M: Machine>(machine: &mut M, s: ShareCount, a: &BlockShares) -> BlockShares
    requires { Ready (masked_shift_rows s.count a.now) (M.state machine.old) }
    ensures { Went (masked_shift_rows s.count a.now) (M.state machine.old) result (M.state machine.new) }
{
    let shifted = |p: usize|
        requires { p < 144 }
        ensures { result ≡ place_of 16 0 16 shift_byte a.entry.now [] p }
    { a[p / 16 * 16 + (p % 4 + 4 * ((p / 4 + p % 4) % 4))] };
    recorded(machine, s, make_shares(s, shifted))
}

// A byte of MixColumns: 2 times a byte, 3 times the next one of its column, and the other two.
#[tactic(auto, using(crate::proofs::Places::mixture))]
fn mixture(first: u8, second: u8, third: u8, fourth: u8) -> u8
    ensures { result ≡ mul 8 2 first ⊕ mul 8 3 second ⊕ third ⊕ fourth }
{
    Gf256::double(first) ^ (Gf256::double(second) ^ second) ^ third ^ fourth
}

// MixColumns.
#[tactic(auto, using(crate::proofs::Places::mix_place))]
pub fn mix_columns<M: Machine>(machine: &mut M, s: ShareCount, a: &BlockShares) -> BlockShares
    requires { Ready (masked_mix_columns s.count a.now) (M.state machine.old) }
    ensures { Went (masked_mix_columns s.count a.now) (M.state machine.old) result (M.state machine.new) }
{
    let mixed = |p: usize|
        requires { p < 144 }
        ensures { result ≡ place_of 16 0 16 mix_byte a.entry.now [] p }
    {
        let column = p / 4 * 4;
        mixture(
            a[p],
            a[column + (p + 1) % 4],
            a[column + (p + 2) % 4],
            a[column + (p + 3) % 4],
        )
    };
    recorded(machine, s, make_shares(s, mixed))
}

// AddRoundKey, with round key r of the key schedule w.
#[tactic(auto, using(crate::proofs::Places::key_place))]
pub fn add_round_key<M: Machine>(
    machine: &mut M,
    s: ShareCount,
    r: usize,
    w: &ScheduleShares,
    a: &BlockShares,
) -> BlockShares
    requires r_bound { r < 11 }
    requires ready { Ready (masked_add_round_key s.count r w.now a.now) (M.state machine.old) }
    ensures { Went (masked_add_round_key s.count r w.now a.now) (M.state machine.old) result (M.state machine.new) }
{
    let keyed = |p: usize|
        requires { (r < 11) × (p < 144) }
        ensures { result ≡ place_of 16 176 16 (key_byte r) a.entry.now w.entry.now p }
    { a[p] ^ w[p / 16 * 176 + (16 * r + p % 16)] };
    recorded(machine, s, make_shares(s, keyed))
}

// RotWord of the last word before round key r.
#[tactic(auto, using(crate::proofs::Places::rot_place))]
pub fn rot_word<M: Machine>(
    machine: &mut M,
    s: ShareCount,
    r: KeyNumber,
    w: &ScheduleShares,
) -> WordShares
    requires { Ready (masked_rot_word s.count r.number w.now) (M.state machine.old) }
    ensures { Went (masked_rot_word s.count r.number w.now) (M.state machine.old) result (M.state machine.new) }
{
    let r = r.number;
    let rotated = |p: usize|
        requires { (0 < r) × (r < 11) × (p < 36) }
        ensures { result ≡ place_of 176 0 4 (rot_byte r) w.entry.now [] p }
    { w[p / 4 * 176 + (16 * r - 4 + (p + 1) % 4)] };
    recorded(machine, s, make_shares(s, rotated))
}

// Word i of the key schedule w: word i - 4 plus temp.
#[tactic(auto, using(crate::proofs::Places::word_place))]
pub fn add_word<M: Machine>(
    machine: &mut M,
    s: ShareCount,
    i: usize,
    w: &ScheduleShares,
    temp: &WordShares,
) -> WordShares
    requires i_bound { (4 ≤ i) × (i < 44) }
    requires ready { Ready (record_string 4 s.count (make_shares s.count 176 4 4 (word_byte i) w.now temp.now)) (M.state machine.old) }
    ensures { Went (record_string 4 s.count (make_shares s.count 176 4 4 (word_byte i) w.now temp.now)) (M.state machine.old) result (M.state machine.new) }
{
    let word = |p: usize|
        requires { (4 ≤ i) × (i < 44) × (p < 36) }
        ensures { result ≡ place_of 176 4 4 (word_byte i) w.entry.now temp.entry.now p }
    { w[p / 4 * 176 + (4 * i - 16 + p % 4)] ^ temp[p] };
    recorded(machine, s, make_shares(s, word))
}
