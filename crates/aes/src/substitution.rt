// SubBytes and SubWord: the S-box on the bytes of strings.
ghost use Rattle.std.specs.Prelude.{◌/◌, ◌<◌};
ghost use Rattle.steps.specs.Machine.{Ready, Went};
ghost use Rattle.rijndael.specs.Masked.{masked_sub_byte, masked_sub_bytes};
ghost use Rattle.aes.specs.Sbox as spec;

use crate::inversion::sbox;
use crate::parts::{put_shares, take_byte};
use steps::ShareCount;
use steps::machine::Machine;

// The S-box on byte j of a string of N / 9 bytes; j is the number of a loop, and its bound that of the string.
fn sub_byte<const N: usize, M: Machine>(machine: &mut M, s: ShareCount, j: usize, a: &mut [u8; N])
    requires j_bound { j < N / 9 }
    requires ready { Ready (masked_sub_byte (spec.sbox s.count) (N / 9) s.count j a.old) (M.state machine.old) }
    ensures { Went (masked_sub_byte (spec.sbox s.count) (N / 9) s.count j a.old) (M.state machine.old) a.new (M.state machine.new) }
{
    let x = take_byte(s, j, a);
    let y = sbox(machine, s, &x);
    put_shares(s, j, &y, a);
}

// The S-box on each byte of a string of N / 9 bytes, byte 0 first: SubBytes of a state, and SubWord of a word.
pub fn sub_bytes<const N: usize, M: Machine>(machine: &mut M, s: ShareCount, a: &mut [u8; N])
    requires { Ready (masked_sub_bytes (spec.sbox s.count) (N / 9) s.count a.old) (M.state machine.old) }
    ensures { Went (masked_sub_bytes (spec.sbox s.count) (N / 9) s.count a.old) (M.state machine.old) a.new (M.state machine.new) }
{
    for j in 0..N / 9 {
        sub_byte(machine, s, j, a);
    }
}
