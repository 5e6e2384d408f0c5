// The recording of strings of bytes.
ghost use Rattle.std.specs.Prelude.{◌/◌};
ghost use Rattle.steps.specs.Machine.{Ready, Went};
ghost use Rattle.rijndael.specs.Strings.{record_string};

use steps::ShareCount;
use steps::machine::Machine;

// Records the bytes of a string of N / 9 bytes in s shares, share by share, byte 0 first, and hands the string on.
pub fn recorded<const N: usize, M: Machine>(machine: &mut M, s: ShareCount, a: [u8; N]) -> [u8; N]
    requires { Ready (record_string (N / 9) s.count a) (M.state machine.old) }
    ensures { Went (record_string (N / 9) s.count a.entry) (M.state machine.old) result (M.state machine.new) }
{
    machine.record_all(&a[..s.count * (N / 9)]);
    a
}
