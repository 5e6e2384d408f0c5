// The masked S-box, on sharings of a byte.
ghost use Rattle.std.specs.Prelude.{◌≡◌, ◌<◌};
ghost use Rattle.steps.specs.Machine.{Ready, Went};
ghost use Rattle.rijndael.specs.Rijndael.{linear_part};
ghost use Rattle.aes.specs.Sbox as spec;
ghost use Rattle.aes.specs.Rounds.{powers_in};

use field::Gf256;
use product::{Sharing, product, square};
use steps::ShareCount;
use steps::machine::Machine;

// The powers 2, 4 and 8 of a sharing.
#[derive(Clone, Copy)]
struct Powers {
    second: Sharing,
    fourth: Sharing,
    eighth: Sharing,
}

// Each is the square of the one before.
fn powers_of<M: Machine>(machine: &mut M, s: ShareCount, y: &Sharing) -> Powers
    requires { Ready (spec.powers s.count y.now) (M.state machine.old) }
    ensures { Went (spec.powers s.count y.now) (M.state machine.old) (powers_in result) (M.state machine.new) }
{
    let second = square::<Gf256, M>(machine, s, y);
    let fourth = square::<Gf256, M>(machine, s, &second);
    let eighth = square::<Gf256, M>(machine, s, &fourth);
    Powers {
        second,
        fourth,
        eighth,
    }
}

// x ^ 16.
fn sixteenth<M: Machine>(machine: &mut M, s: ShareCount, x: &Sharing) -> Sharing
    requires { Ready (spec.sixteenth s.count x.now) (M.state machine.old) }
    ensures { Went (spec.sixteenth s.count x.now) (M.state machine.old) result (M.state machine.new) }
{
    let powers = powers_of(machine, s, x);
    square::<Gf256, M>(machine, s, &powers.eighth)
}

// x ^ 254 = ((x ^ 16 · x ^ 34) · x ^ 68) · x ^ 136, the last three being the powers of x ^ 17.
fn multiplied<M: Machine>(machine: &mut M, s: ShareCount, x16: &Sharing, powers: &Powers) -> Sharing
    requires { Ready (spec.multiplied s.count x16.now (powers_in powers.now)) (M.state machine.old) }
    ensures { Went (spec.multiplied s.count x16.now (powers_in powers.now)) (M.state machine.old) result (M.state machine.new) }
{
    let x50 = product::<Gf256, M>(machine, s, x16, &powers.second);
    let x118 = product::<Gf256, M>(machine, s, &x50, &powers.fourth);
    product::<Gf256, M>(machine, s, &x118, &powers.eighth)
}

// The inverse of the sharing x, x ^ 17 being x · x ^ 16.
fn inverted<M: Machine>(machine: &mut M, s: ShareCount, x: &Sharing) -> Sharing
    requires { Ready (spec.inverted s.count x.now) (M.state machine.old) }
    ensures { Went (spec.inverted s.count x.now) (M.state machine.old) result (M.state machine.new) }
{
    let x16 = sixteenth(machine, s, x);
    let x17 = product::<Gf256, M>(machine, s, x, &x16);
    let powers = powers_of(machine, s, &x17);
    multiplied(machine, s, &x16, &powers)
}

// The linear part of the affine map: v and v rotated left by 1 to 4.
fn linear_part(v: u8) -> u8
    ensures { result ≡ linear_part v }
{
    v ^ v.rotate_left(1) ^ v.rotate_left(2) ^ v.rotate_left(3) ^ v.rotate_left(4)
}

// The affine map of share i: the constant 0x63 goes to share 0 only.
fn affine_share<M: Machine>(machine: &mut M, a: &Sharing, i: usize) -> u8
    requires i_bound { i < 9 }
    requires ready { Ready (spec.affine_share a.now i) (M.state machine.old) }
    ensures { Went (spec.affine_share a.now i) (M.state machine.old) result (M.state machine.new) }
{
    let v = linear_part(a[i]) ^ product::constant(i, 0x63);
    machine.record(v);
    v
}

// The affine map of each share.
fn affine<M: Machine>(machine: &mut M, s: ShareCount, a: &Sharing) -> Sharing
    requires { Ready (spec.affine s.count a.now) (M.state machine.old) }
    ensures { Went (spec.affine s.count a.now) (M.state machine.old) result (M.state machine.new) }
{
    product::by_share(machine, s, |machine, i| affine_share(machine, a, i))
}

// The masked S-box of the sharing x, of s shares.
pub fn sbox<M: Machine>(machine: &mut M, s: ShareCount, x: &Sharing) -> Sharing
    requires { Ready (spec.sbox s.count x.now) (M.state machine.old) }
    ensures { Went (spec.sbox s.count x.now) (M.state machine.old) result (M.state machine.new) }
{
    let y = inverted(machine, s, x);
    affine(machine, s, &y)
}
