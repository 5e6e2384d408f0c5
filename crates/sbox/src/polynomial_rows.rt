// Polynomials of x, by its powers.
ghost use Rattle.std.specs.Prelude.{◌≡◌, ◌+◌, ◌*◌, ◌<◌, ◌≤◌, length, slice_index};
ghost use Rattle.steps.specs.Machine.{Ready, Went};
ghost use Rattle.steps.specs.Program.{for};
ghost use Rattle.product.specs.ByShare as by_share;
ghost use Rattle.sbox.specs.Sbox as sbox;
ghost use Rattle.sbox.specs.TableSteps as spec;

use crate::narrow_fields::NarrowField;
use crate::power_rows::PowerTable;
use field::Field;
use product::{Sharing, constant};
use steps::ShareCount;
use steps::machine::Machine;

// Share i of a polynomial: the constant, and a term for each power, which is recorded with the sum so far. The number of powers is the field's, so that
// the compiler knows it.
fn polynomial_share<F: NarrowField, M: Machine>(
    machine: &mut M,
    coefficients: &[u8],
    t: &PowerTable,
    i: usize,
) -> u8
    requires bounds { (i < 9) × (length coefficients.now ≡ F.POWERS + 1) }
    requires ready { Ready (for 0 F.POWERS (sbox.term F.WIDTH coefficients.now t.now i) (by_share.constant i (slice_index coefficients.now 0))) (M.state machine.old) }
    ensures { Went (for 0 F.POWERS (sbox.term F.WIDTH coefficients.now t.now i) (by_share.constant i (slice_index coefficients.now 0))) (M.state machine.old) result (M.state machine.new) }
{
    let mut u = constant(i, coefficients[0]);
    for r in 0..F::POWERS {
        let v = F::multiply(coefficients[r + 1], t[r][i]);
        u ^= v;
        machine.record_all(&[v, u]);
    }
    u
}

// A polynomial, share by share. Not by `product::by_share`: what `polynomial_share` requires is not proved within a closure that does not say it again.
fn polynomial<F: NarrowField, M: Machine>(
    machine: &mut M,
    s: ShareCount,
    coefficients: &[u8],
    t: &PowerTable,
) -> Sharing
    requires whole { length coefficients.now ≡ F.POWERS + 1 }
    requires ready { Ready (sbox.polynomial F.WIDTH s.count t.now coefficients.now) (M.state machine.old) }
    ensures { Went (sbox.polynomial F.WIDTH s.count t.now coefficients.now) (M.state machine.old) result (M.state machine.new) }
{
    let mut c = [0u8; 9];
    for i in 0..s.count {
        c[i] = polynomial_share::<F, M>(machine, coefficients, t, i);
    }
    c
}

// The first `count` of the polynomials whose coefficients lie one after the other, by the numbers that the definition's loop has.
pub fn polynomials<F: NarrowField, M: Machine>(
    machine: &mut M,
    s: ShareCount,
    coefficients: &[u8],
    count: usize,
    t: &PowerTable,
    out: &mut [Sharing],
)
    requires bounds { (count ≤ length out.old) × (count * (F.POWERS + 1) ≤ length coefficients.now) }
    requires ready { Ready (for 0 count (spec.polynomial_row F.WIDTH s.count (F.POWERS + 1) coefficients.now t.now) out.old) (M.state machine.old) }
    ensures { Went (for 0 count (spec.polynomial_row F.WIDTH s.count (F.POWERS + 1) coefficients.now t.now) out.old) (M.state machine.old) out.new (M.state machine.new) }
{
    let size = F::POWERS + 1;
    for j in 0..count {
        let own = &coefficients[j * size..j * size + size];
        out[j] = polynomial::<F, M>(machine, s, own, t);
    }
}
