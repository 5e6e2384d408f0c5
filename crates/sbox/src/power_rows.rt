// The powers of x, in the order of the exponent list: each class is squared up from its first row.
ghost use Rattle.std.specs.Prelude.{◌≡◌, ◌+◌, ◌-◌, ◌*◌, ◌<◌, ◌≤◌, length};
ghost use Rattle.steps.specs.Machine.{Ready, Went};
ghost use Rattle.steps.specs.Program.{for};
ghost use Rattle.sbox.specs.Sbox as sbox;
ghost use Rattle.sbox.specs.TableSteps as spec;

use crate::narrow_fields::NarrowField;
use field::Field;
use product::{Sharing, product, square};
use steps::ShareCount;
use steps::machine::Machine;

// A sharing in each row: the powers, in the order in which they are made, 18 at most.
pub type PowerTable = [Sharing; 18];

// The masked product of rows x and y goes to row z.
fn multiply_rows<F: Field, M: Machine>(
    machine: &mut M,
    s: ShareCount,
    x: usize,
    y: usize,
    z: usize,
    t: &mut PowerTable,
)
    requires bounds { (x < 18) × (y < 18) × (z < 18) }
    requires ready { Ready (spec.multiply_rows F.WIDTH s.count x y z t.old) (M.state machine.old) }
    ensures { Went (spec.multiply_rows F.WIDTH s.count x y z t.old) (M.state machine.old) t.new (M.state machine.new) }
{
    t[z] = product::<F, M>(machine, s, &t[x], &t[y]);
}

// Each row from `first` on is squared into the next, up to row `last`.
fn square_rows<F: Field, M: Machine>(
    machine: &mut M,
    s: ShareCount,
    first: usize,
    last: usize,
    t: &mut PowerTable,
)
    requires last_bound { last < 18 }
    requires ready { Ready (for first last (spec.square_row F.WIDTH s.count) t.old) (M.state machine.old) }
    ensures { Went (for first last (spec.square_row F.WIDTH s.count) t.old) (M.state machine.old) t.new (M.state machine.new) }
{
    for r in first..last {
        t[r + 1] = square::<F, M>(machine, s, &t[r]);
    }
}

// Class number k + 1: the product of rows x and y goes to its first row, and each of its rows but the last is squared into the next.
fn power_class<F: NarrowField, M: Machine>(
    machine: &mut M,
    s: ShareCount,
    k: usize,
    x: usize,
    y: usize,
    t: &mut PowerTable,
)
    requires factors { (k < length (sbox.factors F.WIDTH)) × ((x, y) ≡ spec.factors_of F.WIDTH k) }
    requires ready { Ready (spec.power_class F.WIDTH s.count k t.old) (M.state machine.old) }
    ensures { Went (spec.power_class F.WIDTH s.count k t.old) (M.state machine.old) t.new (M.state machine.new) }
{
    let width = F::WIDTH as usize;
    let z = width * (k + 1);
    multiply_rows::<F, M>(machine, s, x, y, z, t);
    square_rows::<F, M>(machine, s, z, z + (width - 1), t);
}

// The powers of row 0, class by class.
pub fn powers<F: NarrowField, M: Machine>(machine: &mut M, s: ShareCount, t: &mut PowerTable)
    requires { Ready (spec.power_rows F.WIDTH s.count t.old) (M.state machine.old) }
    ensures { Went (spec.power_rows F.WIDTH s.count t.old) (M.state machine.old) t.new (M.state machine.new) }
{
    let width = F::WIDTH as usize;
    square_rows::<F, M>(machine, s, 0, width - 1, t);
    for (k, (x, y)) in F::factors().iter().enumerate() {
        power_class::<F, M>(machine, s, k, *x, *y, t);
    }
}
