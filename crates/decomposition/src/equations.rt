// The equations of Fit at equal widths, in its work: a row for each input. A place in the work is where a row, or a polynomial's part of it, begins.
ghost use Rattle.std.specs.Prelude.{◌≡◌, ◌+◌, ◌*◌, ◌<◌, ◌≤◌, length};
ghost use Rattle.linear.specs.Scalars.{scalars};
ghost use Rattle.linear.specs.Row.{times};
ghost use Rattle.linear.specs.Buffer.{Overwritten};
ghost use Rattle.decomposition.specs.Form.{monomial};
ghost use Rattle.decomposition.specs.Equations.{equation, Rows};

use crate::polynomial::Powers;
use crate::problems::{Input, Problem};

// Writes f times the powers from a on.
fn multiple(powers: &Powers, work: &mut [u8], a: usize, f: u8)
    requires { a + powers.now.layout.exponents ≤ length work.old }
    ensures { Overwritten work.old work.new a powers.now.layout.exponents (times (scalars powers.now.layout.width) f (monomial powers.now.layout.width powers.now.x)) }
{
    for j in 0..powers.layout.exponents {
        work[a + j] = field::mul(powers.layout.width, f, powers.row[j]);
    }
}

// Writes the equation at an input from a on; its right side is v.
fn equation_at(input: &Input, work: &mut [u8], a: usize, v: u8)
    requires { a + (input.now.problem.layout.unknowns + 1) ≤ length work.old }
    ensures { Overwritten work.old work.new a (input.now.problem.layout.unknowns + 1)
        (equation input.now.problem.layout input.now.problem.basis.now input.now.powers.x v) }
{
    let layout = input.problem.layout;
    for i in 0..layout.terms {
        let f = input.factor(i);
        multiple(&input.powers, work, a + i * layout.exponents, f);
    }
    work[a + layout.unknowns] = v;
}

// Writes the equations.
pub fn equations(problem: &Problem, work: &mut [u8])
    requires { length work.old ≡ problem.now.layout.inputs * (problem.now.layout.unknowns + 1) }
    ensures { Rows problem.now.layout problem.now.table.now problem.now.basis.now problem.now.layout.inputs work.new }
{
    let width = problem.layout.unknowns + 1;
    for (x, v) in problem.table.iter().enumerate() {
        equation_at(&problem.at(x as u8), work, x * width, *v);
    }
}
