// THE decomposition of a table over a basis: the equations, and their solution.
ghost use Rattle.std.specs.Prelude.{◌≡◌, length};
ghost use Rattle.decomposition.specs.Fit.{Decomposed};

use crate::bit_equations::bit_equations;
use crate::equations::equations;
use crate::layouts::ROW;
use crate::problems::Problem;
use linear::{BitMatrix, ElementMatrix, NoSolution, solve};

// Writes the coefficients p1 to pt of THE decomposition; where no p meets the table it writes nothing. At equal widths the equations are over elements,
// at other widths over bits.
pub fn decompose(problem: &Problem, work: &mut [u8], p: &mut [u8]) -> Result<(), NoSolution>
    requires { (length work.old ≡ problem.now.layout.work) × (length p.old ≡ problem.now.layout.unknowns) }
    ensures { Decomposed problem.now.layout problem.now.table.now problem.now.basis.now p.old p.new result }
{
    let layout = problem.layout;
    if layout.outputs == layout.width {
        equations(problem, work);
        let system = ElementMatrix {
            width: layout.width,
            rows: layout.inputs as usize,
            unknowns: layout.unknowns,
        };
        solve(system, work, p)
    } else {
        bit_equations(problem, work);
        let system = BitMatrix::<ROW> {
            width: layout.width as usize,
            rows: layout.inputs as usize * layout.outputs as usize,
            unknowns: layout.unknowns * layout.width as usize,
        };
        solve(system, work, p)
    }
}
