// The equations solved: the matrix is eliminated, and the solution read off.
ghost use Rattle.linear.specs.Shape.{Room, SolutionRoom, ReducingIn, Solved, cells};

use crate::eliminating::{eliminate, find_pivot};
use crate::matrix::Matrix;
use crate::reading_off::read_off;

// The equations have no solution.
#[derive(Clone, Copy, Debug, PartialEq, Eq)]
pub struct NoSolution;

// Solves the equations. Where there is a solution it writes the canonical one; else `out` is left as it is. The matrix is left reduced.
pub fn solve<M: Matrix>(system: M, matrix: &mut [u8], out: &mut [u8]) -> Result<(), NoSolution>
    requires { Room (M.shape system) matrix.old × M.holds_scalars system matrix.old × SolutionRoom (M.shape system) out.old }
    ensures reducing { ReducingIn (M.shape system) matrix.old matrix.new }
    ensures solved { Solved (M.shape system) (cells (M.shape system) matrix.old) out.old out.new result }
{
    let rank = eliminate(system, matrix);
    match find_pivot(system, matrix, system.unknowns(), rank) {
        Some(_) => Err(NoSolution),
        None => {
            read_off(system, matrix, rank, out);
            Ok(())
        }
    }
}
