// The solution, read off the eliminated matrix.
ghost use Rattle.std.specs.Prelude.{◌+◌, ◌<◌};
ghost use Rattle.linear.specs.Shape.{InRow, LeadingIn, ReadReady, ReadOffIn};

use crate::matrix::Matrix;

// The first column of an unknown in which the row is not zero.
pub fn find_leading<M: Matrix>(system: M, matrix: &[u8], row: usize) -> Option<usize>
    requires { InRow (M.shape system) matrix.now row }
    ensures { LeadingIn (M.shape system) matrix.now row result }
{
    (0..system.unknowns()).find(|column| system.at(matrix, row, *column) != 0)
}

// Reads the unknown that leads the row off its right side.
fn read_row<M: Matrix>(system: M, matrix: &[u8], rank: usize, row: usize, out: &mut [u8])
    requires ready { ReadReady (M.shape system) matrix.now out.old rank × (row < rank) }
    requires read { ReadOffIn (M.shape system) matrix.now out.old row }
    ensures { ReadOffIn (M.shape system) matrix.now out.new (row + 1) }
{
    if let Some(column) = find_leading(system, matrix, row) {
        let value = system.at(matrix, row, system.unknowns());
        system.put(out, column, value);
    }
}

// Reads the unknowns off the right side of the rows below the rank.
pub fn read_off<M: Matrix>(system: M, matrix: &[u8], rank: usize, out: &mut [u8])
    requires { ReadReady (M.shape system) matrix.now out.old rank }
    ensures { ReadOffIn (M.shape system) matrix.now out.new rank }
{
    out.fill(0);
    for row in 0..rank {
        read_row(system, matrix, rank, row, out);
    }
}
