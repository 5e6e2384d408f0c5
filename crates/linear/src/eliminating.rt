// Gauss-Jordan elimination, column by column.
ghost use Rattle.std.specs.Prelude.{◌+◌, ◌<◌, ◌≤◌, length};
ghost use Rattle.linear.specs.Shape.{Room, PivotIn, RowAddedIn, ClearedIn, EliminatedIn, ClearReady, Multiples, cells};

use crate::matrix::{COPY, Matrix};

// The first row from the rank on that is not zero in the column.
pub fn find_pivot<M: Matrix>(system: M, matrix: &[u8], column: usize, rank: usize) -> Option<usize>
    requires { Room (M.shape system) matrix.now × (column < (M.shape system).columns) × (rank ≤ (M.shape system).rows) }
    ensures { PivotIn (M.shape system) matrix.now column rank result }
{
    (rank..system.rows()).find(|row| system.at(matrix, *row, column) != 0)
}

// Adds the pivot's row to the row at the rank, unless it is that row itself. No rows are exchanged: the solution that is read off is the same.
fn add_pivot<M: Matrix>(system: M, matrix: &mut [u8], rank: usize, pivot: usize)
    requires { Room (M.shape system) matrix.old × (rank < (M.shape system).rows) × (pivot < (M.shape system).rows) }
    ensures { RowAddedIn (M.shape system) matrix.old matrix.new rank pivot }
{
    if pivot != rank {
        let mut copy = [0u8; COPY];
        system.copy_row(matrix, pivot, &mut copy);
        system.add_multiple(matrix, rank, &copy, 1);
    }
}

// Clears the column in each row but the one at the rank, which has 1 there and of which there is a copy.
fn clear_rows<M: Matrix>(system: M, matrix: &mut [u8], column: usize, rank: usize, copy: &[u8])
    requires ready { ClearReady (M.shape system) matrix.old column rank }
    requires copy { Multiples (M.shape system) copy.now (cells (M.shape system) matrix.old rank) × (COPY ≤ length copy.now) }
    ensures { ClearedIn (M.shape system) matrix.old matrix.new column rank }
{
    for row in 0..system.rows() {
        if row != rank {
            let factor = system.at(matrix, row, column);
            system.add_multiple(matrix, row, copy, factor);
        }
    }
}

// Clears the column in each row but the one at the rank, which has 1 there.
fn clear<M: Matrix>(system: M, matrix: &mut [u8], column: usize, rank: usize)
    requires { ClearReady (M.shape system) matrix.old column rank }
    ensures { ClearedIn (M.shape system) matrix.old matrix.new column rank }
{
    let mut copy = [0u8; COPY];
    system.copy_row(matrix, rank, &mut copy);
    clear_rows(system, matrix, column, rank, &copy);
}

// Reduces one column, and returns the rank then.
fn eliminate_column<M: Matrix>(system: M, matrix: &mut [u8], column: usize, rank: usize) -> usize
    requires { Room (M.shape system) matrix.old × (column < (M.shape system).columns) × EliminatedIn (M.shape system) matrix.old matrix.old column rank }
    ensures { EliminatedIn (M.shape system) matrix.old matrix.new (column + 1) result }
{
    let Some(pivot) = find_pivot(system, matrix, column, rank) else {
        return rank;
    };
    add_pivot(system, matrix, rank, pivot);
    system.scale_row(matrix, rank, column);
    clear(system, matrix, column, rank);
    rank + 1
}

// Reduces the columns of the unknowns, and returns the rank.
pub fn eliminate<M: Matrix>(system: M, matrix: &mut [u8]) -> usize
    requires { Room (M.shape system) matrix.old × M.holds_scalars system matrix.old }
    ensures { EliminatedIn (M.shape system) matrix.old matrix.new (M.shape system).unknowns result }
{
    let mut rank = 0;
    for column in 0..system.unknowns() {
        rank = eliminate_column(system, matrix, column, rank);
    }
    rank
}
