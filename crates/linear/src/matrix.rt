// A matrix in a buffer of bytes, by what the elimination does with it. The buffer is lent beside the system, for reading or for writing: with it in the
// system there would be a type for each. So what is asked of it (`Room`) stands at each function to which it is lent.
ghost use Rattle.std.specs.Prelude.{◌≡◌, ℕ, List, ◌^◌, ◌<◌, ◌≤◌, length};
ghost use Rattle.xor.specs.Sum.{Small};
ghost use Rattle.linear.specs.Buffer.{Written};
ghost use Rattle.linear.specs.Row.{plus, times};
ghost use Rattle.linear.specs.Shape.{Shape, ShapeLaws, InRow, ScalarsIn, SolutionRoom, RowWritten, Multiples, cells};

// The most bytes of a copy of a row. A row is copied, so that the rows that it is added to do not overlap it.
pub const COPY: usize = 256;

// A system of equations as its augmented matrix: how many rows and unknowns it has, and how it lies in bytes.
pub trait Matrix: Copy {
    ghost shape: { Self → Shape };

    // What is asked of the bytes, so that the entries in them are scalars.
    ghost holds_scalars: { Self → List ℕ → Type 0 };

    // What each impl proves.
    ghost laws: { (m : Self) → ShapeLaws (shape m) };

    ghost scalars_in: { (m : Self) (l : List ℕ) → holds_scalars m l → ScalarsIn (shape m) l };

    fn rows(self) -> usize
        ensures { result ≡ (shape self).rows };

    fn unknowns(self) -> usize
        ensures { result ≡ (shape self).unknowns };

    // The entry of a row at a column.
    fn at(self, matrix: &[u8], row: usize, column: usize) -> u8
        requires { InRow (shape self) matrix.now row × (column < (shape self).columns) }
        ensures { result ≡ cells (shape self) matrix.now row column };

    // Copies a row, so that `add_multiple` can add multiples of it.
    fn copy_row(self, matrix: &[u8], row: usize, copy: &mut [u8])
        requires { InRow (shape self) matrix.now row × (COPY ≤ length copy.old) }
        ensures { Multiples (shape self) copy.new (cells (shape self) matrix.now row) };

    // Adds a multiple of the row that was copied to a row.
    fn add_multiple(self, matrix: &mut [u8], row: usize, copy: &[u8], factor: u8)
        requires { InRow (shape self) matrix.old row × (COPY ≤ length copy.now) × (factor < (shape self).scalars.size) }
        ensures { RowWritten (shape self) matrix.old matrix.new row (plus (shape self).scalars (cells (shape self) matrix.old row)
            ((shape self).multiple copy.now factor)) };

    // Multiplies a row by the inverse of its entry at a column, which is not 0.
    fn scale_row(self, matrix: &mut [u8], row: usize, column: usize)
        requires in_row { InRow (shape self) matrix.old row × (column < (shape self).columns) }
        requires unit { (cells (shape self) matrix.old row column < (shape self).scalars.size)
            × (cells (shape self) matrix.old row column ≡ 0 → ⊥) }
        ensures { RowWritten (shape self) matrix.old matrix.new row (times (shape self).scalars
            ((shape self).scalars.inv (cells (shape self) matrix.old row column)) (cells (shape self) matrix.old row)) };

    // Writes the value of an unknown.
    fn put(self, out: &mut [u8], unknown: usize, value: u8)
        requires room { SolutionRoom (shape self) out.old × (unknown < (shape self).unknowns) }
        requires value { value < (shape self).scalars.size }
        ensures written { Written ((shape self).solution out.old) ((shape self).solution out.new) unknown 1 (λ j. value) }
        ensures small { Small (shape self).width out.old → Small (shape self).width out.new };
}
