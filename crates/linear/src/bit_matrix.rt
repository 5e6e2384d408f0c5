// Equations over bits, in rows of so many bytes, eight entries to a byte. The unknowns are the bits of elements, and a solution is written as these.
ghost use Rattle.std.specs.Prelude.{◌*◌, ◌<◌, ◌≤◌};

use crate::matrix::Matrix;
use crate::packing::{add_bits, bit_at, put_bit};

// The most bytes that a row may have.
const MOST_BYTES: usize = 64;

// The bytes of a row are a parameter of the type: the compiler knows how many it adds.
#[derive(Clone, Copy)]
pub struct BitMatrix<const STRIDE: usize> {
    pub width: usize,
    pub rows: usize,
    pub unknowns: usize,
    ghost width_bound: { (0 < width) × (width ≤ 8) },
    ghost room: { (unknowns < STRIDE * 8) × (STRIDE ≤ 64) },
}

impl<const STRIDE: usize> Matrix for BitMatrix<STRIDE> {
    ghost use Rattle.linear.specs.Shape.{bit_shape};
    ghost use Rattle.linear.specs.Laws.{cell_elements, bit_shape_laws};

    ghost shape = { λ m. bit_shape STRIDE m.width m.rows m.unknowns };

    ghost holds_scalars = { λ m l. Unit {0} };

    ghost laws = { λ m. bit_shape_laws m.width m.rows m.room.0 };

    ghost scalars_in = { λ m l e. cell_elements STRIDE l m.rows (STRIDE * 8) };

    fn rows(self) -> usize {
        self.rows
    }

    fn unknowns(self) -> usize {
        self.unknowns
    }

    fn at(self, matrix: &[u8], row: usize, column: usize) -> u8 {
        bit_at(8, matrix, row * STRIDE, column)
    }

    // The multiples are 0 and 1 times the row: to add one of the two takes no branch on the factor, which cannot be foreseen.
    #[inline(always)]
    fn copy_row(self, matrix: &[u8], row: usize, copy: &mut [u8]) {
        let start = row * STRIDE;
        copy[..STRIDE].fill(0);
        copy[MOST_BYTES..MOST_BYTES + STRIDE].copy_from_slice(&matrix[start..start + STRIDE]);
    }

    #[inline(always)]
    fn add_multiple(self, matrix: &mut [u8], row: usize, copy: &[u8], factor: u8) {
        let start = row * STRIDE;
        let from = factor as usize * MOST_BYTES;
        add_bits(
            &mut matrix[start..start + STRIDE],
            &copy[from..from + STRIDE],
        );
    }

    // A bit that is not 0 is 1.
    fn scale_row(self, _matrix: &mut [u8], _row: usize, _column: usize) {}

    fn put(self, out: &mut [u8], unknown: usize, value: u8) {
        put_bit(self.width, out, 0, unknown, value);
    }
}
