// Equations over the elements of a width: each entry is a byte, and so is each unknown.
ghost use Rattle.std.specs.Prelude.{◌≡◌, true, ◌+◌, ◌<◌};
ghost use Rattle.linear.specs.Shape.{narrow};

use crate::matrix::Matrix;
use crate::rows::{add_multiple, scale};

#[derive(Clone, Copy)]
pub struct ElementMatrix {
    pub width: u32,
    pub rows: usize,
    pub unknowns: usize,
    ghost known: { narrow width ≡ true },
    ghost few: { unknowns < 256 },
}

impl Matrix for ElementMatrix {
    ghost use Rattle.linear.specs.System.{Elements};
    ghost use Rattle.linear.specs.Scalars.{scalars};
    ghost use Rattle.linear.specs.Buffer.{cell};
    ghost use Rattle.linear.specs.Shape.{element_shape};
    ghost use Rattle.linear.specs.Laws.{element_laws};

    ghost shape = { λ m. element_shape m.width m.rows m.unknowns };

    ghost holds_scalars = { λ m l. Elements (scalars m.width) m.rows (m.unknowns + 1) (cell (m.unknowns + 1) l) };

    ghost laws = { λ m. element_laws m.rows m.unknowns m.known };

    ghost scalars_in = { λ m l e. e };

    fn rows(self) -> usize {
        self.rows
    }

    fn unknowns(self) -> usize {
        self.unknowns
    }

    fn at(self, matrix: &[u8], row: usize, column: usize) -> u8 {
        matrix[row * (self.unknowns + 1) + column]
    }

    fn copy_row(self, matrix: &[u8], row: usize, copy: &mut [u8]) {
        let columns = self.unknowns + 1;
        let start = row * columns;
        copy[..columns].copy_from_slice(&matrix[start..start + columns]);
    }

    fn add_multiple(self, matrix: &mut [u8], row: usize, copy: &[u8], factor: u8) {
        let columns = self.unknowns + 1;
        let start = row * columns;
        add_multiple(
            self.width,
            &mut matrix[start..start + columns],
            &copy[..columns],
            factor,
        );
    }

    fn scale_row(self, matrix: &mut [u8], row: usize, column: usize) {
        let columns = self.unknowns + 1;
        let start = row * columns;
        let factor = field::inverse(self.width, matrix[start + column]);
        scale(self.width, &mut matrix[start..start + columns], factor);
    }

    fn put(self, out: &mut [u8], unknown: usize, value: u8) {
        out[unknown] = value;
    }
}
