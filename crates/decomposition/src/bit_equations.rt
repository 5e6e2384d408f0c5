// The equations of Fit over bits: m rows for each input, one for each output bit, and in each n columns for each unknown. They are other equations than those
// over elements (equations.rt), with the solver in common. The rows are named by number and stride, as the matrix has them.
ghost use Rattle.std.specs.Prelude.{◌≡◌, ℕ, ◌+◌, ◌*◌, ◌<◌, ◌≤◌, length};
ghost use Rattle.field.specs.Mul.{mul, Narrow};
ghost use Rattle.linear.specs.Bits.{bit, row_of};
ghost use Rattle.linear.specs.Packed.{bit_cell};
ghost use Rattle.decomposition.specs.Form.{unknown_column, monomial};
ghost use Rattle.decomposition.specs.Equations.{BitRows, BitsWritten, BlockWritten, equation};

use crate::problems::{Input, Problem};

// Writes the low bits of v, one a row, into column c of as many rows.
fn put_column(work: &mut [u8], stride: usize, row: usize, count: usize, c: usize, v: u8)
    requires { ((row + count) * stride ≤ length work.old) × (c < stride * 8) × (count ≤ 8) }
    ensures { BlockWritten (stride * 8) (bit_cell stride work.old) (bit_cell stride work.new) row count c 1 (λ b j. bit b v) }
{
    for b in 0..count {
        linear::put_bit(8, work, (row + b) * stride, c, (v >> b) % 2);
    }
}

// Writes the columns of an unknown from c on, one a bit: v, y times v, ..
fn put_unknown(
    width: u32,
    work: &mut [u8],
    stride: usize,
    row: usize,
    count: usize,
    c: usize,
    v: u8,
)
    requires narrow { Narrow width }
    requires stride_in_bounds { ((row + count) * stride ≤ length work.old) × (c + width ≤ stride * 8) × (count ≤ 8) × (stride ≤ 64) }
    ensures { (r : ℕ → ℕ) (k : ℕ) → c ≡ k * width → r k ≡ v → BlockWritten (stride * 8) (bit_cell stride work.old)
        (bit_cell stride work.new) row count c width (λ b. row_of width b r) }
{
    let mut x = v;
    for i in 0..width {
        put_column(work, stride, row, count, c + i as usize, x);
        x = field::double(width, x);
    }
}

// Writes the columns of polynomial i, where f is what it is multiplied with. The sizes are read from the problem's layout and not from that of the powers:
// these are the answer of a call, whose fields are read from memory, and a Fit at (6, 4) takes a fifth longer.
fn put_polynomial(input: &Input, work: &mut [u8], row: usize, i: usize, f: u8)
    requires { ((row + input.now.problem.layout.outputs) * input.now.problem.layout.stride ≤ length work.old) × (i < input.now.problem.layout.terms) }
    ensures { (r : ℕ → ℕ) → ((j : ℕ) → j < input.now.problem.layout.exponents → r (i * input.now.problem.layout.exponents + j)
        ≡ mul input.now.problem.layout.width f (monomial input.now.problem.layout.width input.now.powers.x j))
        → BitsWritten input.now.problem.layout work.old work.new row (i * input.now.problem.layout.exponents * input.now.problem.layout.width) (input.now.problem.layout.exponents * input.now.problem.layout.width) r }
{
    let layout = input.problem.layout;
    let width = layout.width;
    let n = width as usize;
    let m = layout.outputs as usize;
    let first = i * layout.exponents;
    for j in 0..layout.exponents {
        let v = field::mul(width, f, input.powers.row[j]);
        put_unknown(width, work, layout.stride, row, m, (first + j) * n, v);
    }
}

// Writes the columns of all polynomials at an input.
fn put_polynomials(input: &Input, work: &mut [u8], row: usize)
    requires { (row + input.now.problem.layout.outputs) * input.now.problem.layout.stride ≤ length work.old }
    ensures { BitsWritten input.now.problem.layout work.old work.new row 0 (input.now.problem.layout.unknowns * input.now.problem.layout.width)
        (unknown_column input.now.problem.layout input.now.problem.basis.now input.now.powers.x) }
{
    for i in 0..input.problem.layout.terms {
        put_polynomial(input, work, row, i, input.factor(i));
    }
}

// Writes the equations at input x, a row for each output bit; their right sides are the bits of v.
fn put_equations(problem: &Problem, work: &mut [u8], x: u8, v: u8)
    requires { (problem.now.layout.inputs * problem.now.layout.outputs * problem.now.layout.stride ≤ length work.old) × (x < problem.now.layout.inputs) }
    ensures { BitsWritten problem.now.layout work.old work.new (x * problem.now.layout.outputs) 0 (problem.now.layout.unknowns * problem.now.layout.width + 1)
        (equation problem.now.layout problem.now.basis.now x v) }
{
    let layout = problem.layout;
    let m = layout.outputs as usize;
    let right = layout.unknowns * (layout.width as usize);
    let row = (x as usize) * m;
    put_polynomials(&problem.at(x), work, row);
    put_column(work, layout.stride, row, m, right, v);
}

// Writes the equations.
pub fn bit_equations(problem: &Problem, work: &mut [u8])
    requires { problem.now.layout.inputs * problem.now.layout.outputs * problem.now.layout.stride ≤ length work.old }
    ensures { BitRows problem.now.layout problem.now.table.now problem.now.basis.now (problem.now.layout.inputs * problem.now.layout.outputs) work.new }
{
    for (x, v) in problem.table.iter().enumerate() {
        put_equations(problem, work, x as u8, *v);
    }
}
