// The pairs of width and output bits, and how things lie in bytes at each.
ghost use Rattle.std.specs.Prelude.{◌≡◌, IfOk, []};
ghost use Rattle.refusal.specs.Outcome.{done, test};
ghost use Rattle.refusal.specs.Refusals.{report};
ghost use Rattle.decomposition.specs.Layout as spec;
ghost use Rattle.decomposition.specs.Layout.{known, paired, Pair};

use refusal::{Refusal, refuse_unless};

// The bytes of the head of a record of version 2: the mark, the version, the width and the output bits.
pub const HEAD: usize = 7;

// The bytes of the head of a record of version 1, which names no output bits.
pub const SHORT_HEAD: usize = 6;

// The bytes of an equation over bits, at the one pair of other widths. The solver is told the number and no variable: it adds whole rows.
pub const ROW: usize = 43;

// How the coefficients of a record and the work of Fit lie in bytes. A constant calls no function, so the sizes that follow from others are written out;
// `layout_of` shows that they are those of the definition. That they fit together (`Sizes`) is no ghost field: the definition `layout` gives a
// `Layout` to any two numbers, and one of this type could not be made where they are no pair.
#[derive(Clone, Copy)]
pub struct Layout {
    pub width: u32,
    // the output bits of the table
    pub outputs: u32,
    // 2 ^ width: elements are below it, and there are as many inputs
    pub inputs: u8,
    // 2 ^ outputs: entries of the table are below it
    pub entries: u8,
    // the coefficients of a polynomial
    pub exponents: usize,
    // the polynomials p1 to pt; the basis has one less
    pub terms: usize,
    // the coefficients of p1 to pt
    pub unknowns: usize,
    // the bytes of the basis
    pub basis: usize,
    // the coefficients of a record: the basis, then p1 to pt
    pub coefficients: usize,
    // the bytes of an equation over bits, at other widths
    pub stride: usize,
    // the bytes of the work
    pub work: usize,
}

impl Layout {
    // Four bits in and four out.
    pub const FOUR: Layout = Layout {
        width: 4,
        outputs: 4,
        inputs: 16,
        entries: 16,
        exponents: 9,
        terms: 2,
        unknowns: 18,
        basis: 9,
        coefficients: 27,
        stride: 10,
        work: 304,
    };

    // Six bits in and six out.
    pub const SIX: Layout = Layout {
        width: 6,
        outputs: 6,
        inputs: 64,
        entries: 64,
        exponents: 19,
        terms: 4,
        unknowns: 76,
        basis: 57,
        coefficients: 133,
        stride: 58,
        work: 4928,
    };

    // Six bits in and four out.
    pub const SIX_TO_FOUR: Layout = Layout {
        width: 6,
        outputs: 4,
        inputs: 64,
        entries: 16,
        exponents: 19,
        terms: 3,
        unknowns: 57,
        basis: 38,
        coefficients: 95,
        stride: ROW,
        work: 11008,
    };

    // The layout for a width and its output bits, where they are a pair.
    pub fn of(width: u32, outputs: u32) -> Result<Layout, Refusal>
        ensures outcome { report (λ _. []) result ≡ test (known width) 1 0 (test (paired width outputs) 9 0 (done [])) }
        ensures layout { IfOk result (λ L. L ≡ spec.layout width outputs) }
    {
        refuse_unless(known(width), Refusal::Width)?;
        refuse_unless(paired(width, outputs), Refusal::OutputBits)?;
        Ok(layout_of(width, outputs))
    }
}

// Whether there are decompositions of the width.
pub fn known(width: u32) -> bool
    ensures { result ≡ spec.known width }
{
    width == 4 || width == 6
}

// Whether so many output bits pair with the width.
pub fn paired(width: u32, outputs: u32) -> bool
    ensures { result ≡ spec.paired width outputs }
{
    outputs == width || (width == 6 && outputs == 4)
}

// The layout of a pair.
pub fn layout_of(width: u32, outputs: u32) -> Layout
    requires { Pair width outputs }
    ensures { result ≡ spec.layout width outputs }
{
    match (width, outputs) {
        (4, _) => Layout::FOUR,
        (_, 6) => Layout::SIX,
        _ => Layout::SIX_TO_FOUR,
    }
}
