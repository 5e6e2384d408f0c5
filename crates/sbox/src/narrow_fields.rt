// The fields in which tables are decomposed.
ghost use Rattle.std.specs.Prelude.{◌≡◌, ◌+◌, ◌≤◌, ℕ, length, refl};
ghost use Rattle.field.specs.Polynomial.{exponents};
ghost use Rattle.field.proofs.Polynomial.{length_exponents_4, length_exponents_6};
ghost use Rattle.decomposition.specs.Layout.{Known};
ghost use Rattle.std.proofs.Common.{arith};
ghost use Rattle.sbox.specs.Sbox as sbox;

use field::{Field, Gf16, Gf64};

// A field in which tables are decomposed, and how the powers of an element are made in it.
pub trait NarrowField: Field {
    ghost POWERS: { ℕ };

    // The powers in a polynomial, besides the constant's.
    const POWERS: usize;

    // The classes of powers after that of x begin with a product of two rows made before. These are their numbers, for each class. (A list
    // of another length in each field is a slice, and that has a place in the program only as a constant behind a reference.)
    fn factors() -> &'static [(usize, usize)]
        ensures { result.now ≡ sbox.factors Self.WIDTH };

    ghost decomposed: { Known Self.WIDTH };

    ghost listed: { length (exponents Self.WIDTH) ≡ POWERS + 1 };

    ghost few: { POWERS ≤ 18 };
}

impl NarrowField for Gf16 {
    ghost POWERS = { 8 };

    const POWERS: usize = 8;

    ghost decomposed = { refl };

    ghost listed = { length_exponents_4 };

    ghost few = { Prim.omega arith };

    #[tactic(auto, unfolding(crate::specs::Sbox::factors))]
    fn factors() -> &'static [(usize, usize)] {
        &[(0, 1)]
    }
}

impl NarrowField for Gf64 {
    ghost POWERS = { 18 };

    const POWERS: usize = 18;

    ghost decomposed = { refl };

    ghost listed = { length_exponents_6 };

    ghost few = { Prim.omega arith };

    #[tactic(auto, unfolding(crate::specs::Sbox::factors))]
    fn factors() -> &'static [(usize, usize)] {
        &[(0, 1), (6, 3)]
    }
}
