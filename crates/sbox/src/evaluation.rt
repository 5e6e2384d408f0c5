// The masked S-box of a sharing.
ghost use Rattle.std.specs.Prelude.{◌≤◌, length};
ghost use Rattle.decomposition.specs.Layout.{Sizes};
ghost use Rattle.steps.specs.Machine.{Ready, Went};
ghost use Rattle.sbox.specs.Operations.{OfPair, layout_program};
ghost use Rattle.sbox.specs.TableSteps as spec;

use crate::narrow_fields::NarrowField;
use crate::polynomial_rows::polynomials;
use crate::power_rows::{PowerTable, powers};
use crate::product_rows::{products, total};
use decomposition::Layout;
use field::{Gf16, Gf64};
use product::Sharing;
use steps::ShareCount;
use steps::machine::Machine;

// The masked S-box with h products: the powers, the polynomials q of the basis and the p, and the sum of the products and the last p.
// The tables are of the largest number of rows, and what counts of them goes along: no array's length depends on the record.
fn evaluate<F: NarrowField, M: Machine>(
    machine: &mut M,
    s: ShareCount,
    h: usize,
    layout: &Layout,
    coefficients: &[u8],
    x: &Sharing,
) -> Sharing
    requires sizes { ∥ Sizes layout.now ∥₁ × spec.Sized F.POWERS h layout.now }
    requires room { layout.now.coefficients ≤ length coefficients.now }
    requires ready { Ready (spec.sbox_rows F.WIDTH F.POWERS h s.count layout.now coefficients.now x.now) (M.state machine.old) }
    ensures { Went (spec.sbox_rows F.WIDTH F.POWERS h s.count layout.now coefficients.now x.now) (M.state machine.old) result (M.state machine.new) }
{
    let (basis, solution) = coefficients.split_at(layout.basis);
    let mut t: PowerTable = [[0u8; 9]; 18];
    t[0] = *x;
    powers::<F, M>(machine, s, &mut t);
    let mut q = [[0u8; 9]; 3];
    polynomials::<F, M>(machine, s, basis, h, &t, &mut q);
    let mut p = [[0u8; 9]; 4];
    polynomials::<F, M>(machine, s, solution, h + 1, &t, &mut p);
    products::<F, M>(machine, s, h, &q, &mut p);
    total::<M>(machine, s, &p, h)
}

// The masked S-box of the sharing x by the coefficients of a record at its layout. Of coefficients that are more only these count.
// The width is tested here, so that the field and the number of powers are known in each case.
pub fn run<M: Machine>(
    machine: &mut M,
    s: ShareCount,
    layout: &Layout,
    coefficients: &[u8],
    x: &Sharing,
) -> Sharing
    requires of_pair { OfPair layout.now }
    requires room { layout.now.coefficients ≤ length coefficients.now }
    requires ready { Ready (layout_program layout.now coefficients.now s.count x.now) (M.state machine.old) }
    ensures { Went (layout_program layout.now coefficients.now s.count x.now) (M.state machine.old) result (M.state machine.new) }
{
    if layout.width == 4 {
        evaluate::<Gf16, M>(machine, s, 1, layout, coefficients, x)
    } else {
        evaluate::<Gf64, M>(machine, s, layout.terms - 1, layout, coefficients, x)
    }
}
