// What Fit is asked.
ghost use Rattle.std.specs.Prelude.{◌≡◌, ℕ, ◌+◌, ◌<◌, length};
ghost use Rattle.xor.specs.Sum.{Small};
ghost use Rattle.decomposition.specs.Layout.{Sizes};
ghost use Rattle.decomposition.specs.Form.{factor};

use crate::layouts::Layout;
use crate::polynomial::Powers;

// A table that is to be decomposed over a basis, both of the layout's lengths and with small entries.
#[derive(Clone, Copy)]
pub struct Problem<'a> {
    pub layout: Layout,
    pub table: &'a [u8],
    pub basis: &'a [u8],
    pub ghost sizes: { ∥ Sizes layout ∥₁ },
    pub ghost inputs: { length table.now ≡ layout.inputs },
    pub ghost whole: { length basis.now ≡ layout.basis },
    pub ghost entries: { Small layout.outputs table.now },
    pub ghost elements: { Small layout.width basis.now },
}

impl<'a> Problem<'a> {
    // The problem at input x. Inlined: else it is handed back by memory, and Fit, which calls it twice, holds two of it.
    #[inline(always)]
    pub fn at(&self, x: u8) -> Input<'a>
        requires { x < self.now.layout.inputs }
        ensures { (result.problem ≡ self.now) × (result.powers.x ≡ x) }
    {
        Input {
            problem: *self,
            powers: Powers::of(self.layout, x),
        }
    }
}

// A problem at one input, with the input's powers.
#[derive(Clone, Copy)]
pub struct Input<'a> {
    pub problem: Problem<'a>,
    pub powers: Powers,
    pub ghost same_layout: { powers.layout ≡ problem.layout },
}

impl Input<'_> {
    // What polynomial i is multiplied with: the polynomial of the basis, and 1 for the last.
    pub fn factor(&self, i: usize) -> u8
        requires { i < self.now.problem.layout.terms }
        ensures { result ≡ factor self.now.problem.layout self.now.problem.basis.now i self.now.powers.x }
    {
        if i + 1 < self.problem.layout.terms {
            self.powers.value(self.problem.basis, i)
        } else {
            1
        }
    }
}
