// Records that Read accepted, and what they compute.
ghost use Rattle.std.specs.Prelude.{◌≡◌, ◌+◌, ◌<◌, ◌%◌, length};
ghost use Rattle.refusal.specs.Large.{found};
ghost use Rattle.decomposition.specs.Layout.{Sizes};
ghost use Rattle.decomposition.specs.Record.{basis_of, solution_of};
ghost use Rattle.decomposition.specs.Check.{form_in, product_in, first_difference};

use crate::layouts::Layout;
use crate::polynomial::Powers;
use refusal::HandedBack;

// A record that Read accepted: its layout, and its coefficients, which are the basis and then p1 to pt.
#[derive(Clone, Copy)]
pub struct Record<'a> {
    pub layout: Layout,
    pub coefficients: &'a [u8],
    pub ghost sizes: { ∥ Sizes layout ∥₁ },
    pub ghost whole: { length coefficients.now ≡ layout.coefficients },
}

impl<'a> Record<'a> {
    // The coefficients of q1 to q(t-1).
    pub fn basis(&self) -> &'a [u8]
        ensures { (result.now ≡ basis_of self.now.layout self.now.coefficients.now) × (length result.now ≡ self.now.layout.basis) }
    {
        &self.coefficients[..self.layout.basis]
    }

    // The coefficients of p1 to pt.
    pub fn solution(&self) -> &'a [u8]
        ensures { (result.now ≡ solution_of self.now.layout self.now.coefficients.now) × (length result.now ≡ self.now.layout.unknowns) }
    {
        &self.coefficients[self.layout.basis..]
    }

    // The product of polynomial i of the solution and polynomial i of the basis, at an input whose powers are given.
    fn product(&self, powers: &Powers, i: usize) -> u8
        requires { (powers.now.layout ≡ self.now.layout) × (i + 1 < self.now.layout.terms) }
        ensures { result ≡ product_in self.now.layout self.now.coefficients.now powers.now.x i }
    {
        let p = powers.value(self.solution(), i);
        let q = powers.value(self.basis(), i);
        field::mul(self.layout.width, p, q)
    }

    // The form p1·q1 + .. + p(t-1)·q(t-1) + pt at an input.
    pub fn form(&self, x: u8) -> u8
        requires { x < self.now.layout.inputs }
        ensures { result ≡ form_in self.now.layout self.now.coefficients.now x }
    {
        let powers = Powers::of(self.layout, x);
        let last = self.layout.terms - 1;
        let products = (0..last).fold(0, |sum, i| sum ^ self.product(&powers, i));
        products ^ powers.value(self.solution(), last)
    }

    // The first input at which the low output bits of the form and the table differ, if there is one: a place of the table, and an input of the form.
    pub fn first_difference(&self, table: &[u8]) -> Option<usize>
        requires { length table.now ≡ self.now.layout.inputs }
        ensures { result ≡ found (first_difference (λ x. form_in self.now.layout self.now.coefficients.now x % self.now.layout.entries) table.now) (length table.now) }
    {
        (0..table.len()).find(|x| self.form(*x as u8) % self.layout.entries != table[*x])
    }
}

// A record hands back its width.
impl HandedBack for Record<'_> {
    ghost use Rattle.decomposition.specs.Reading.{width_in};

    ghost numbers = { width_in };

    fn words(self) -> [u64; 3] {
        [u64::from(self.layout.width), 0, 0]
    }
}
