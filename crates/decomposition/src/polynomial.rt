// The powers of an input over the listed exponents, and the values of polynomials there.
ghost use Rattle.std.specs.Prelude.{◌≡◌, ◌+◌, ◌*◌, ◌^◌, ◌<◌, ◌≤◌, length, take, map};
ghost use Rattle.field.specs.Mul.{Narrow};
ghost use Rattle.field.specs.Power.{pow};
ghost use Rattle.field.specs.Polynomial.{exponents};
ghost use Rattle.decomposition.specs.Layout.{Sizes};
ghost use Rattle.decomposition.specs.Form.{value_of};

use crate::layouts::Layout;

// The powers of an input x at a layout, one for each listed exponent. The row has room for the longest list: of another length at each layout it would be no
// array. It holds the layout by itself, as a value that is handed back.
#[derive(Clone, Copy)]
pub struct Powers {
    pub layout: Layout,
    pub x: u8,
    pub row: [u8; 32],
    pub ghost sizes: { ∥ Sizes layout ∥₁ },
    pub ghost input: { x < layout.inputs },
    pub ghost powers: { take layout.exponents row ≡ map (pow layout.width x) (exponents layout.width) },
}

impl Powers {
    // The powers of x. Inlined, so that where values are summed the compiler still knows what it knew of the layout.
    #[inline(always)]
    pub fn of(layout: Layout, x: u8) -> Powers
        requires sizes { ∥ Sizes layout ∥₁ }
        requires input { x < layout.inputs }
        ensures { (result.layout ≡ layout) × (result.x ≡ x) }
    {
        let mut row = [0u8; 32];
        write_powers(layout.width, x, &mut row[..layout.exponents]);
        Powers { layout, x, row }
    }

    // The value of polynomial number i, where the polynomials lie one after the other. The sum goes over places, which are counted: over two lists at once, of
    // which either may end first, the compiler would add byte by byte.
    pub fn value(&self, coefficients: &[u8], i: usize) -> u8
        requires { i * self.now.layout.exponents + self.now.layout.exponents ≤ length coefficients.now }
        ensures { result ≡ value_of self.now.layout coefficients.now i self.now.x }
    {
        let width = self.layout.width;
        let count = self.layout.exponents;
        let first = i * count;
        let polynomial = &coefficients[first..first + count];
        (0..count).fold(
            0,
            |sum, j| sum ^ field::mul(width, polynomial[j], self.row[j]),
        )
    }
}

// x to the power `next`, where `power` is x to the power e: its square, if `next` follows e.
fn next_power(width: u32, x: u8, e: u8, power: u8, next: u8) -> u8
    requires narrow { Narrow width }
    requires x_bound { (x < 2 ^ width) × (power ≡ pow width x e) }
    ensures { result ≡ pow width x next }
{
    if field::follows(width, e, next) {
        field::square(width, power)
    } else {
        field::pow(width, x, next)
    }
}

// Writes the powers of x, one for each listed exponent, each made of the one before.
#[inline(always)]
fn write_powers(width: u32, x: u8, out: &mut [u8])
    requires narrow { Narrow width }
    requires x_bound { (x < 2 ^ width) × (length out.old ≡ length (exponents width)) }
    ensures { out.new ≡ map (pow width x) (exponents width) }
{
    let mut e: u8 = 0;
    let mut power: u8 = 1;
    for (j, next) in field::exponents(width).iter().enumerate() {
        power = next_power(width, x, e, power, *next);
        out[j] = power;
        e = *next;
    }
}
