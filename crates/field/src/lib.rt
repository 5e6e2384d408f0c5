// The fields of 16, 64 and 256 elements. The width is public; elements decide no branch and no index in `Field::multiply`.
#![tactic(auto)]

ghost use Rattle.std.specs.Prelude.{◌≡◌, ℕ, ◌*◌, ◌^◌, ◌<◌, length, get_or, refl};
ghost use Rattle.std.proofs.Common.{inl, inr};
ghost use Rattle.field.specs.Mul as spec;
ghost use Rattle.field.specs.Mul.{Width, Narrow, reduction};
ghost use Rattle.field.specs.Reductions.{reduction_4, reduction_6, reduction_8};
ghost use Rattle.field.specs.Power as power;
ghost use Rattle.field.specs.Polynomial as polynomial;
ghost use Rattle.field.specs.Polynomial.{exponents};

// The exponents of polynomials of width 4 and of width 6: 0, then the classes of 1, 3 and, at width 6, 11.
pub static EXPONENTS_4: [u8; 9] = [0, 1, 2, 4, 8, 3, 6, 12, 9];

pub static EXPONENTS_6: [u8; 19] = [
    0, 1, 2, 4, 8, 16, 32, 3, 6, 12, 24, 48, 33, 11, 22, 44, 25, 50, 37,
];

// The exponents of the width, lent from where they stand in the program: a constant would be written out in each call.
pub fn exponents(width: u32) -> &'static [u8]
    requires { Narrow width }
    ensures { result.now ≡ exponents width }
{
    if width == 4 {
        &EXPONENTS_4
    } else {
        &EXPONENTS_6
    }
}

// Whether an exponent follows another in a class: so its power is the square of the other's.
#[tactic(auto, unfolding(crate::specs::Polynomial::follows))]
pub fn follows(width: u32, e: u8, next: u8) -> bool
    requires { Narrow width }
    ensures { result ≡ polynomial.follows width e next }
{
    let twice = 2 * (e as u32);
    let order = (1 << width) - 1;
    twice == next as u32 || (0 < next && twice == next as u32 + order)
}

// A field, by its width and what y ^ width is reduced to. Elements are bytes below 2 ^ width, and its operations are for all bytes.
pub trait Field {
    const WIDTH: u32;

    ghost WIDTH: { ℕ };

    // y ^ (width - 1)
    const TOP: u32;

    ghost TOP: { ℕ };

    const REDUCTION: u32;

    ghost REDUCTION: { ℕ };

    // it is one of the three, with the numbers of that width
    ghost known: { Width WIDTH };

    ghost top: { 2 * TOP ≡ 2 ^ WIDTH };

    ghost reduced: { REDUCTION ≡ reduction WIDTH };

    // y times a: the bits below the top one move up, and the top one is reduced, which is a factor 0 or 1 (FIPS 197's xtime, 4.2.1).
    final fn twice(a: u32) -> u32
        ensures doubled { result ≡ spec.double WIDTH a }
        ensures byte { result < 2 ^ 8 }
    {
        (a % Self::TOP * 2) ^ (a / Self::TOP % 2 * Self::REDUCTION)
    }

    // The same of a byte.
    final fn double(a: u8) -> u8
        ensures { result ≡ spec.double WIDTH a }
    {
        Self::twice(u32::from(a)) as u8
    }

    // The product of a and b as FIPS 197 tells it (4.2, 4.2.1): a is doubled again and again, and added for each set bit
    // of b, lowest bit first. After each bit half the sum is a times the bits read so far: the loop's invariant, `AfterBits`
    // of specs/Loop.antt. Of a product with a factor of 0 or 1 a compiler makes a choice, and of that a jump; so the bits are
    // read one place higher than they lie in b, and so is the sum. With terms of eight bits it would do the bits side by side in one register, which takes longer.
    final fn multiply(a: u8, b: u8) -> u8
        ensures { result ≡ spec.mul WIDTH a b }
    {
        let mut sum: u32 = 0;
        let mut term = u32::from(a);
        let mut rest = u32::from(b) * 2;
        for _k in 0..Self::WIDTH {
            // read bit k of b: is y ^ k a term of b? The standard splits its second factor into such terms (4.2.1)
            let bit = rest / 2 % 2 * 2;
            // add, if the bit is set, y ^ k times a, an intermediate result (4.2.1): the bit is a factor 0 or 2
            sum ^= term * bit;
            // double, by xtime (4.2.1): from y ^ k times a to y ^ (k + 1) times a
            term = Self::twice(term);
            rest /= 2;
        }
        (sum / 2) as u8
    }

    // The same product of public values, in bytes: in loops over rows the compiler does many bytes at once (Fit at (4, 4) takes two thirds of the time), and a
    // choice by a bit tells nothing there.
    final fn multiply_public(a: u8, b: u8) -> u8
        ensures { result ≡ spec.mul WIDTH a b }
    {
        let mut sum: u8 = 0;
        let mut term = a;
        let mut left = b;
        for _k in 0..Self::WIDTH {
            sum ^= term * (left % 2);
            term = Self::double(term);
            left /= 2;
        }
        sum
    }
}

// The field of 16 elements.
pub struct Gf16;

// The field of 64 elements.
pub struct Gf64;

// The field of 256 elements.
pub struct Gf256;

impl Field for Gf16 {
    const WIDTH: u32 = 4;

    ghost WIDTH = { 4 };

    const TOP: u32 = 0b1000;

    ghost TOP = { 8 };

    // y ^ 4 is y + 1
    const REDUCTION: u32 = 0b0011;

    ghost REDUCTION = { 3 };

    ghost known = { inl refl };

    ghost top = { refl };

    ghost reduced = { reduction_4 };
}

impl Field for Gf64 {
    const WIDTH: u32 = 6;

    ghost WIDTH = { 6 };

    const TOP: u32 = 0b100000;

    ghost TOP = { 32 };

    // y ^ 6 is y + 1
    const REDUCTION: u32 = 0b000011;

    ghost REDUCTION = { 3 };

    ghost known = { inr (inl refl) };

    ghost top = { refl };

    ghost reduced = { reduction_6 };
}

impl Field for Gf256 {
    const WIDTH: u32 = 8;

    ghost WIDTH = { 8 };

    const TOP: u32 = 0b10000000;

    ghost TOP = { 128 };

    // y ^ 8 is y ^ 4 + y ^ 3 + y + 1: FIPS 197's {1b}
    const REDUCTION: u32 = 0b00011011;

    ghost REDUCTION = { 27 };

    ghost known = { inr (inr refl) };

    ghost top = { refl };

    ghost reduced = { reduction_8 };
}

// ---- at a width that is known when the program runs: a record names its own. The width is a number and `Narrow` a clause, and no type: callers have the
// number of a layout, whose facts say it, and a type would be made and opened again at each call.

// y times a.
pub fn double(width: u32, a: u8) -> u8
    requires { Width width }
    ensures { result ≡ spec.double width a }
{
    match width {
        8 => Gf256::double(a),
        4 => Gf16::double(a),
        _ => Gf64::double(a),
    }
}

// The product of a and b, for all bytes, of elements that may be secret: `Field::multiply` at each width.
pub fn double_and_add(width: u32, a: u8, b: u8) -> u8
    requires { Width width }
    ensures { result ≡ spec.mul width a b }
{
    match width {
        8 => Gf256::multiply(a, b),
        4 => Gf16::multiply(a, b),
        _ => Gf64::multiply(a, b),
    }
}

// The product of a and b, for all bytes, of public values.
pub fn mul(width: u32, a: u8, b: u8) -> u8
    requires { Narrow width }
    ensures { result ≡ spec.mul width a b }
{
    if width == 4 {
        Gf16::multiply_public(a, b)
    } else {
        Gf64::multiply_public(a, b)
    }
}

// The square of a.
#[tactic(auto, unfolding(crate::specs::Power::square))]
pub fn square(width: u32, a: u8) -> u8
    requires { Narrow width }
    ensures { result ≡ power.square width a }
{
    mul(width, a, a)
}

// a to the power e, by e products: for public values.
pub fn pow(width: u32, a: u8, e: u8) -> u8
    requires { Narrow width }
    ensures { result ≡ power.pow width a e }
{
    (0..e).fold(1, |product, _| mul(width, a, product))
}

// The inverse of an element but 0, as the product of a ^ 2, a ^ 4, a ^ 8 ..; of 0 it is 0.
pub fn inverse(width: u32, a: u8) -> u8
    requires narrow { Narrow width }
    requires a_bound { a < 2 ^ width }
    ensures { result ≡ power.inverse width a }
{
    let mut power = square(width, a);
    let mut product = power;
    for _k in 2..width {
        power = square(width, power);
        product = mul(width, product, power);
    }
    product
}
