// The masked product of two sharings, and the square of one.
#![tactic(auto)]

mod making;

ghost use Rattle.std.specs.Prelude.{◌≡◌, ◌+◌, ◌<◌, ◌≤◌, length};
ghost use Rattle.steps.specs.Program.{for};
ghost use Rattle.steps.specs.Machine.{Ready, Went};
ghost use Rattle.product.specs.Product as spec;
ghost use Rattle.product.specs.ByShare as by_share;

use field::Field;
pub use making::by_share;
use steps::machine::Machine;
use steps::{ShareCount, padded};

// A sharing: share i at place i, 0 past the shares in use.
pub type Sharing = [u8; 9];

// What share i of a sharing gets of the constant c: it goes to share 0 only.
#[tactic(auto, using(crate::proofs::ByShare::constant_first, crate::proofs::ByShare::constant_other))]
pub fn constant(i: usize, c: u8) -> u8
    ensures { result ≡ by_share.constant i c }
{
    if i == 0 { c } else { 0 }
}

// The seven steps of the pair of shares i and j.
fn pair<F: Field, M: Machine>(
    machine: &mut M,
    a: &Sharing,
    b: &Sharing,
    i: usize,
    j: usize,
    c: &mut Sharing,
)
    requires i_bound { (i < 9) × (j < 9) }
    requires ready { Ready (spec.pair F.WIDTH a.now b.now i j c.old) (M.state machine.old) }
    ensures { Went (spec.pair F.WIDTH a.now b.now i j c.old) (M.state machine.old) c.new (M.state machine.new) }
{
    let r = machine.draw();
    let x = F::multiply(a[i], b[j]);
    let y = r ^ x;
    let z = F::multiply(a[j], b[i]);
    let q = y ^ z;
    let u = c[i] ^ r;
    let v = c[j] ^ q;
    machine.record_all(&[r, x, y, z, q, u, v]);
    c[i] = u;
    c[j] = v;
}

// The pairs of share i with each share after it.
fn row<F: Field, M: Machine>(
    machine: &mut M,
    s: ShareCount,
    a: &Sharing,
    b: &Sharing,
    i: usize,
    c: &mut Sharing,
)
    requires i_bound { i < s.count }
    requires ready { Ready (spec.row F.WIDTH s.count a.now b.now i c.old) (M.state machine.old) }
    ensures { Went (spec.row F.WIDTH s.count a.now b.now i c.old) (M.state machine.old) c.new (M.state machine.new) }
{
    for j in i + 1..s.count {
        pair::<F, M>(machine, a, b, i, j, c);
    }
}

// The pairs of every share with each share after it.
fn rows<F: Field, M: Machine>(
    machine: &mut M,
    s: ShareCount,
    a: &Sharing,
    b: &Sharing,
    c: &mut Sharing,
)
    requires { Ready (for 0 s.count (spec.row F.WIDTH s.count a.now b.now) c.old) (M.state machine.old) }
    ensures { Went (for 0 s.count (spec.row F.WIDTH s.count a.now b.now) c.old) (M.state machine.old) c.new (M.state machine.new) }
{
    for i in 0..s.count {
        row::<F, M>(machine, s, a, b, i, c);
    }
}

// The product of share i of a and share i of b.
fn start<F: Field, M: Machine>(machine: &mut M, a: &Sharing, b: &Sharing, i: usize, c: &mut Sharing)
    requires i_bound { i < 9 }
    requires ready { Ready (spec.start F.WIDTH a.now b.now i c.old) (M.state machine.old) }
    ensures { Went (spec.start F.WIDTH a.now b.now i c.old) (M.state machine.old) c.new (M.state machine.new) }
{
    let v = F::multiply(a[i], b[i]);
    machine.record(v);
    c[i] = v;
}

// The product of each share of a and the same share of b.
fn starts<F: Field, M: Machine>(
    machine: &mut M,
    s: ShareCount,
    a: &Sharing,
    b: &Sharing,
    c: &mut Sharing,
)
    requires { Ready (for 0 s.count (spec.start F.WIDTH a.now b.now) c.old) (M.state machine.old) }
    ensures { Went (for 0 s.count (spec.start F.WIDTH a.now b.now) c.old) (M.state machine.old) c.new (M.state machine.new) }
{
    for i in 0..s.count {
        start::<F, M>(machine, a, b, i, c);
    }
}

// The square of a sharing of s shares: that of each share.
#[tactic(auto, unfolding(crate::specs::ByShare::square, crate::specs::ByShare::by_share, crate::specs::Product::start))]
pub fn square<F: Field, M: Machine>(machine: &mut M, s: ShareCount, a: &Sharing) -> Sharing
    requires { Ready (by_share.square F.WIDTH s.count a.now) (M.state machine.old) }
    ensures { Went (by_share.square F.WIDTH s.count a.now) (M.state machine.old) result (M.state machine.new) }
{
    let mut c = [0u8; 9];
    starts::<F, M>(machine, s, a, a, &mut c);
    c
}

// The masked product of two sharings of s shares.
pub fn product<F: Field, M: Machine>(
    machine: &mut M,
    s: ShareCount,
    a: &Sharing,
    b: &Sharing,
) -> Sharing
    requires { Ready (spec.product F.WIDTH s.count a.now b.now) (M.state machine.old) }
    ensures { Went (spec.product F.WIDTH s.count a.now b.now) (M.state machine.old) result (M.state machine.new) }
{
    let mut c = [0u8; 9];
    machine.begin_product();
    starts::<F, M>(machine, s, a, b, &mut c);
    rows::<F, M>(machine, s, a, b, &mut c);
    c
}

// The masked product of two sharings that lie in longer slices: of each only the first nine bytes count.
pub fn product_of_slices<F: Field, M: Machine>(
    machine: &mut M,
    s: ShareCount,
    a: &[u8],
    b: &[u8],
) -> Sharing
    requires nine { (9 ≤ length a.now) × (9 ≤ length b.now) }
    requires ready { Ready (spec.product F.WIDTH s.count a.now b.now) (M.state machine.old) }
    ensures { Went (spec.product F.WIDTH s.count a.now b.now) (M.state machine.old) result (M.state machine.new) }
{
    product::<F, M>(machine, s, &padded(&a[..9]), &padded(&b[..9]))
}
