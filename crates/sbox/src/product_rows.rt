// The products of the p and the q, and their sum with the last p.
ghost use Rattle.std.specs.Prelude.{◌<◌, ◌≤◌, length};
ghost use Rattle.steps.specs.Machine.{Ready, Went};
ghost use Rattle.steps.specs.Program.{for};
ghost use Rattle.steps.specs.Sharing.{share};
ghost use Rattle.product.specs.ByShare.{nth};
ghost use Rattle.sbox.specs.Sbox as sbox;
ghost use Rattle.sbox.specs.TableSteps as spec;

use field::Field;
use product::{Sharing, product};
use steps::ShareCount;
use steps::machine::Machine;

// The products of the first h of the p with the q: each replaces its p. By index, as one row is read and written in a turn, and a machine goes along.
pub fn products<F: Field, M: Machine>(
    machine: &mut M,
    s: ShareCount,
    h: usize,
    q: &[Sharing],
    p: &mut [Sharing],
)
    requires bounds { (h ≤ length q.now) × (h ≤ length p.old) }
    requires ready { Ready (for 0 h (spec.product_row F.WIDTH s.count q.now) p.old) (M.state machine.old) }
    ensures { Went (for 0 h (spec.product_row F.WIDTH s.count q.now) p.old) (M.state machine.old) p.new (M.state machine.new) }
{
    for j in 0..h {
        p[j] = product::<F, M>(machine, s, &p[j], &q[j]);
    }
}

// Share i of the first sharing plus those of the next h, in order, by the numbers that the definition's loop has.
fn total_share<M: Machine>(machine: &mut M, terms: &[Sharing], h: usize, i: usize) -> u8
    requires bounds { (i < 9) × (h < length terms.now) }
    requires ready { Ready (for 0 h (spec.add_next terms.now i) (share (nth terms.now 0) i)) (M.state machine.old) }
    ensures { Went (for 0 h (spec.add_next terms.now i) (share (nth terms.now 0) i)) (M.state machine.old) result (M.state machine.new) }
{
    let mut sum = terms[0][i];
    for j in 0..h {
        sum ^= terms[j + 1][i];
        machine.record(sum);
    }
    sum
}

// The first sharing plus the next h, in order.
pub fn total<M: Machine>(machine: &mut M, s: ShareCount, terms: &[Sharing], h: usize) -> Sharing
    requires bounds { h < length terms.now }
    requires ready { Ready (sbox.total s.count terms.now h) (M.state machine.old) }
    ensures { Went (sbox.total s.count terms.now h) (M.state machine.old) result (M.state machine.new) }
{
    product::by_share(machine, s, |machine, i| {
        total_share::<M>(machine, terms, h, i)
    })
}
