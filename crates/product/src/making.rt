// Sharings that are made share by share.
ghost use Rattle.std.specs.Prelude.{ℕ};
ghost use Rattle.steps.specs.Machine.{Ready, Went};
ghost use Rattle.steps.specs.Program.{Run};
ghost use Rattle.product.specs.ByShare.{by_share};
ghost use Rattle.product.specs.Makes.{Makes};

use crate::Sharing;
use steps::ShareCount;
use steps::machine::Machine;

// The sharing of which `share` gives share i on the machine. (A closure for `array::from_fn` would have to hold the machine, and to be asked past the shares
// in use.)
pub fn by_share<M: Machine, F: Fn(&mut M, usize) -> u8>(
    machine: &mut M,
    s: ShareCount,
    share: F,
) -> Sharing
    requires { (f : ℕ → Run ℕ) × Makes (λ m. M.state m.now) (F.pre share) (F.post share) s.count f
        × Ready (by_share s.count f) (M.state machine.old) }
    ensures { (f : ℕ → Run ℕ) → Makes (λ m. M.state m.now) (F.pre share) (F.post share) s.count f
        → Ready (by_share s.count f) (M.state machine.old)
        → Went (by_share s.count f) (M.state machine.old) result (M.state machine.new) }
{
    let mut c = [0u8; 9];
    for i in 0..s.count {
        c[i] = share(machine, i);
    }
    c
}
