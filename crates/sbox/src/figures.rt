// The figures of the masked S-box of s shares. The pairs of width and output bits are told apart by the two numbers, as everywhere: a layout has these.
ghost use Rattle.std.specs.Prelude.{◌≡◌, ◌-◌, ◌*◌};
ghost use Rattle.decomposition.specs.Layout.{Pair};
ghost use Rattle.sbox.specs.Figures.{sbox_draws};

use crate::calling::AcceptedCall;
use decomposition::Layout;
use steps::ShareCount;

// How many random elements the steps draw.
pub fn draw_count(layout: &Layout, s: ShareCount) -> usize
    requires { Pair layout.now.width layout.now.outputs }
    ensures { result ≡ sbox_draws layout.now.width layout.now.outputs s.count }
{
    let ordered = s.ordered_pairs();
    match (layout.width, layout.outputs) {
        (4, _) => ordered,
        (_, 6) => 5 * ordered / 2,
        _ => 2 * ordered,
    }
}

impl AcceptedCall<'_> {
    ghost use Rattle.sbox.specs.Accepted.{steps_of};

    // How many steps there are.
    pub fn step_count(&self) -> u32
        ensures { result ≡ steps_of self.now }
    {
        let ordered = self.count.ordered_pairs() as u32;
        let s = self.count.count as u32;
        match (self.record.layout.width, self.record.layout.outputs) {
            (4, _) => 57 * s + 7 * ordered,
            (_, 6) => 275 * s + 35 * ordered / 2,
            _ => 201 * s + 14 * ordered,
        }
    }
}
