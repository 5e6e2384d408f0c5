// The recording of nibbles. A step names its share by number, so a share is that number and a place in the bytes of all, and no slice of its own.
ghost use Rattle.std.specs.Prelude.{◌+◌, ◌*◌, ◌<◌, ◌≤◌, length};
ghost use Rattle.steps.specs.Machine.{Ready, Went};
ghost use Rattle.steps.specs.Program.{one, note};
ghost use Rattle.present.specs.Present.{nibble};
ghost use Rattle.present.specs.Masked.{note_nibbles, note_shares};
ghost use Rattle.steps.specs.ShareBytes.{share_at, sharing};

use steps::ShareCount;
use steps::machine::Machine;

// Records nibble k of share i, of w bytes.
fn record_nibble<M: Machine>(machine: &mut M, w: usize, i: usize, k: usize, l: &[u8])
    requires in_bounds { (k < 2 * w) × (w * i + w ≤ length l.now) }
    requires ready { Ready (note (one i) (nibble k (share_at w l.now i))) (M.state machine.old) }
    ensures { Went (note (one i) (nibble k (share_at w l.now i))) (M.state machine.old)
        (nibble k (share_at w l.now i)) (M.state machine.new) }
{
    let v = layers::nibble(w, i, k, l);
    machine.record(v);
}

// Records the nibbles of share i, of w bytes, from number `start` up to `end`, `end` not included.
pub fn record_nibbles<M: Machine>(
    machine: &mut M,
    w: usize,
    i: usize,
    start: usize,
    end: usize,
    l: &[u8],
)
    requires in_bounds { (end ≤ 2 * w) × (w * i + w ≤ length l.now) }
    requires ready { Ready (note_nibbles i start end (share_at w l.now i)) (M.state machine.old) }
    ensures { Went (note_nibbles i start end (share_at w l.now i)) (M.state machine.old) tt (M.state machine.new) }
{
    for k in start..end {
        record_nibble(machine, w, i, k, l);
    }
}

// Records all nibbles of each share, of w bytes.
pub fn record_shares<M: Machine>(machine: &mut M, w: usize, s: ShareCount, l: &[u8])
    requires in_bounds { w * s.count ≤ length l.now }
    requires ready { Ready (note_shares (2 * w) s.count (sharing w s.count l.now)) (M.state machine.old) }
    ensures { Went (note_shares (2 * w) s.count (sharing w s.count l.now)) (M.state machine.old) tt (M.state machine.new) }
{
    for i in 0..s.count {
        record_nibbles(machine, w, i, 0, 2 * w, l);
    }
}
