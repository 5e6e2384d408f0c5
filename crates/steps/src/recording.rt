// Recorders: the one place where a step is recorded.
ghost use Rattle.std.specs.Prelude.{◌≡◌, List, [], ℕ, ◌+◌, ◌<◌, ◌≤◌, ◌^◌, length, take};
ghost use Rattle.steps.specs.Recorder.{seen};

// What records the steps of a run.
pub trait Recorder {
    // the watched numbers, and the values so far
    ghost watch: { Self → List ℕ };

    ghost values: { Self → List ℕ };

    // Step number `step` records v.
    fn record(&mut self, step: u32, v: u8)
        requires { length (watch self.old) ≡ length (values self.old) }
        ensures watch_kept { watch self.new ≡ watch self.old }
        ensures saw { values self.new ≡ seen (watch self.old) step v (values self.old) };
}

// Nobody watches.
#[derive(Clone, Copy)]
pub struct Unwatched;

impl Recorder for Unwatched {
    ghost watch = { λ u. [] };

    ghost values = { λ u. [] };

    #[tactic(auto, unfolding(crate::specs::Recorder::seen))]
    fn record(&mut self, _step: u32, _v: u8) {}
}

// A list of step numbers, at most 64, and the value of each at its place. The values are held here and copied out after the run, since nothing is
// known of a slice that is lent to a struct within a struct.
#[derive(Drop)]
pub struct Watch<'a> {
    pub list: &'a [u32],
    pub values: [u8; 64],
}

impl<'a> Watch<'a> {
    // A watch of which nothing is recorded yet.
    pub fn new(list: &'a [u32]) -> Self
        ensures list { result.list.now ≡ list.now }
        ensures places { length list.now ≤ 64 → length (take (length list.now) result.values) ≡ length list.now }
    {
        Watch {
            list,
            values: [0u8; 64],
        }
    }

    // Copies the values out.
    pub fn copy_to(&self, out: &mut [u8])
        requires { (length self.now.list.now ≤ 64) × (length out.old ≡ length self.now.list.now) }
        ensures { out.new ≡ take (length self.now.list.now) self.now.values }
    {
        out.copy_from_slice(&self.values[..self.list.len()]);
    }
}

impl Recorder for Watch<'_> {
    ghost watch = { λ w. w.list.now };

    ghost values = { λ w. take (length w.list.now) w.values };

    fn record(&mut self, step: u32, v: u8) {
        let count = self.list.len();
        observe(self.list, &mut self.values[..count], step, v);
    }
}

// Step number `step` records v: it goes to each place of the list that has this number. The list may be of any length. Most steps are named nowhere: a
// pass that no number ends finds that, many at once, and writes nothing. Else by index over the list: nothing is known of what `iter_mut` writes under a `zip`.
#[tactic(auto, using(crate::proofs::Recorder::places_seen))]
pub fn observe(list: &[u32], values: &mut [u8], step: u32, v: u8)
    requires { length list.now ≡ length values.old }
    ensures { values.new ≡ seen list.now step v values.old }
{
    if !list
        .iter()
        .fold(false, |any, number| any | (*number == step))
    {
        return;
    }
    for (k, value) in values.iter_mut().enumerate() {
        if list[k] == step {
            *value = v;
        }
    }
}
