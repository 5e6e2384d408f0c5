// What takes the steps of a program, and a run on lent random elements.
ghost use Rattle.std.specs.Prelude.{◌≡◌, ◌+◌, ◌<◌, ◌^◌, length};
ghost use Rattle.steps.specs.Machine.{State, next_of, drawn, recorded, recorded_all, begun, zero_counts};
ghost use Rattle.steps.specs.Tape.{elements};

use crate::counts::Counts;
use crate::drawing::draw;
use crate::recording::Recorder;

// A machine: a masked computation draws its random elements from it and has it record its steps. The share count goes beside it: programs are defined for
// a share count, and with one in the machine each contract would say that it is kept. That a computation takes the steps of a program is
// said of the machine's state, before and after.
pub trait Machine {
    ghost state: { Self → State };

    // The next random element.
    fn draw(&mut self) -> u8
        requires { ((state self.old).counts.random < length (state self.old).tape) × ((state self.old).counts.random + 1 < 2 ^ 64) }
        ensures element { result ≡ next_of (state self.old) }
        ensures after { state self.new ≡ drawn (state self.old) };

    // A step records v.
    fn record(&mut self, v: u8)
        requires { ((state self.old).counts.steps + 1 < 2 ^ 32) × (length (state self.old).watch ≡ length (state self.old).values) }
        ensures { state self.new ≡ recorded v (state self.old) };

    // The next steps record these elements, in order.
    #[tactic(auto, using(crate::proofs::Exec::recordings))]
    fn record_all(&mut self, elements: &[u8])
        requires { ((state self.old).counts.steps + length elements.now < 2 ^ 32) × (length (state self.old).watch ≡ length (state self.old).values) }
        ensures { state self.new ≡ recorded_all elements.now (state self.old) }
    {
        for v in elements {
            self.record(*v);
        }
    }

    // A masked product begins.
    fn begin_product(&mut self)
        requires { (state self.old).counts.products + 1 < 2 ^ 64 }
        ensures { state self.new ≡ begun (state self.old) };
}

// A run on lent random elements of so many bits, under a recorder. It counts what it takes: a recorder is told a step's number, and need not count.
#[derive(Drop)]
pub struct Execution<'a, const WIDTH: u32, R> {
    pub random: &'a [u8],
    pub recorder: R,
    pub counts: Counts,
}

impl<'a, const WIDTH: u32, R: Recorder> Execution<'a, WIDTH, R> {
    // A run from the start.
    pub fn new(random: &'a [u8], recorder: R) -> Self
        ensures random { result.random.now ≡ random.now }
        ensures recorder { result.recorder ≡ recorder }
        ensures counts { result.counts ≡ zero_counts }
    {
        Execution {
            random,
            recorder,
            counts: Counts::zero(),
        }
    }
}

impl<const WIDTH: u32, R: Recorder> Machine for Execution<'_, WIDTH, R> {
    ghost state = { λ run. record {
      tape = elements WIDTH run.random.now;
      watch = R.watch run.recorder;
      counts = run.counts;
      values = R.values run.recorder;
    } };

    fn draw(&mut self) -> u8 {
        let element = draw(WIDTH, self.random, self.counts.random);
        self.counts.random += 1;
        element
    }

    fn record(&mut self, v: u8) {
        self.recorder.record(self.counts.steps, v);
        self.counts.steps += 1;
    }

    fn begin_product(&mut self) {
        self.counts.products += 1;
    }
}
