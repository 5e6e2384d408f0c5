// A call that passed the tests, and its runs: for the S-box and its watch.
ghost use Rattle.std.specs.Prelude.{◌≡◌, ◌≤◌, length};
ghost use Rattle.refusal.specs.Large.{first_large};
ghost use Rattle.steps.specs.Machine.{Ready, Went, Whole};
ghost use Rattle.steps.specs.Program.{result as result_of, trace};
ghost use Rattle.steps.specs.Watch.{watched};
ghost use Rattle.sbox.specs.Passed.{Passed};

use crate::evaluation::run;
use decomposition::Record;
use product::Sharing;
use steps::machine::{Execution, Machine};
use steps::recording::{Unwatched, Watch};
use steps::{Counts, ShareCount, padded};

// A call that passed the tests. It is no `Ciphering` of crates/steps: it has one string of shares, and the bits of its random elements are known only with its
// record.
#[derive(Clone, Copy)]
pub struct AcceptedCall<'a> {
    pub record: Record<'a>,
    pub count: ShareCount,
    pub shares: &'a [u8],
    pub random: &'a [u8],
    pub ghost passed: { Passed record.layout record.coefficients.now count.count shares.now random.now },
}

impl AcceptedCall<'_> {
    ghost use Rattle.sbox.specs.Accepted.{program_of, tape_of, steps_of};

    // The masked S-box of its shares.
    fn substitute<M: Machine>(&self, machine: &mut M) -> Sharing
        requires { Ready (program_of self.now) (M.state machine.old) }
        ensures { Went (program_of self.now) (M.state machine.old) result (M.state machine.new) }
    {
        let x = padded(self.shares);
        run(
            machine,
            self.count,
            &self.record.layout,
            self.record.coefficients,
            &x,
        )
    }

    // A run that nobody watches, with random elements of so many bits. Each recorder is named where its run is made: over a recorder that is left open
    // the size of an `Execution` would have to be asked for in a clause.
    fn unwatched_at<const WIDTH: u32>(&self) -> (Sharing, Counts)
        requires { self.now.record.layout.width ≡ WIDTH }
        ensures { Whole (tape_of self.now) (program_of self.now) result.0 result.1 }
    {
        let mut machine = Execution::<WIDTH, Unwatched>::new(self.random, Unwatched);
        let result = self.substitute(&mut machine);
        (result, machine.counts)
    }

    // A run that nobody watches: the shares of its result, and its counts.
    pub fn unwatched(&self) -> (Sharing, Counts)
        ensures { Whole (tape_of self.now) (program_of self.now) result.0 result.1 }
    {
        if self.record.layout.width == 4 {
            self.unwatched_at::<4>()
        } else {
            self.unwatched_at::<6>()
        }
    }

    // A run that is watched, with random elements of so many bits: the values at the steps of the list are written, and the counts handed back.
    // List and values are the caller's, as in C.
    fn watched_at<const WIDTH: u32>(&self, list: &[u32], values: &mut [u8]) -> Counts
        requires width { self.now.record.layout.width ≡ WIDTH }
        requires places { (length list.now ≤ 64) × (length list.now ≡ length values.old) }
        requires below { length list.now ≤ first_large (steps_of self.now) list.now }
        ensures counts { Whole (tape_of self.now) (program_of self.now) (result_of (program_of self.now) (tape_of self.now)) result }
        ensures values { values.new ≡ watched list.now (trace (program_of self.now) (tape_of self.now)) }
    {
        let mut machine = Execution::<WIDTH, Watch>::new(self.random, Watch::new(list));
        self.substitute(&mut machine);
        machine.recorder.copy_to(values);
        machine.counts
    }

    // A run that is watched. Without numbers nobody watches, and no step asks a recorder.
    pub fn watched(&self, list: &[u32], values: &mut [u8]) -> Counts
        requires places { (length list.now ≤ 64) × (length list.now ≡ length values.old) }
        requires below { length list.now ≤ first_large (steps_of self.now) list.now }
        ensures counts { Whole (tape_of self.now) (program_of self.now) (result_of (program_of self.now) (tape_of self.now)) result }
        ensures values { values.new ≡ watched list.now (trace (program_of self.now) (tape_of self.now)) }
    {
        if list.is_empty() {
            self.unwatched().1
        } else if self.record.layout.width == 4 {
            self.watched_at::<4>(list, values)
        } else {
            self.watched_at::<6>(list, values)
        }
    }
}
