// A block of up to 256 shots: their frames carried in lanes, their results from the clean ones.
#![tactic(auto)]

mod clean;

ghost use Rattle.std.specs.Prelude.{◌≡◌, ℕ, List, ◌+◌, ◌*◌, ◌<◌, ◌≤◌, get_or, length};
ghost use Rattle.operation.specs.declared.WeylError.{WeylError};
ghost use Rattle.circuit.specs.Circuit.{measured};
ghost use Rattle.lanes.specs.Lanes.{Lanes};
ghost use Rattle.tile.specs.Tile.{ShotsRoom};
ghost use Rattle.calendar.specs.Calendar.{lane_errors};
ghost use Rattle.correction.specs.Correction.{Corrected};
ghost use Rattle.block.specs.Carried.{CarriedAll};
ghost use Rattle.block.specs.Block.{operations_in, results_in, BlockStart, AtOperation, ResultsUpTo, reported_at, Reported, Stepped, AllResults};

use calendar::{LaneErrors, Queue};
pub use clean::CleanRun;
use correction::Reports;
use frame_powers::Reset;
use operation::Operation;
use tile::HeldResults;

// The frames of 256 lanes, of which the first `used` have a shot each, the queue of their errors, and the results that are not in the
// shots yet.
#[derive(Drop)]
pub struct Block {
    pub lanes: [u8; 32768],
    pub used: usize,
    pub queue: Queue,
    pub held: HeldResults,
}

impl Block {
    // A correction of qudit t by measurement i: a lane loses its reported result less the clean one. A result that is not held is read
    // from the shot.
    fn correct(&mut self, out: &[u8], clean: &CleanRun, t: usize, i: usize)
        requires qudit_in { t < clean.now.n }
        requires earlier { i < results_in self.old.held }
        requires measured_too { i < measured (operations_in clean.now) (length (operations_in clean.now)) }
        requires lanes { Lanes clean.now.m.d clean.now.n self.old.lanes }
        requires reported { Reported clean.now self.old out.now }
        ensures corrected { Corrected clean.now.m.d clean.now.n t (get_or clean.now.results.now (2 * i) 0) self.old.used (reported_at clean.now self.old out.now i) self.old.lanes self.new.lanes }
        ensures lanes { Lanes clean.now.m.d clean.now.n self.new.lanes }
        ensures used { self.new.used ≡ self.old.used }
        ensures queue { self.new.queue ≡ self.old.queue }
        ensures held { self.new.held ≡ self.old.held }
    {
        let held = &self.held;
        let reports = Reports {
            out,
            w: clean.w,
            used: self.used,
            tile: &held.tile.cells,
            base: held.first,
        };
        reports.correct(
            &mut self.lanes,
            i,
            t,
            clean.results[2 * i],
            clean.m,
            clean.n,
        );
    }

    // Operation k on each lane; a gate is told by its code, before anything is decoded. The results of a measurement are held.
    fn perform(&mut self, out: &[u8], clean: &CleanRun, k: usize)
        requires at { AtOperation clean.now k self.old }
        requires reported { Reported clean.now self.old out.now }
        ensures stepped { Stepped clean.now k out.now self.old self.new }
        ensures lanes { Lanes clean.now.m.d clean.now.n self.new.lanes }
        ensures used { self.new.used ≡ self.old.used }
        ensures queue { self.new.queue ≡ self.old.queue }
    {
        let n = clean.n;
        if clean.ops[4 * k] < 6 {
            lane_gate::perform(&mut self.lanes, clean.ops, k, clean.m, n);
            return;
        }
        match operation_codes::operation_of(clean.ops, k, clean.m.d, n) {
            Operation::Measure { q } => {
                let j = self.held.first + self.held.count;
                let r = clean.results[2 * j];
                let mark = clean.results[2 * j + 1];
                self.held.push(&self.lanes, q, r, mark, clean.m.d, n);
            }
            Operation::Reset { q } => lanes::change_lanes(&mut self.lanes, Reset { q }, clean.m, n),
            Operation::Correct { t, m: i } => self.correct(out, clean, t, i),
            _ => unreachable!(),
        }
    }

    // A full tile is written to the shots. (The length of the loops in `flush` is not told to the compiler: a constant 16 would be
    // unrolled into single bytes.)
    fn flush_full(&mut self, out: &mut [u8], clean: &CleanRun)
        requires wide { 1 + 2 * results_in self.old.held ≤ clean.now.w }
        requires shots { ShotsRoom clean.now.w self.old.used out.old }
        ensures results { (errors : ℕ → List WeylError) → ResultsUpTo clean.now errors self.old.used self.old.held out.old → ResultsUpTo clean.now errors self.old.used self.new.held out.new }
        ensures count { results_in self.new.held ≡ results_in self.old.held }
        ensures room { self.new.held.count < 16 }
        ensures lanes { self.new.lanes ≡ self.old.lanes }
        ensures used { self.new.used ≡ self.old.used }
        ensures queue { self.new.queue ≡ self.old.queue }
    {
        if 16 <= self.held.count {
            self.held.flush(out, clean.w, self.used);
        }
    }

    // All operations, with the errors before and after them: every result of each shot is written, and the lanes hold the final frames.
    pub fn run(&mut self, out: &mut [u8], clean: &CleanRun, errors: &LaneErrors)
        requires start { BlockStart clean.now errors.now self.old }
        requires shots { ShotsRoom clean.now.w self.old.used out.old }
        ensures carried { CarriedAll clean.now.m.d clean.now.n (operations_in clean.now) (lane_errors errors.now) self.old.used self.old.lanes self.new.lanes }
        ensures lanes { Lanes clean.now.m.d clean.now.n self.new.lanes }
        ensures results { AllResults clean.now.m.d clean.now.n (operations_in clean.now) (lane_errors errors.now) clean.now.results.now clean.now.w self.old.used out.old out.new }
    {
        let count = clean.ops.len() / 4;
        for k in 0..count {
            self.queue.apply_at_place(&mut self.lanes, errors, k);
            self.perform(out, clean, k);
            self.flush_full(out, clean);
        }
        self.queue.apply_at_place(&mut self.lanes, errors, count);
        self.held.flush(out, clean.w, self.used);
    }
}
