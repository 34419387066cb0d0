// A frame carried over a circuit: errors, gates, resets and corrections change it, and each result gains its X power on the measured
// qudit.
#![tactic(auto)]

ghost use Rattle.std.specs.Prelude.{◌≡◌, true, ◌+◌, ◌*◌, ◌<◌, ◌≤◌, length};
ghost use Rattle.modular.specs.Dimension.{listed};
ghost use Rattle.row.specs.Row.{Powers};
ghost use Rattle.operation.specs.Operation.{allowed, named};
ghost use Rattle.circuit.specs.Circuit.{kind, tally, measurement_count, ErrorsInOrder};
ghost use Rattle.book.specs.Circuits.{operation_list, error_list};
ghost use Rattle.operation_codes.specs.Allowed.{AllAllowed, AllNamed};
ghost use Rattle.runs.specs.Reached.{Reached, AtStep};
ghost use Rattle.runs.specs.Frame.{errors_on_frame};
ghost use Rattle.runs.specs.Raised.{final_frame};
ghost use Rattle.runs.specs.Carry.{reported};
ghost use Rattle.frame_carry.specs.Shifted.{Noted, moved_by, shifted_by, noted_by, frame_after, results_after, shifts_after};

use book::Circuit;
use frame_powers::{Correction, Reset, change_frame, gate_frame};
use modular::Modulus;
use operation::Operation;
use runs::Position;

// Takes the errors of place k, which begin at entry j, into the frame. The first entry of a later place is returned.
fn apply_errors(frame: &mut [u8], circuit: &Circuit, j: usize, k: usize, m: Modulus) -> usize
    requires modulus { m.d ≡ circuit.now.d }
    requires reached { Reached (error_list circuit.now) j k }
    requires in_order { ErrorsInOrder circuit.now.d circuit.now.n (error_list circuit.now) }
    requires frame { Powers m.d circuit.now.n frame.old }
    ensures struck { frame.new
        ≡ errors_on_frame m.d circuit.now.n (error_list circuit.now) k frame.old (length (error_list circuit.now)) }
    ensures frame { Powers m.d circuit.now.n frame.new }
    ensures reached { Reached (error_list circuit.now) result (k + 1) }
{
    let end = place_errors::end_of_place(circuit.errors, j, k);
    for i in j..end {
        change_frame(frame, circuit.error(i), m, circuit.n);
    }
    end
}

// An operation: a gate on the frame, the frame's X power to the outcome of measurement j and to its shift; a reset clears the X
// power, and a correction takes out of it the shift of an earlier measurement.
#[tactic(auto, unfolding(crate::specs::Shifted::moved_by, crate::specs::Shifted::shifted_by, crate::specs::Shifted::noted_by))]
fn perform(
    frame: &mut [u8],
    results: &mut [u8],
    shifts: &mut [u8],
    operation: Operation,
    j: usize,
    m: Modulus,
    n: usize,
)
    requires dimension { listed m.d ≡ true }
    requires allowed { allowed m.d n operation ≡ true }
    requires named { named j operation ≡ true }
    requires room { 2 * (j + tally operation) ≤ length results.old }
    requires noted { Noted m.d (j + tally operation) j shifts.old }
    requires frame { Powers m.d n frame.old }
    ensures moved { frame.new ≡ moved_by m.d n operation (kind operation) shifts.old frame.old }
    ensures shifted { results.new ≡ shifted_by m.d j (kind operation) frame.old results.old }
    ensures noted { shifts.new ≡ noted_by j (kind operation) frame.old shifts.old }
    ensures frame { Powers m.d n frame.new }
{
    match operation {
        Operation::Measure { q } => {
            let x = frame[q];
            shifts[j] = x;
            results[2 * j] = m.reduce_sum(results[2 * j], x);
        }
        Operation::Reset { q } => change_frame(frame, Reset { q }, m, n),
        Operation::Correct { t, m: of } => {
            let shift = shifts[of];
            change_frame(frame, Correction { q: t, shift }, m, n);
        }
        _ => gate_frame(frame, operation, m, n),
    }
}

// Step k: the errors of place k, then operation k.
fn advance(
    frame: &mut [u8],
    results: &mut [u8],
    shifts: &mut [u8],
    circuit: &Circuit,
    k: usize,
    at: Position,
    m: Modulus,
) -> Position
    requires modulus { m.d ≡ circuit.now.d }
    requires dimension { listed circuit.now.d ≡ true }
    requires allowed { AllAllowed circuit.now.d circuit.now.n (operation_list circuit.now) }
    requires named { AllNamed (operation_list circuit.now) }
    requires in_order { ErrorsInOrder circuit.now.d circuit.now.n (error_list circuit.now) }
    requires inside { k < length (operation_list circuit.now) }
    requires position { AtStep (operation_list circuit.now) (error_list circuit.now) k at }
    requires room { 2 * measurement_count (operation_list circuit.now) ≤ length results.old }
    requires noted { Noted m.d (measurement_count (operation_list circuit.now)) at.measurements shifts.old }
    requires frame { Powers m.d circuit.now.n frame.old }
    ensures moved { frame.new
        ≡ frame_after m.d circuit.now.n (operation_list circuit.now) (error_list circuit.now) k shifts.old frame.old }
    ensures shifted { results.new
        ≡ results_after m.d circuit.now.n (operation_list circuit.now) (error_list circuit.now) k frame.old results.old }
    ensures noted { shifts.new
        ≡ shifts_after m.d circuit.now.n (operation_list circuit.now) (error_list circuit.now) k frame.old shifts.old }
    ensures position { AtStep (operation_list circuit.now) (error_list circuit.now) (k + 1) result }
    ensures frame { Powers m.d circuit.now.n frame.new }
{
    let entry = apply_errors(frame, circuit, at.entry, k, m);
    let operation = operation_codes::operation_of(circuit.ops, k, circuit.d, circuit.n);
    perform(
        frame,
        results,
        shifts,
        operation,
        at.measurements,
        m,
        circuit.n,
    );
    // No choice is taken here, and none is counted.
    Position {
        entry,
        measurements: at.measurements + circuit::tally(operation),
        ..at
    }
}

// All operations with the errors before and after them, from any frame: the frame becomes the final one, and each outcome gains its
// shift.
pub fn carry(frame: &mut [u8], results: &mut [u8], circuit: &Circuit)
    requires dimension { listed circuit.now.d ≡ true }
    requires allowed { AllAllowed circuit.now.d circuit.now.n (operation_list circuit.now) }
    requires named { AllNamed (operation_list circuit.now) }
    requires in_order { ErrorsInOrder circuit.now.d circuit.now.n (error_list circuit.now) }
    requires few { measurement_count (operation_list circuit.now) ≤ 4096 }
    requires room { 2 * measurement_count (operation_list circuit.now) ≤ length results.old }
    requires frame { Powers circuit.now.d circuit.now.n frame.old }
    ensures final_frame { frame.new
        ≡ final_frame circuit.now.d circuit.now.n (operation_list circuit.now) (error_list circuit.now) frame.old }
    ensures reported { results.new
        ≡ reported circuit.now.d circuit.now.n (operation_list circuit.now) (error_list circuit.now) frame.old results.old }
    ensures frame { Powers circuit.now.d circuit.now.n frame.new }
    ensures len { length frame.new ≡ length frame.old }
{
    let m = Modulus::new(circuit.d);
    let mut shifts = [0u8; 4096];
    let mut at = Position::default();
    let count = circuit.count();
    for k in 0..count {
        at = advance(frame, results, &mut shifts, circuit, k, at, m);
    }
    apply_errors(frame, circuit, at.entry, count, m);
}
