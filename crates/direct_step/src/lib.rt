// A step of the direct run: the errors of its place, then its operation.
#![tactic(auto)]

ghost use Rattle.std.specs.Prelude.{◌≡◌, ◌≢◌, true, ◌+◌, ◌*◌, ◌<◌, ◌≤◌, length, slice_index};
ghost use Rattle.validity.specs.Validity.{Valid};
ghost use Rattle.operation.specs.Operation.{allowed, named};
ghost use Rattle.operation.specs.Gate.{gate_rows};
ghost use Rattle.operation.specs.Error.{error_rows, minus_x};
ghost use Rattle.circuit.specs.Circuit.{op_at, gate, kind, tally, measurement_count, choice_tally, chosen, ErrorsInOrder};
ghost use Rattle.book.specs.Circuits.{operation_list, error_list, AcceptedCircuit};
ghost use Rattle.runs.specs.Run.{result_of};
ghost use Rattle.runs.specs.Reached.{Reached, AtStep};
ghost use Rattle.runs.specs.Direct.{state_of, errors_on_rows, direct_operation, direct_step};
ghost use Rattle.measure_step.specs.Supplied.{RunTables, Supplied};

use book::Circuit;
use operation::{Operation, Step};
use runs::Position;
use tables::Tables;

// Applies the errors of place k, which begin at entry j, to every row. The first entry of a later place is returned.
pub fn apply_errors(t: &mut [u8], circuit: &Circuit, j: usize, k: usize, tables: &Tables) -> usize
    requires made { RunTables circuit.now.d circuit.now.n tables.now.d }
    requires reached { Reached (error_list circuit.now) j k }
    requires in_order { ErrorsInOrder circuit.now.d circuit.now.n (error_list circuit.now) }
    requires valid { Valid circuit.now.d circuit.now.n t.old }
    ensures rows { t.new
        ≡ errors_on_rows circuit.now.d circuit.now.n (error_list circuit.now) k t.old
        (length (error_list circuit.now)) }
    ensures reached { Reached (error_list circuit.now) result (k + 1) }
    ensures valid { Valid circuit.now.d circuit.now.n t.new }
{
    let count = circuit.error_count();
    for i in j..count {
        let e = circuit.error(i);
        if e.place != k {
            return i;
        }
        error::error_rows(t, e, tables, circuit.n);
    }
    count
}

// Corrects qudit q by the result of measurement m, taken modulo d: X to the minus that result is applied.
fn correct(t: &mut [u8], results: &[u8], m: usize, q: usize, tables: &Tables, d: u8, n: usize)
    requires made { RunTables d n tables.now.d }
    requires qudit { q < n }
    requires earlier { 2 * m < length results.now }
    requires valid { Valid d n t.old }
    ensures rows { t.new ≡ error_rows d n (minus_x d q (result_of d results.now m)) t.old }
    ensures valid { Valid d n t.new }
{
    let r = results[2 * m] % d;
    error::minus_x_rows(t, q, r, tables, n);
}

// Does a step that is no gate, from where the run stands.
fn perform(
    t: &mut [u8],
    results: &mut [u8],
    circuit: &Circuit,
    step: Step,
    at: Position,
    tables: &Tables,
)
    requires made { RunTables circuit.now.d circuit.now.n tables.now.d }
    requires allowed { allowed circuit.now.d circuit.now.n step.operation ≡ true }
    requires named { named at.measurements step.operation ≡ true }
    requires no_gate { kind step.operation ≢ gate }
    requires supplied { Supplied circuit.now.d at.choices (choice_tally step.operation) circuit.now.choices.now }
    requires room { 2 * (at.measurements + tally step.operation) ≤ length results.old }
    requires valid { Valid circuit.now.d circuit.now.n t.old }
    ensures state { state_of t.new results.new
        ≡ direct_operation circuit.now.d circuit.now.n circuit.now.choices.now at.choices at.measurements
        (state_of t.old results.old) step.operation }
    ensures valid { Valid circuit.now.d circuit.now.n t.new }
{
    let choices = circuit.choices;
    let c = at.choices;
    let j = at.measurements;
    let d = circuit.d;
    let n = circuit.n;
    match step.operation {
        Operation::Measure { q } => {
            measure_step::measure(t, results, choices, c, j, q, tables, d, n);
        }
        Operation::Reset { q } => {
            measure_step::reset(t, choices, c, q, tables, d, n);
        }
        Operation::Correct { t: q, m } => {
            correct(t, results, m, q, tables, d, n);
        }
        // Gates are told by their code before.
        _ => unreachable!(),
    }
}

// Operation k, which is no gate, from where the run stands.
pub fn operate(
    t: &mut [u8],
    results: &mut [u8],
    circuit: &Circuit,
    k: usize,
    at: Position,
    tables: &Tables,
)
    requires inside { k < length (operation_list circuit.now) }
    requires made { RunTables circuit.now.d circuit.now.n tables.now.d }
    requires allowed { allowed circuit.now.d circuit.now.n (op_at (operation_list circuit.now) k) ≡ true }
    requires no_gate { 6 ≤ slice_index circuit.now.ops.now (4 * k) }
    requires named { named at.measurements (op_at (operation_list circuit.now) k) ≡ true }
    requires supplied { Supplied circuit.now.d at.choices (choice_tally (op_at (operation_list circuit.now) k)) circuit.now.choices.now }
    requires room { 2 * (at.measurements + tally (op_at (operation_list circuit.now) k)) ≤ length results.old }
    requires valid { Valid circuit.now.d circuit.now.n t.old }
    ensures state { state_of t.new results.new
        ≡ direct_operation circuit.now.d circuit.now.n circuit.now.choices.now at.choices at.measurements
        (state_of t.old results.old) (op_at (operation_list circuit.now) k) }
    ensures valid { Valid circuit.now.d circuit.now.n t.new }
{
    let step = operation_codes::step_of(circuit.ops, k, circuit.d, circuit.n);
    perform(t, results, circuit, step, at, tables);
}

// Operation k, a gate, on the rows. (Beside the other operations, in `operate`, its loops would lack registers.)
pub fn operate_gate(t: &mut [u8], circuit: &Circuit, k: usize, tables: &Tables)
    requires inside { k < length (operation_list circuit.now) }
    requires made { RunTables circuit.now.d circuit.now.n tables.now.d }
    requires allowed { allowed circuit.now.d circuit.now.n (op_at (operation_list circuit.now) k) ≡ true }
    requires valid { Valid circuit.now.d circuit.now.n t.old }
    ensures rows { t.new
        ≡ gate_rows circuit.now.d circuit.now.n (op_at (operation_list circuit.now) k) t.old }
    ensures valid { Valid circuit.now.d circuit.now.n t.new }
{
    let step = operation_codes::step_of(circuit.ops, k, circuit.d, circuit.n);
    gate::gate_rows(t, step.operation, tables, circuit.n);
}

// Counts operation k by its code.
pub fn counted(circuit: &Circuit, k: usize, at: Position) -> Position
    requires inside { k < length (operation_list circuit.now) }
    requires allowed { allowed circuit.now.d circuit.now.n (op_at (operation_list circuit.now) k) ≡ true }
    requires few_measurements { at.measurements ≤ k }
    requires few_choices { at.choices ≤ k }
    ensures entry { result.entry ≡ at.entry }
    ensures measurements { result.measurements
        ≡ at.measurements + tally (op_at (operation_list circuit.now) k) }
    ensures choices { result.choices
        ≡ at.choices + choice_tally (op_at (operation_list circuit.now) k) }
{
    let code = circuit.code(k);
    Position {
        measurements: at.measurements + usize::from(code == 6),
        choices: at.choices + usize::from((code == 6) | (code == 7)),
        ..at
    }
}

// Step k: the errors of place k, then operation k.
#[tactic(auto, using(crate::proofs::Counting::counting))]
pub fn advance(
    t: &mut [u8],
    results: &mut [u8],
    circuit: &Circuit,
    k: usize,
    at: Position,
    tables: &Tables,
) -> Position
    requires inside { k < length (operation_list circuit.now) }
    requires made { RunTables circuit.now.d circuit.now.n tables.now.d }
    requires accepted { AcceptedCircuit circuit.now }
    requires stands { AtStep (operation_list circuit.now) (error_list circuit.now) k at }
    requires chosen { at.choices ≡ chosen (operation_list circuit.now) k }
    requires room { 2 * measurement_count (operation_list circuit.now) ≤ length results.old }
    requires valid { Valid circuit.now.d circuit.now.n t.old }
    ensures state { state_of t.new results.new
        ≡ direct_step circuit.now.d circuit.now.n (operation_list circuit.now) (error_list circuit.now)
        circuit.now.choices.now k (state_of t.old results.old) }
    ensures stands { AtStep (operation_list circuit.now) (error_list circuit.now) (k + 1) result }
    ensures chosen { result.choices ≡ chosen (operation_list circuit.now) (k + 1) }
    ensures valid { Valid circuit.now.d circuit.now.n t.new }
    ensures same_room { length results.new ≡ length results.old }
{
    let entry = apply_errors(t, circuit, at.entry, k, tables);
    let next = counted(circuit, k, Position { entry, ..at });
    if circuit.code(k) < 6 {
        operate_gate(t, circuit, k, tables);
        return next;
    }
    operate(t, results, circuit, k, at, tables);
    next
}
