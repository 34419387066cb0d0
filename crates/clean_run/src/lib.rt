// The clean run: every operation on the rows, and no errors.
#![tactic(auto)]

ghost use Rattle.std.specs.Prelude.{◌≡◌, true, [], ◌*◌, ◌≤◌, length};
ghost use Rattle.modular.specs.Dimension.{listed};
ghost use Rattle.validity.specs.Validity.{Valid};
ghost use Rattle.circuit.specs.Circuit.{measurement_count, Accepted};
ghost use Rattle.book.specs.Circuits.{operation_list};
ghost use Rattle.runs.specs.Direct.{state_of, direct_run};
ghost use Rattle.measure_step.specs.Supplied.{RunTables};

use book::Circuit;
use runs::Position;
use tables::Tables;

// Every operation. The number of measurements.
#[tactic(auto, using(direct_step::proofs::Counting::counting))]
fn run_by(t: &mut [u8], results: &mut [u8], circuit: &Circuit, tables: &Tables) -> usize
    requires made { RunTables circuit.now.d circuit.now.n tables.now.d }
    requires accepted { Accepted circuit.now.d circuit.now.n (operation_list circuit.now) [] circuit.now.choices.now }
    requires room { 2 * measurement_count (operation_list circuit.now) ≤ length results.old }
    requires valid { Valid circuit.now.d circuit.now.n t.old }
    ensures state { state_of t.new results.new
        ≡ direct_run circuit.now.d circuit.now.n (operation_list circuit.now) [] circuit.now.choices.now
        (state_of t.old results.old) }
    ensures measurements { result ≡ measurement_count (operation_list circuit.now) }
    ensures valid { Valid circuit.now.d circuit.now.n t.new }
{
    let mut at = Position::default();
    for k in 0..circuit.count() {
        if circuit.code(k) < 6 {
            direct_step::operate_gate(t, circuit, k, tables);
        } else {
            direct_step::operate(t, results, circuit, k, at, tables);
        }
        at = direct_step::counted(circuit, k, at);
    }
    at.measurements
}

// The direct run without errors, by tables that are made once for all its steps. The number of measurements.
pub fn run(t: &mut [u8], results: &mut [u8], circuit: &Circuit) -> usize
    requires dimension { listed circuit.now.d ≡ true }
    requires few { circuit.now.n ≤ 64 }
    requires accepted { Accepted circuit.now.d circuit.now.n (operation_list circuit.now) [] circuit.now.choices.now }
    requires room { 2 * measurement_count (operation_list circuit.now) ≤ length results.old }
    requires valid { Valid circuit.now.d circuit.now.n t.old }
    ensures state { state_of t.new results.new
        ≡ direct_run circuit.now.d circuit.now.n (operation_list circuit.now) [] circuit.now.choices.now
        (state_of t.old results.old) }
    ensures measurements { result ≡ measurement_count (operation_list circuit.now) }
    ensures valid { Valid circuit.now.d circuit.now.n t.new }
{
    let tables = Tables::new(circuit.d);
    run_by(t, results, circuit, &tables)
}
