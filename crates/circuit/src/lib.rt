// Which operations of a circuit are measurements.
#![tactic(auto)]

ghost use Rattle.std.specs.Prelude.{◌≡◌, ◌≤◌};
ghost use Rattle.circuit.specs.Circuit.{tally};

use operation::Operation;

// 1 for a measurement, else 0.
pub fn tally(operation: Operation) -> usize
    ensures value { result ≡ tally operation }
    ensures few { result ≤ 1 }
{
    usize::from(matches!(operation, Operation::Measure { .. }))
}
