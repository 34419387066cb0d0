// Where a run stands that goes on: the number alone tells which errors and choices are spent.
#![tactic(auto)]

ghost use Rattle.std.specs.Prelude.{◌≡◌, true, ℕ, ◌<◌, ◌≤◌, length};
ghost use Rattle.operation.specs.Operation.{allowed};
ghost use Rattle.circuit.specs.Circuit.{op_at, chosen, ErrorsInOrder};
ghost use Rattle.book.specs.Circuits.{operation_list, error_list};
ghost use Rattle.runs.specs.Reached.{Reached, AtStep};

use book::Circuit;
use runs::Position;

// The first error entry whose place is not below k.
fn entry_from(circuit: &Circuit, k: usize) -> usize
    requires { ErrorsInOrder circuit.now.d circuit.now.n (error_list circuit.now) }
    ensures { Reached (error_list circuit.now) result k }
{
    let count = circuit.error_count();
    for j in 0..count {
        let e = circuit.error(j);
        if e.place >= k {
            return j;
        }
    }
    count
}

// Where a run stands before operation k, or before the errors after all of them: the results given and the choices taken are counted over
// the earlier operations.
#[tactic(auto, using(direct_step::proofs::Counting::counting))]
pub fn position(circuit: &Circuit, k: usize) -> Position
    requires inside { k ≤ length (operation_list circuit.now) }
    requires allowed { (i : ℕ) → i < k → allowed circuit.now.d circuit.now.n (op_at (operation_list circuit.now) i) ≡ true }
    requires in_order { ErrorsInOrder circuit.now.d circuit.now.n (error_list circuit.now) }
    ensures stands { AtStep (operation_list circuit.now) (error_list circuit.now) k result }
    ensures chosen { result.choices ≡ chosen (operation_list circuit.now) k }
{
    let mut at = Position {
        entry: entry_from(circuit, k),
        ..Position::default()
    };
    for i in 0..k {
        at = direct_step::counted(circuit, i, at);
    }
    at
}
