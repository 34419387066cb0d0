// The operation of an entry that the reader has accepted.
#![tactic(auto)]

ghost use Rattle.std.specs.Prelude.{◌≡◌, true, ◌/◌, ◌<◌, length};
ghost use Rattle.operation.specs.Operation.{allowed};
ghost use Rattle.circuit.specs.Circuit.{op_at};
ghost use Rattle.book.specs.Decoded.{operations_of};

use book_entries::Entry;
use operation::{Operation, Step};

// Operation k, by its code. The reader has tested the entry for this d and n, so that no byte is tested again.
pub fn operation_of(ops: &[u8], k: usize, d: u8, n: usize) -> Operation
    requires { (k < length ops.now / 4)
        × (allowed d n (op_at (operations_of d n ops.now) k) ≡ true) }
    ensures { result ≡ op_at (operations_of d n ops.now) k }
{
    Entry::at(ops, k).coded()
}

// Step k: its index together with its operation.
pub fn step_of(ops: &[u8], k: usize, d: u8, n: usize) -> Step
    requires { (k < length ops.now / 4)
        × (allowed d n (op_at (operations_of d n ops.now) k) ≡ true) }
    ensures { result ≡ record { index = k; operation = op_at (operations_of d n ops.now) k } }
{
    Step {
        index: k,
        operation: operation_of(ops, k, d, n),
    }
}
