// A gate on the frames of 256 shots: given as an operation, or by the code of its entry.
#![tactic(auto)]

ghost use Rattle.std.specs.Prelude.{◌≡◌, true, ◌/◌, ◌<◌, length};
ghost use Rattle.modular.specs.Dimension.{listed};
ghost use Rattle.operation.specs.Operation.{allowed};
ghost use Rattle.operation.specs.Gate.{gate_frame};
ghost use Rattle.circuit.specs.Circuit.{op_at};
ghost use Rattle.book.specs.Decoded.{operations_of};
ghost use Rattle.lanes.specs.Lanes.{Lanes, Each};
ghost use Rattle.operation_codes.specs.Allowed.{AllAllowed};

use book_entries::Entry;
use frame_powers::{Cz, Fourier, Multiplier, PhaseGate, Sum, Swap};
use lanes::change_lanes;
use modular::Modulus;
use operation::Operation;

// The gate on each lane. Measurement, reset and correction are no gates, and leave them.
pub fn gate_lanes(v: &mut [u8], operation: Operation, m: Modulus, n: usize)
    requires dimension { listed m.d ≡ true }
    requires operation { allowed m.d n operation ≡ true }
    requires lanes { Lanes m.d n v.old }
    ensures changed { Each (gate_frame m.d n operation) n v.old v.new }
    ensures lanes { Lanes m.d n v.new }
{
    match operation {
        Operation::Fourier { q, times } => change_lanes(v, Fourier { q, times }, m, n),
        Operation::PhaseGate { q, times } => change_lanes(v, PhaseGate { q, times }, m, n),
        Operation::Sum { c, t, times } => change_lanes(v, Sum { c, t, times }, m, n),
        Operation::Cz { c, t, times } => change_lanes(v, Cz { c, t, times }, m, n),
        Operation::Swap { c, t } => change_lanes(v, Swap { c, t }, m, n),
        Operation::Multiplier { q, u } => {
            let inverse = inverse::inverse(m.d, u);
            change_lanes(v, Multiplier { q, u, inverse }, m, n);
        }
        Operation::Measure { .. } | Operation::Reset { .. } | Operation::Correct { .. } => {}
    }
}

// Operation k on each lane, by its code: the reader has accepted the entry, so nothing is tested again, and nothing is decoded.
pub fn perform(v: &mut [u8], ops: &[u8], k: usize, m: Modulus, n: usize)
    requires index { k < length ops.now / 4 }
    requires dimension { listed m.d ≡ true }
    requires operations { AllAllowed m.d n (operations_of m.d n ops.now) }
    requires lanes { Lanes m.d n v.old }
    ensures changed { Each (gate_frame m.d n (op_at (operations_of m.d n ops.now) k)) n v.old v.new }
    ensures lanes { Lanes m.d n v.new }
{
    let entry = Entry::at(ops, k);
    let q = usize::from(entry.first);
    let t = usize::from(entry.second);
    let u = entry.last;
    let times = book_entries::times_in(u);
    match entry.code {
        0 => change_lanes(v, Fourier { q, times }, m, n),
        1 => change_lanes(v, PhaseGate { q, times }, m, n),
        2 => change_lanes(v, Sum { c: q, t, times }, m, n),
        3 => change_lanes(v, Cz { c: q, t, times }, m, n),
        4 => change_lanes(v, Swap { c: q, t }, m, n),
        5 => {
            let inverse = inverse::inverse(m.d, u);
            change_lanes(v, Multiplier { q, u, inverse }, m, n);
        }
        _ => {}
    }
}

#[cfg(test)]
mod tests;
