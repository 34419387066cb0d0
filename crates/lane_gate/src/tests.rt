ghost use Rattle.std.specs.Prelude.{◌≡◌, true};
ghost use Rattle.operation.specs.Operation.{allowed};
ghost use Rattle.lanes.specs.Lanes.{Lanes};

use super::*;
use operation::WeylError;
use std::process::Abort;

// 256 lanes of two qudits of dimension 5, with no frame in any.
fn no_frames() -> [u8; 1024]
    ensures { Lanes 5 2 result }
{
    [0; 1024]
}

// The operation makes these powers, of X and then of Z, out of 1 and 3 of X, 2 and 1 of Z: in the first lane and in the last.
fn makes(rt: &impl Abort, operation: Operation, powers: [u8; 4])
    requires { allowed 5 2 operation ≡ true }
{
    let m = Modulus::new(5);
    let mut v = no_frames();
    change_lanes(
        &mut v,
        WeylError {
            place: 0,
            qudit: 0,
            p: 1,
            s: 2,
        },
        m,
        2,
    );
    change_lanes(
        &mut v,
        WeylError {
            place: 0,
            qudit: 1,
            p: 3,
            s: 1,
        },
        m,
        2,
    );
    gate_lanes(&mut v, operation, m, 2);
    assert_eq!(rt; [v[0], v[256], v[512], v[768]], powers);
    assert_eq!(rt; [v[255], v[511], v[767], v[1023]], powers);
}

// By the images of the gates: Fourier takes X to Z and Z to X⁻¹, the phase gate X to XZ, SUM X⊗1 to X⊗X and 1⊗Z to Z⁻¹⊗Z, CZ X⊗1 to X⊗Z
// and 1⊗X to Z⊗X, the control first; swap exchanges the qudits, and the multiplier takes X to X^u and Z to Z^(1/u). The last three are no
// gates.
#[test]
fn gates_on_lanes(rt: HostRuntime) {
    makes(&rt, Operation::Fourier { q: 0, times: 1 }, [3, 3, 1, 1]);
    makes(&rt, Operation::Fourier { q: 0, times: 2 }, [4, 3, 3, 1]);
    makes(&rt, Operation::Fourier { q: 0, times: 3 }, [2, 3, 4, 1]);
    makes(&rt, Operation::PhaseGate { q: 1, times: 2 }, [1, 3, 2, 2]);
    makes(
        &rt,
        Operation::Sum {
            c: 0,
            t: 1,
            times: 2,
        },
        [1, 0, 0, 1],
    );
    makes(
        &rt,
        Operation::Cz {
            c: 0,
            t: 1,
            times: 1,
        },
        [1, 3, 0, 2],
    );
    makes(&rt, Operation::Swap { c: 0, t: 1 }, [3, 1, 1, 2]);
    makes(&rt, Operation::Multiplier { q: 0, u: 2 }, [2, 3, 1, 1]);
    makes(&rt, Operation::Measure { q: 0 }, [1, 3, 2, 1]);
    makes(&rt, Operation::Reset { q: 0 }, [1, 3, 2, 1]);
    makes(&rt, Operation::Correct { t: 0, m: 0 }, [1, 3, 2, 1]);
}
