// What the clean run gives the shots.

ghost use Rattle.std.specs.Prelude.{◌≡◌, ◌+◌, ◌*◌};
ghost use Rattle.block.specs.Clean.{measurements_of, CleanCircuit};

use modular::Modulus;

// The operations, whose corrections name earlier measurements, the clean result of each measurement, two bytes, and the tableau at the end.
// A shot has w bytes: its verdict and its results.
#[derive(Clone, Copy)]
pub struct CleanRun<'a> {
    pub ops: &'a [u8],
    pub results: &'a [u8],
    pub t: &'a [u8],
    pub w: usize,
    pub m: Modulus,
    pub n: usize,
    pub ghost circuit: { CleanCircuit m.d n ops.now results.now },
    pub ghost width: { w ≡ 1 + 2 * measurements_of m.d n ops.now },
}
