// The nine operations, a step, and an error.
#![tactic(auto)]

// Each case has the operands of its line in the table of operations: q, c and t are qudits, u is a factor, m is the number of a
// measurement, and `times` says how often the gate is applied.
#[derive(Clone, Copy)]
pub enum Operation {
    Fourier { q: usize, times: u8 },
    PhaseGate { q: usize, times: u8 },
    Sum { c: usize, t: usize, times: u8 },
    Cz { c: usize, t: usize, times: u8 },
    Swap { c: usize, t: usize },
    Multiplier { q: usize, u: u8 },
    Measure { q: usize },
    Reset { q: usize },
    Correct { t: usize, m: usize },
}

// An operation together with its index in the book.
#[derive(Clone, Copy)]
pub struct Step {
    pub index: usize,
    pub operation: Operation,
}

// X^p Z^s on a qudit, before the operation whose index is `place`.
#[derive(Clone, Copy)]
pub struct WeylError {
    pub place: usize,
    pub qudit: usize,
    pub p: u8,
    pub s: u8,
}
