// The entries of a shot book's bodies.
#![tactic(auto)]

ghost use Rattle.std.specs.Prelude.{◌≡◌, ◌+◌, ◌/◌, ◌<◌, length};
ghost use Rattle.book_entries.specs.Entry.{word, times_in, entry_at, decoded, coded, operation_at, error_at};
ghost use Rattle.book_entries.specs.Fits.{second_fits, last_limit, last_fits, plain_fits, plain_at, fits};

use operation::{Operation, WeylError};

// Two bytes, low byte first.
pub fn word(s: &[u8], at: usize) -> usize
    requires { at + 1 < length s.now }
    ensures { (result ≡ word s.now at)
        × (result < 65536) }
{
    usize::from(u16::from_le_bytes([s[at], s[at + 1]]))
}

// How often a gate is applied: byte 3, where 0 means once.
pub fn times_in(b: u8) -> u8
    ensures { result ≡ times_in b }
{
    b.max(1)
}

// The operation of a code. Nothing is tested: for bytes that a reader has accepted.
#[tactic(auto, unfolding(crate::specs::Entry::coded))]
pub fn coded(b0: u8, b1: usize, b2: usize, b3: u8) -> Operation
    requires { b2 < 256 }
    ensures { result ≡ coded b0 b1 b2 b3 }
{
    let times = times_in(b3);
    match b0 {
        0 => Operation::Fourier { q: b1, times },
        1 => Operation::PhaseGate { q: b1, times },
        2 => Operation::Sum {
            c: b1,
            t: b2,
            times,
        },
        3 => Operation::Cz {
            c: b1,
            t: b2,
            times,
        },
        4 => Operation::Swap { c: b1, t: b2 },
        5 => Operation::Multiplier { q: b1, u: b3 },
        6 => Operation::Measure { q: b1 },
        7 => Operation::Reset { q: b1 },
        _ => Operation::Correct {
            t: b1,
            m: b2 + 256 * usize::from(b3),
        },
    }
}

// An entry of operations: its code; q or c; t; how often, or u. Of a correction the first is t, and the last two are m, low byte first.
#[derive(Clone, Copy, Debug, PartialEq, Eq)]
pub struct Entry {
    pub code: u8,
    pub first: u8,
    pub second: u8,
    pub last: u8,
}

impl Entry {
    // Entry k of a body of operations.
    pub fn at(ops: &[u8], k: usize) -> Entry
        requires { k < length ops.now / 4 }
        ensures { result ≡ entry_at ops.now k }
    {
        let at = 4 * k;
        Entry {
            code: ops[at],
            first: ops[at + 1],
            second: ops[at + 2],
            last: ops[at + 3],
        }
    }

    fn second_fits(self, n: usize) -> bool
        ensures { result ≡ second_fits n self.code self.first self.second }
    {
        if matches!(self.code, 2..=4) {
            (usize::from(self.second) < n) & (self.first != self.second)
        } else {
            self.second == 0
        }
    }

    // Whether byte 3 may be 0. (Below dimension 2 even once is too often.)
    fn zero_fits(self, d: u8) -> bool
        ensures { result ≡ last_fits d self.code 0 }
    {
        if 1 < d {
            self.code != 5
        } else {
            matches!(self.code, 0 | 4 | 6)
        }
    }

    fn last_limit(self, d: u8) -> u8
        ensures { result ≡ last_limit d self.code }
    {
        match self.code {
            0 => 4,
            4 | 6 => 2,
            _ => d,
        }
    }

    // 0, which most entries have, is asked for first.
    fn last_fits(self, d: u8) -> bool
        ensures { result ≡ last_fits d self.code self.last }
    {
        if self.last == 0 {
            return self.zero_fits(d);
        }
        (self.last < self.last_limit(d)) & ((self.last != 1) | (self.code == 5))
    }

    // Whether four bytes are a gate or a measurement, without telling every code apart: a processor foresees the jump to a test of each
    // code badly.
    #[tactic(auto, unfolding(crate::specs::Fits::plain_fits))]
    pub fn is_plain(self, d: u8, n: usize) -> bool
        ensures { result ≡ plain_fits d n self.code self.first self.second self.last }
    {
        ((self.code <= 6) & (usize::from(self.first) < n))
            & (self.second_fits(n) & self.last_fits(d))
    }

    // Whether four bytes are an operation.
    #[tactic(auto, unfolding(crate::specs::Fits::fits))]
    fn fits(self, d: u8, n: usize) -> bool
        ensures { result ≡ fits d n self.code self.first self.second self.last }
    {
        if self.is_plain(d, n) {
            return true;
        }
        (usize::from(self.first) < n)
            & (((self.code == 7) & ((self.second == 0) & (self.last == 0))) | (self.code == 8))
    }

    // The operation of its code.
    pub fn coded(self) -> Operation
        ensures { result ≡ coded self.code self.first self.second self.last }
    {
        coded(
            self.code,
            usize::from(self.first),
            usize::from(self.second),
            self.last,
        )
    }

    // The operation that four bytes are, for dimension d and n qudits.
    #[tactic(auto, using(crate::proofs::Fitting::by_fits))]
    pub fn decoded(self, d: u8, n: usize) -> Option<Operation>
        ensures { result ≡ decoded d n self.code self.first self.second self.last }
    {
        self.fits(d, n).then(|| self.coded())
    }
}

// Whether entry k of a body of operations is a gate or a measurement.
pub fn plain_at(ops: &[u8], k: usize, d: u8, n: usize) -> bool
    requires { k < length ops.now / 4 }
    ensures { result ≡ plain_at d n ops.now k }
{
    Entry::at(ops, k).is_plain(d, n)
}

// Entry k of a body of operations.
pub fn operation_at(ops: &[u8], k: usize, d: u8, n: usize) -> Option<Operation>
    requires { k < length ops.now / 4 }
    ensures { result ≡ operation_at d n ops.now k }
{
    Entry::at(ops, k).decoded(d, n)
}

// Entry k of a body of errors.
#[tactic(auto, unfolding(crate::specs::Entry::error_at))]
pub fn error_at(errors: &[u8], k: usize) -> WeylError
    requires { k < length errors.now / 5 }
    ensures { result ≡ error_at errors.now k }
{
    let at = 5 * k;
    WeylError {
        place: word(errors, at),
        qudit: usize::from(errors[at + 2]),
        p: errors[at + 3],
        s: errors[at + 4],
    }
}
