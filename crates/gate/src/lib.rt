// The six gates on a row, and on every row of a tableau.
#![tactic(auto)]

ghost use Rattle.std.specs.Prelude.{◌≡◌, true, ℕ, cond, ◌+◌, ◌*◌, ◌%◌, ◌<◌, ◌≤◌, eqb};
ghost use Rattle.modular.specs.Modular.{neg};
ghost use Rattle.modular.specs.Dimension.{inverse};
ghost use Rattle.tableau.specs.Tableau.{Tableau};
ghost use Rattle.operation.specs.declared.Operation.TheVariants as operation;
ghost use Rattle.operation.specs.Operation.{allowed};
ghost use Rattle.operation.specs.Gate.{gate_row, gate_rows};

use operation::Operation;
use row_change::{RowChange, change_rows};
use tables::Tables;

// How often a gate is applied. Once has a type of its own, so that it costs neither a product nor a question at each row.
trait Times: Copy {
    ghost count: { Self → ℕ };

    // x as often as that
    fn multiple(self, tables: &Tables, x: u8) -> u8
        requires few { count self < tables.now.d }
        requires below { x < tables.now.d }
        ensures { result ≡ count self * x % tables.now.d };
}

#[derive(Clone, Copy)]
struct Once;

impl Times for Once {
    ghost count = { λ _. 1 };

    fn multiple(self, _tables: &Tables, x: u8) -> u8 {
        x
    }
}

#[derive(Clone, Copy)]
struct Often(u8);

impl Times for Often {
    ghost count = { λ k. k.0 };

    fn multiple(self, tables: &Tables, x: u8) -> u8 {
        tables.product(self.0, x)
    }
}

// The phase r after k applications of Fourier to the powers a and b. Twice leaves it.
fn fourier_phase(r: u8, k: u8, a: u8, b: u8, tables: &Tables) -> u8
    requires r_below { r < tables.now.d }
    requires a_below { a < tables.now.d }
    requires b_below { b < tables.now.d }
    ensures { result ≡ (r + cond (eqb k 2) 0 (neg tables.now.d (a * b))) % tables.now.d }
{
    if k == 2 {
        r
    } else {
        tables.difference(r, tables.product(a, b))
    }
}

// Fourier on q, TIMES times
#[derive(Clone, Copy)]
struct Fourier<const TIMES: u8>(usize);

impl<const TIMES: u8> RowChange for Fourier<TIMES> {
    ghost can_change = { λ g d n. allowed d n (operation.Fourier g.0 TIMES) ≡ true };

    ghost changed = { λ g d n. gate_row d n (operation.Fourier g.0 TIMES) };

    fn change_row(self, v: &mut [u8], tables: &Tables, n: usize) {
        let d = tables.d;
        let q = self.0;
        let last = 2 * n;
        let a = v[q];
        let b = v[n + q];
        let r = fourier_phase(v[last], TIMES, a, b, tables);
        v[q] = frame_powers::fourier_x(d, TIMES, a, b);
        v[n + q] = frame_powers::fourier_z(d, TIMES, a, b);
        v[last] = r;
    }
}

// the phase gate on q, k times
#[derive(Clone, Copy)]
struct PhaseGate<K>(usize, K);

impl<K: Times> RowChange for PhaseGate<K> {
    ghost can_change = { λ g d n. allowed d n (operation.PhaseGate g.0 (K.count g.1)) ≡ true };

    ghost changed = { λ g d n. gate_row d n (operation.PhaseGate g.0 (K.count g.1)) };

    fn change_row(self, v: &mut [u8], tables: &Tables, n: usize) {
        let PhaseGate(q, k) = self;
        let last = 2 * n;
        let a = v[q];
        let g = k.multiple(tables, tables.triangle(a));
        let b = tables.sum(v[n + q], k.multiple(tables, a));
        let r = tables.sum(v[last], g);
        v[n + q] = b;
        v[last] = r;
    }
}

// SUM from c to t, k times. It leaves the phase.
#[derive(Clone, Copy)]
struct Sum<K>(usize, usize, K);

impl<K: Times> RowChange for Sum<K> {
    ghost can_change = { λ g d n. allowed d n (operation.Sum g.0 g.1 (K.count g.2)) ≡ true };

    ghost changed = { λ g d n. gate_row d n (operation.Sum g.0 g.1 (K.count g.2)) };

    // a_t is stored before b_c: stores in the row's order cost less.
    fn change_row(self, v: &mut [u8], tables: &Tables, n: usize) {
        let Sum(c, t, k) = self;
        let x = tables.sum(v[t], k.multiple(tables, v[c]));
        let z = tables.difference(v[n + c], k.multiple(tables, v[n + t]));
        v[t] = x;
        v[n + c] = z;
    }
}

// CZ of c and t, k times
#[derive(Clone, Copy)]
struct Cz<K>(usize, usize, K);

impl<K: Times> RowChange for Cz<K> {
    ghost can_change = { λ g d n. allowed d n (operation.Cz g.0 g.1 (K.count g.2)) ≡ true };

    ghost changed = { λ g d n. gate_row d n (operation.Cz g.0 g.1 (K.count g.2)) };

    fn change_row(self, v: &mut [u8], tables: &Tables, n: usize) {
        let Cz(c, t, k) = self;
        let last = 2 * n;
        let a = k.multiple(tables, v[c]);
        let x = v[t];
        let b = tables.sum(v[n + c], k.multiple(tables, x));
        let z = tables.sum(v[n + t], a);
        let r = tables.sum(v[last], tables.product(a, x));
        v[n + c] = b;
        v[n + t] = z;
        v[last] = r;
    }
}

// the swap of c and t. It leaves the phase.
#[derive(Clone, Copy)]
struct Swap(usize, usize);

impl RowChange for Swap {
    ghost can_change = { λ g d n. allowed d n (operation.Swap g.0 g.1) ≡ true };

    ghost changed = { λ g d n. gate_row d n (operation.Swap g.0 g.1) };

    fn change_row(self, v: &mut [u8], _tables: &Tables, n: usize) {
        frame_powers::swap_powers(v, self.0, self.1, n);
    }
}

// the multiplier of q by u; f is 1/u. It leaves the phase.
#[derive(Clone, Copy)]
struct Multiplier {
    q: usize,
    u: u8,
    f: u8,
}

impl RowChange for Multiplier {
    ghost can_change = { λ g d n. (allowed d n (operation.Multiplier g.q g.u) ≡ true) × (g.f ≡ inverse d g.u) };

    ghost changed = { λ g d n. gate_row d n (operation.Multiplier g.q g.u) };

    fn change_row(self, v: &mut [u8], tables: &Tables, n: usize) {
        let Multiplier { q, u, f } = self;
        let a = tables.product(u, v[q]);
        let b = tables.product(f, v[n + q]);
        v[q] = a;
        v[n + q] = b;
    }
}

// The gate on every row. Each arm has a gate of a type of its own, and so a loop of its own; an operation handed down instead would be
// told apart anew at every row.
pub fn gate_rows(t: &mut [u8], operation: Operation, tables: &Tables, n: usize)
    requires few { n ≤ 64 }
    requires allowed { allowed tables.now.d n operation ≡ true }
    requires rows { Tableau tables.now.d n t.old }
    ensures { t.new ≡ gate_rows tables.now.d n operation t.old }
{
    match operation {
        Operation::Fourier { q, times: 1 } => change_rows(t, Fourier::<1>(q), tables, n),
        Operation::Fourier { q, times: 2 } => change_rows(t, Fourier::<2>(q), tables, n),
        Operation::Fourier { q, times: _ } => change_rows(t, Fourier::<3>(q), tables, n),
        Operation::PhaseGate { q, times: 1 } => change_rows(t, PhaseGate(q, Once), tables, n),
        Operation::PhaseGate { q, times } => change_rows(t, PhaseGate(q, Often(times)), tables, n),
        Operation::Sum { c, t: p, times: 1 } => change_rows(t, Sum(c, p, Once), tables, n),
        Operation::Sum { c, t: p, times } => change_rows(t, Sum(c, p, Often(times)), tables, n),
        Operation::Cz { c, t: p, times: 1 } => change_rows(t, Cz(c, p, Once), tables, n),
        Operation::Cz { c, t: p, times } => change_rows(t, Cz(c, p, Often(times)), tables, n),
        Operation::Swap { c, t: p } => change_rows(t, Swap(c, p), tables, n),
        Operation::Multiplier { q, u } => {
            let f = inverse::inverse(tables.d, u);
            change_rows(t, Multiplier { q, u, f }, tables, n)
        }
        Operation::Measure { .. } | Operation::Reset { .. } | Operation::Correct { .. } => {}
    }
}
