// A Weyl error on every row of a tableau.
#![tactic(auto)]

ghost use Rattle.std.specs.Prelude.{◌≡◌, true, ◌<◌, ◌≤◌};
ghost use Rattle.tableau.specs.Tableau.{Tableau};
ghost use Rattle.operation.specs.Error.{error_allowed, error_row, error_rows, minus_x};

use operation::WeylError;
use row_change::{RowChange, change_rows};
use tables::Tables;

// X^p Z^s on a qudit
#[derive(Clone, Copy)]
struct Applied(WeylError);

impl RowChange for Applied {
    ghost can_change = { λ e d n. error_allowed d n e.0 ≡ true };

    ghost changed = { λ e d n. error_row d n e.0 };

    // −p is d − p, which is at most d.
    fn change_row(self, v: &mut [u8], tables: &Tables, n: usize) {
        let Applied(e) = self;
        let q = e.qudit;
        let last = 2 * n;
        let x = tables.product(e.s, v[q]);
        let z = tables.product(tables.d - e.p, v[n + q]);
        v[last] = tables.sum_of_three(v[last], x, z);
    }
}

// X to the minus r on q, which takes one product a row in place of two: it adds r·b to a row's phase.
#[derive(Clone, Copy)]
struct MinusX {
    q: usize,
    r: u8,
}

impl RowChange for MinusX {
    ghost can_change = { λ e d n. (e.q < n) × (e.r < d) };

    ghost changed = { λ e d n. error_row d n (minus_x d e.q e.r) };

    fn change_row(self, v: &mut [u8], tables: &Tables, n: usize) {
        let MinusX { q, r } = self;
        let last = 2 * n;
        let z = tables.product(r, v[n + q]);
        v[last] = tables.sum(v[last], z);
    }
}

// The error on every row.
pub fn error_rows(t: &mut [u8], e: WeylError, tables: &Tables, n: usize)
    requires few { n ≤ 64 }
    requires allowed { error_allowed tables.now.d n e ≡ true }
    requires rows { Tableau tables.now.d n t.old }
    ensures { t.new ≡ error_rows tables.now.d n e t.old }
{
    change_rows(t, Applied(e), tables, n);
}

// X to the minus r on qudit q, on every row.
pub fn minus_x_rows(t: &mut [u8], q: usize, r: u8, tables: &Tables, n: usize)
    requires few { n ≤ 64 }
    requires q_below { q < n }
    requires r_below { r < tables.now.d }
    requires rows { Tableau tables.now.d n t.old }
    ensures { t.new ≡ error_rows tables.now.d n (minus_x tables.now.d q r) t.old }
{
    change_rows(t, MinusX { q, r }, tables, n);
}
