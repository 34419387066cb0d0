// What is done to a row, done to every row of a tableau.
#![tactic(auto)]

ghost use Rattle.std.specs.Prelude.{◌≡◌, List, ℕ, ◌≤◌};
ghost use Rattle.row.specs.Row.{Row};
ghost use Rattle.tableau.specs.Tableau.{Tableau, on_rows, every};

use tables::Tables;

// A gate or an error, as it changes a row. Each has a type of its own, so that the loop over the rows is compiled once for each.
pub trait RowChange: Copy {
    // modulo d and with n qudits: where it may be done, and what it makes of a row
    ghost can_change: { Self → ℕ → ℕ → Type 0 };

    ghost changed: { Self → ℕ → ℕ → List ℕ → List ℕ };

    fn change_row(self, v: &mut [u8], tables: &Tables, n: usize)
        requires can_change { can_change self tables.now.d n }
        requires row { Row tables.now.d n v.old }
        ensures { v.new ≡ changed self tables.now.d n v.old };
}

// The change on every row. By index: after `chunks_exact_mut` a proof knows of the slice its length alone.
pub fn change_rows<C: RowChange>(t: &mut [u8], change: C, tables: &Tables, n: usize)
    requires few { n ≤ 64 }
    requires can_change { C.can_change change tables.now.d n }
    requires rows { Tableau tables.now.d n t.old }
    ensures { t.new ≡ on_rows n (every (C.changed change tables.now.d n)) t.old }
{
    let w = 2 * n + 1;
    for i in 0..2 * n {
        change.change_row(&mut t[i * w..i * w + w], tables, n);
    }
}
