// The powers of a tableau by columns, and the two sums of a row's pairings with earlier rows.
#![tactic(auto)]

ghost use Rattle.std.specs.Prelude.{◌≡◌, ◌+◌, ◌*◌, ◌<◌, replicate};
ghost use Rattle.row.specs.Fill.{filled};
ghost use Rattle.columns.specs.Columns.{SmallTableau, Laid, RowSums, power_at};

use dots::Column;

// The column becomes power s of every row.
fn lay_column(column: &mut Column, t: &[u8], s: usize, n: usize)
    requires power { s < 2 * n }
    requires rows { SmallTableau n t.now }
    ensures { column.new ≡ filled (power_at n t.now s) column.old (2 * n) }
{
    let w = 2 * n + 1;
    for j in 0..2 * n {
        column[j] = u16::from(t[j * w + s]);
    }
}

pub fn lay_columns(columns: &mut [Column; 128], t: &[u8], n: usize)
    requires rows { SmallTableau n t.now }
    requires zeros { columns.old ≡ replicate 128 (replicate 128 0) }
    ensures { Laid n t.now (2 * n) columns.new }
{
    for s in 0..2 * n {
        lay_column(&mut columns[s], t, s, n);
    }
}

// The two sums of the pairing of row i with each earlier row, and with up to seven more, which fill a vector.
pub fn row_sums(
    plus: &mut Column,
    minus: &mut Column,
    columns: &[Column; 128],
    t: &[u8],
    i: usize,
    n: usize,
)
    requires there { i < 2 * n }
    requires rows { SmallTableau n t.now }
    requires laid { Laid n t.now (2 * n) columns.now }
    requires no_plus { plus.old ≡ replicate 128 0 }
    requires no_minus { minus.old ≡ replicate 128 0 }
    ensures { RowSums n t.now i plus.new minus.new }
{
    let v = tableau::row(t, i, n);
    let count = i.next_multiple_of(8);
    dots::add_dots(plus, columns, &v[n..2 * n], count);
    dots::add_dots(minus, &columns[n..], &v[..n], count);
}
