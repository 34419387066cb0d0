// The test whether a tableau's rows are valid.
#![tactic(auto)]

ghost use Rattle.std.specs.Prelude.{◌≡◌, cond, ◌+◌, ◌*◌, ◌<◌, ◌≤◌, eqb, length};
ghost use Rattle.search.specs.Search.{all};
ghost use Rattle.tableau.specs.Tableau.{Tableau};
ghost use Rattle.columns.specs.Columns.{SmallTableau, Laid};
ghost use Rattle.validity.specs.Validity.{byte_below, row_valid, valid};
ghost use Rattle.validity_test.specs.Sums.{sums_pair_well};

use dots::Column;
use modular::Modulus;

// Whether the first `count` bytes are below d. Their largest is found by a loop that vectorises.
fn bytes_below(t: &[u8], count: usize, d: u8) -> bool
    requires positive { 0 < d }
    requires room { count ≤ length t.now }
    ensures { result ≡ all (byte_below d t.now) count }
{
    let mut most = 0;
    for b in &t[..count] {
        most = most.max(*b);
    }
    most < d
}

// The pairing that row i has with an earlier row j of a valid tableau.
fn wanted(i: usize, j: usize, n: usize) -> u8
    requires few { n ≤ 64 }
    requires earlier { j < 128 }
    ensures { result ≡ cond (eqb i (n + j)) 1 0 }
{
    u8::from(i == n + j)
}

fn row_valid(t: &[u8], i: usize, m: Modulus, n: usize) -> bool
    requires few { n ≤ 64 }
    requires there { i < 2 * n }
    requires rows { Tableau m.d n t.now }
    ensures { result ≡ row_valid m.d n t.now i }
{
    (0..i).all(|j| tableau::pairing_at(t, i, j, m, n) == wanted(i, j, n))
}

// Whether every row pairs well with those before it. Rows are paired two by two.
fn rows_valid(t: &[u8], m: Modulus, n: usize) -> bool
    requires few { n ≤ 64 }
    requires rows { Tableau m.d n t.now }
    ensures { result ≡ all (row_valid m.d n t.now) (2 * n) }
{
    (0..2 * n).all(|i| row_valid(t, i, m, n))
}

// Whether row i pairs well with every earlier row, by its sums. An exit from the loop would cost more than the tests it saves.
fn sums_valid(plus: &Column, minus: &Column, i: usize, m: Modulus, n: usize) -> bool
    requires few { n ≤ 64 }
    requires there { i ≤ 128 }
    ensures { result ≡ all (sums_pair_well m.d n plus.now minus.now i) i }
{
    let mut good = true;
    for k in 0..i {
        good &= m.reduce_difference(plus[k], minus[k]) == wanted(i, k, n);
    }
    good
}

fn row_valid_by(columns: &[Column; 128], t: &[u8], i: usize, m: Modulus, n: usize) -> bool
    requires there { i < 2 * n }
    requires rows { SmallTableau n t.now }
    requires laid { Laid n t.now (2 * n) columns.now }
    ensures { result ≡ row_valid m.d n t.now i }
{
    let mut plus = [0; 128];
    let mut minus = [0; 128];
    columns::row_sums(&mut plus, &mut minus, columns, t, i, n);
    sums_valid(&plus, &minus, i, m, n)
}

// Whether every row pairs well with those before it. A row is paired with eight at a time.
fn rows_by_columns(t: &[u8], m: Modulus, n: usize) -> bool
    requires few { n ≤ 64 }
    requires rows { Tableau m.d n t.now }
    ensures { result ≡ all (row_valid m.d n t.now) (2 * n) }
{
    let mut columns = [[0; 128]; 128];
    columns::lay_columns(&mut columns, t, n);
    (0..2 * n).all(|i| row_valid_by(&columns, t, i, m, n))
}

// Whether the rows of t are a valid tableau.
pub fn is_valid(t: &[u8], d: u8, n: usize) -> bool
    requires { (3 ≤ d)
        × (d ≤ 31)
        × (n ≤ 64)
        × (2 * n * (2 * n + 1) ≤ length t.now) }
    ensures { result ≡ valid d n t.now }
{
    let bytes = 2 * n * (2 * n + 1);
    if !bytes_below(t, bytes, d) {
        return false;
    }
    let m = Modulus::new(d);
    // Up to 12 qudits the columns cost more than they save. Bytes are compared, not n, since loops over an n that is known to be
    // small are not vectorised.
    if bytes < 700 {
        return rows_valid(t, m, n);
    }
    rows_by_columns(t, m, n)
}
