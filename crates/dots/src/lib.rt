// Sums of products of a row's powers with the numbers of columns, many at a time.
#![tactic(auto)]

ghost use Rattle.std.specs.Prelude.{◌≡◌, ◌+◌, ◌*◌, ◌<◌, ◌≤◌, length, replicate};
ghost use Rattle.dots.specs.Dots.{Small, SmallColumns, ColumnSums, combined};

// One number of each of 128 rows.
pub type Column = [u16; 128];

// The sum of four products, one from each of the first four columns.
#[tactic(auto, using(crate::proofs::Combined::combined_most), unfolding(crate::specs::Dots::combined))]
fn products(f: [u16; 4], columns: &[Column], j: usize) -> u16
    requires factors { Small f }
    requires numbers { SmallColumns columns.now }
    requires four { 4 ≤ length columns.now }
    requires there { j < 128 }
    ensures value { result ≡ combined f columns.now j 4 }
    ensures most { result ≤ 3600 }
{
    f[0] * columns[0][j] + f[1] * columns[1][j] + (f[2] * columns[2][j] + f[3] * columns[3][j])
}

// Each sum gains eight products, those of the factors 8q to 8q + 7.
fn add_eight(sums: &mut Column, columns: &[Column], left: &[u16; 64], q: usize, count: usize)
    requires block { q < 8 }
    requires rows { count ≤ 128 }
    requires factors { Small left.now }
    requires numbers { SmallColumns columns.now }
    requires room { 64 ≤ length columns.now }
    requires before { ColumnSums left.now columns.now count (8 * q) sums.old }
    ensures { ColumnSums left.now columns.now count (8 * q + 8) sums.new }
{
    let k = 8 * q;
    let eight = &columns[k..k + 8];
    let f = [left[k], left[k + 1], left[k + 2], left[k + 3]];
    let g = [left[k + 4], left[k + 5], left[k + 6], left[k + 7]];
    for j in 0..count {
        sums[j] += products(f, eight, j) + products(g, &eight[4..], j);
    }
}

// The sums of the first `count` rows become those of the products of the powers with a number of each column.
pub fn add_dots(sums: &mut Column, columns: &[Column], powers: &[u8], count: usize)
    requires rows { count ≤ 128 }
    requires few { length powers.now ≤ 64 }
    requires factors { Small powers.now }
    requires numbers { SmallColumns columns.now }
    requires room { 64 ≤ length columns.now }
    requires zeros { sums.old ≡ replicate 128 0 }
    ensures { ColumnSums powers.now columns.now count (length powers.now) sums.new }
{
    let mut left = [0; 64];
    row::widen(&mut left, powers, powers.len());
    for q in 0..powers.len().div_ceil(8) {
        add_eight(sums, columns, &left, q, count);
    }
}
