// The rows of a tableau, each lent as the part that begins at its first byte.
#![tactic(auto)]

ghost use Rattle.std.specs.Prelude.{◌≡◌, ◌+◌, ◌*◌, ◌<◌, ◌≤◌, length};
ghost use Rattle.row.specs.Row.{pairing};
ghost use Rattle.tableau.specs.Tableau.{sized, Tableau, row};

use modular::Modulus;

// Row i.
#[tactic(auto, unfolding(crate::specs::Tableau::part))]
pub fn row(t: &[u8], i: usize, n: usize) -> &[u8]
    requires few { n ≤ 64 }
    requires there { i < 2 * n }
    requires room { 2 * n * (2 * n + 1) ≤ length t.now }
    ensures value { result.now ≡ row n t.now i }
    ensures len { length result.now ≡ 2 * n + 1 }
{
    let w = 2 * n + 1;
    &t[i * w..i * w + w]
}

// The pairing of row i with row j.
pub fn pairing_at(t: &[u8], i: usize, j: usize, m: Modulus, n: usize) -> u8
    requires few { n ≤ 64 }
    requires first { i < 2 * n }
    requires second { j < 2 * n }
    requires rows { Tableau m.d n t.now }
    ensures { result ≡ pairing m.d n (row n t.now i) (row n t.now j) }
{
    row::pairing(row(t, i, n), row(t, j, n), m, n)
}

// Whether there are 1 to 64 qudits.
pub fn is_sized(n: usize) -> bool
    ensures { result ≡ sized n }
{
    (1..=64).contains(&n)
}

// dst becomes src. (For short parts: `copy_from_slice` is a call of memcpy, whatever the length.)
pub fn copy(dst: &mut [u8], src: &[u8])
    requires { length dst.old ≡ length src.now }
    ensures { dst.new ≡ src.now }
{
    let mut j = 0;
    while j < src.len() {
        dst[j] = src[j];
        j += 1;
    }
}
