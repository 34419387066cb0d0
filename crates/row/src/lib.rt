// Product and pairing of rows, and what they are made of.
#![tactic(auto)]

ghost use Rattle.std.specs.Prelude.{◌≡◌, ◌+◌, ◌*◌, ◌<◌, ◌≤◌, length};
ghost use Rattle.row.specs.Row.{x_of, Powers, Row, row_of, dot, sum_at, product, pairing};
ghost use Rattle.row.specs.Generators.{unit};
ghost use Rattle.row.specs.Fill.{filled};
ghost use Rattle.row.specs.Multiple.{XPowers, MultipleRow};

use modular::Modulus;

// The first n bytes of v as numbers of 16 bits: a sum of products then needs no widening.
pub fn widen(xs: &mut [u16], v: &[u8], n: usize)
    requires room { n ≤ length xs.old }
    requires bytes { n ≤ length v.now }
    ensures { xs.new ≡ filled (x_of v.now) xs.old n }
{
    for k in 0..n {
        xs[k] = u16::from(v[k]);
    }
}

// Σ b·a' over the qudits, b of v and a' of w: at most 64·30·30, which fits.
#[tactic(auto, using(crate::proofs::Laws::dot_more), unfolding(crate::specs::Row::dot))]
pub fn dot(v: &[u8], w: &[u8], n: usize) -> u16
    requires { (n ≤ 64)
        × Powers 31 n v.now
        × Powers 31 n w.now }
    ensures { (result ≡ dot n v.now w.now n)
        × (result ≤ 57600) }
{
    let mut sum: u16 = 0;
    for k in 0..n {
        sum += u16::from(v[n + k]) * u16::from(w[k]);
    }
    sum
}

// Σ b·x over the qudits, b of v. It stays beside `dot`: one function for bytes and numbers of 16 bits would promise the sum over a list
// that a trait maps w to, which every caller had to turn back into w.
#[tactic(auto, using(crate::proofs::Laws::mixed_more), unfolding(crate::specs::Row::dot))]
fn mixed(v: &[u8], xs: &[u16], n: usize) -> u16
    requires few { n ≤ 64 }
    requires left { Powers 31 n v.now }
    requires right { XPowers 31 n xs.now }
    ensures value { result ≡ dot n v.now xs.now n }
    ensures most { result ≤ 57600 }
{
    let mut sum: u16 = 0;
    for k in 0..n {
        sum += u16::from(v[n + k]) * xs[k];
    }
    sum
}

// The powers of v gain those of w.
fn add(v: &mut [u8], w: &[u8], d: u8, n: usize)
    requires small { d ≤ 31 }
    requires left { Row d n v.old }
    requires right { Row d n w.now }
    ensures { v.new ≡ filled (sum_at d v.old w.now) v.old (2 * n) }
{
    for k in 0..2 * n {
        v[k] = modular::add(d, v[k], w[k]);
    }
}

// v becomes v times w. The X powers of w are h·x modulo d, so h·Σ b·x stands for Σ b·a': a sum over numbers of 16 bits.
#[tactic(auto, using(crate::proofs::Scaled::phase_multiple, crate::proofs::Fill::filled_row), unfolding(crate::specs::Row::product))]
pub fn product(v: &mut [u8], w: &[u8], xs: &[u16], h: u8, m: Modulus, n: usize)
    requires few { n ≤ 64 }
    requires left { Row m.d n v.old }
    requires right { MultipleRow m.d n h xs.now w.now }
    ensures { v.new ≡ product m.d n v.old w.now }
{
    let last = 2 * n;
    let sum = mixed(v, xs, n);
    let r = m.reduce_multiply_add(v[last], w[last], h, sum);
    add(v, w, m.d, n);
    v[last] = r;
}

// The pairing of v with w, each a row or a frame.
#[tactic(auto, unfolding(crate::specs::Row::pairing))]
pub fn pairing(v: &[u8], w: &[u8], m: Modulus, n: usize) -> u8
    requires few { n ≤ 64 }
    requires left { Powers m.d n v.now }
    requires right { Powers m.d n w.now }
    ensures { result ≡ pairing m.d n v.now w.now }
{
    let plus = dot(v, w, n);
    let minus = dot(w, v, n);
    m.reduce_difference(plus, minus)
}

// v becomes the row with power 1 at p, else 0, and phase r: X on p, or Z on p − n.
#[tactic(auto, using(crate::proofs::Fill::unit_stored))]
pub fn unit_row(v: &mut [u8], p: usize, r: u8, n: usize)
    requires place { p < 2 * n }
    requires len { length v.old ≡ 2 * n + 1 }
    ensures { v.new ≡ row_of n (unit p) r }
{
    v.fill(0);
    v[p] = 1;
    v[2 * n] = r;
}
