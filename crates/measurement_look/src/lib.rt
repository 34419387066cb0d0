// The look at a qudit: what its measurement would be.
#![tactic(auto)]

ghost use Rattle.std.specs.Prelude.{◌≡◌, true, ◌+◌, ◌*◌, ◌<◌, ◌≤◌, length};
ghost use Rattle.modular.specs.Dimension.{listed};
ghost use Rattle.row.specs.Row.{Row};
ghost use Rattle.tableau.specs.Tableau.{Tableau};
ghost use Rattle.validity.specs.Validity.{Valid};
ghost use Rattle.measurement.specs.Look.{pivot_of, look};
ghost use Rattle.measurement_look.specs.Sums.{phase_term, half_phase_sum};

use measurement::Look;

// The lowest stabilizer whose X power on q is not 0.
fn pivot_of(t: &[u8], q: usize, n: usize) -> Option<usize>
    requires qudit { q < n }
    requires few { n ≤ 64 }
    requires room { 2 * n * (2 * n + 1) ≤ length t.now }
    ensures { result ≡ pivot_of n t.now q }
{
    let w = 2 * n + 1;
    for k in 0..n {
        let at = (n + k) * w + q;
        if t[at] != 0 {
            return Some(k);
        }
    }
    None
}

// What a row adds that is taken h times: at most 30·(57,600 + 62). For h = 0 its Σ a·b is not worked out.
#[tactic(auto, unfolding(crate::specs::Sums::phase_term))]
fn phase_term(v: &[u8], h: u8, d: u8, n: usize) -> u32
    requires few { n ≤ 64 }
    requires small { d ≤ 31 }
    requires power { h < d }
    requires row { Row d n v.now }
    ensures term { result ≡ phase_term d n h v.now }
    ensures most { result ≤ 1729860 }
{
    if h == 0 {
        return 0;
    }
    let last = 2 * n;
    u32::from(h) * (u32::from(row::dot(v, v, n)) + 2 * u32::from(d - v[last]))
}

// The certain outcome, without making the weighted product: the stabilizers commute, so twice the outcome is the sum of their terms.
// The sum is halved before its one rest is taken, since 16 times 64 terms fit.
fn certain(t: &[u8], q: usize, d: u8, n: usize) -> u8
    requires low { 3 ≤ d }
    requires high { d ≤ 31 }
    requires qudit { q < n }
    requires few { n ≤ 64 }
    requires tableau { Tableau d n t.now }
    ensures { result ≡ half_phase_sum d n t.now q }
{
    let w = 2 * n + 1;
    let mut sum = 0;
    for i in 0..n {
        let at = i * w + q;
        let s = (n + i) * w;
        let e = s + w;
        sum += phase_term(&t[s..e], t[at], d, n);
    }
    modular::half(sum, d)
}

// The look at qudit q.
pub fn look_at(t: &[u8], q: usize, d: u8, n: usize) -> Look
    requires dimension { listed d ≡ true }
    requires qudit { q < n }
    requires few { n ≤ 64 }
    requires valid { Valid d n t.now }
    ensures { result ≡ look d n t.now q }
{
    let Some(pivot) = pivot_of(t, q, n) else {
        return Look::Certain {
            outcome: certain(t, q, d, n),
        };
    };
    Look::Free { pivot }
}
