// The free measurement of a qudit, on every row of a tableau.
#![tactic(auto)]

ghost use Rattle.std.specs.Prelude.{◌≡◌, ◌+◌, ◌*◌, ◌<◌, ◌≤◌, length, take};
ghost use Rattle.modular.specs.Modular.{neg};
ghost use Rattle.row.specs.Row.{Row, row_of, sum_at, power};
ghost use Rattle.row.specs.Generators.{z_with};
ghost use Rattle.tableau.specs.Tableau.{Tableau, on_rows};
ghost use Rattle.measurement.specs.Collapse.{collapse};
ghost use Rattle.measurement_collapse.specs.FreeMeasurement.{Operands, PowersOf, Prepared, row_put};
ghost use Rattle.measurement_collapse.specs.Changing.{selected, on_selected};

use modular::Modulus;

// The pivot times one of its powers v is the next: its powers are the sums of theirs, and its phase is r. It is made where it stays: with
// few qudits a copy of 144 bytes would cost more than it has bytes.
fn next_power(next: &mut [u8; 144], pivot: &[u8], v: &[u8], r: u8, m: Modulus, n: usize)
    requires few { n ≤ 64 }
    requires pivot { Row m.d n pivot.now }
    requires before { Row m.d n v.now }
    ensures { take (2 * n + 1) next.new ≡ row_of n (sum_at m.d pivot.now v.now) r }
{
    let last = 2 * n;
    for j in 0..last {
        next[j] = modular::add(m.d, pivot[j], v[j]);
    }
    next[last] = r;
}

// Every power of the pivot, made once for all rows; p has power 0 already, which is zeros. From power h to the next one the phase gains
// r + h·Σ a·b, r being the pivot's phase.
fn fill_powers(p: &mut [[u8; 144]], pivot: &[u8], m: Modulus, n: usize)
    requires few { n ≤ 64 }
    requires pivot { Row m.d n pivot.now }
    requires room { m.d ≤ length p.old }
    requires none { PowersOf m.d n pivot.now p.old 1 }
    ensures { PowersOf m.d n pivot.now p.new m.d }
{
    let w = 2 * n + 1;
    let own = m.reduce_wide(u32::from(row::dot(pivot, pivot, n)));
    let mut phase = 0;
    let mut gain = pivot[2 * n];
    for h in 0..usize::from(m.d) - 1 {
        phase = modular::add(m.d, phase, gain);
        gain = modular::add(m.d, gain, own);
        let (made, rest) = p.split_at_mut(h + 1);
        next_power(&mut rest[0], pivot, &made[h][..w], phase, m, n);
    }
}

// A free measurement of qudit q by stabilizer k, the pivot, whose X power on q is e: inv is 1/e. The powers are the pivot's, 144 bytes
// apart: with few qudits that is faster than powers side by side. xs has the pivot's X powers.
#[derive(Clone, Copy)]
struct Measurement<'a> {
    m: Modulus,
    n: usize,
    q: usize,
    k: usize,
    choice: u8,
    inv: u8,
    powers: &'a [[u8; 144]; 31],
    xs: &'a [u16],
    ghost low: { 3 ≤ m.d },
    ghost operands: { Operands m.d n q k choice },
    ghost prepared: { Prepared m.d n q inv powers.now xs.now },
}

impl Measurement<'_> {
    ghost use Rattle.measurement_collapse.specs.Clearing.{pivot_of, cleared_by, changed_by};

    // The pivot to the power h.
    fn power(&self, h: u8) -> &[u8]
        requires { h < self.now.m.d }
        ensures { result.now ≡ power self.now.m.d self.now.n h (pivot_of self.now) }
    {
        &self.powers[usize::from(h)][..2 * self.n + 1]
    }

    // v becomes itself times the pivot to the power −f/e, f being its own X power on q, which is 0 then if e is not.
    fn clear_row(&self, v: &mut [u8])
        requires { Row self.now.m.d self.now.n v.old }
        ensures { v.new ≡ cleared_by self.now v.old }
    {
        let h = self.m.mul(modular::negative(self.m.d, self.inv), v[self.q]);
        let xs = self.xs;
        row::product(v, self.power(h), xs, h, self.m, self.n);
    }

    // The rows that are multiplied by a power of the pivot, in order: all but k and n + k that have an X power on q. They are found without
    // a branch, which for small d would often be foreseen wrongly; so the list is written one number ahead.
    fn list_changing(&self, list: &mut [u8], t: &[u8]) -> usize
        requires room { 2 * self.now.n < length list.old }
        requires rows { 2 * self.now.n * (2 * self.now.n + 1) ≤ length t.now }
        ensures few { result ≤ 2 * self.now.n }
        ensures listed { take result list.new ≡ selected (changed_by self.now t.now) (2 * self.now.n) }
    {
        let n = self.n;
        let w = 2 * n + 1;
        let mut count = 0;
        for i in 0..2 * n {
            list[count] = i as u8;
            count += usize::from((i != self.k) & (i != n + self.k) & (t[i * w + self.q] != 0));
        }
        count
    }

    // Every row of the list is cleared.
    fn clear(&self, t: &mut [u8], list: &[u8])
        requires listed { list.now ≡ selected (changed_by self.now t.old) (2 * self.now.n) }
        requires rows { Tableau self.now.m.d self.now.n t.old }
        ensures cleared { t.new ≡ on_rows self.now.n (on_selected (changed_by self.now t.old) (cleared_by self.now)) t.old }
        ensures rows { Tableau self.now.m.d self.now.n t.new }
    {
        let w = 2 * self.n + 1;
        for &i in list {
            let s = usize::from(i) * w;
            self.clear_row(&mut t[s..s + w]);
        }
    }

    // Destabilizer k becomes the pivot to the power 1/e, and stabilizer k becomes Z on q with phase −choice.
    fn replace(&self, t: &mut [u8])
        requires { Tableau self.now.m.d self.now.n t.old }
        ensures { t.new ≡ row_put self.now.n (self.now.n + self.now.k) (z_with self.now.n self.now.q (neg self.now.m.d self.now.choice))
            (row_put self.now.n self.now.k (power self.now.m.d self.now.n self.now.inv (pivot_of self.now)) t.old) }
    {
        let n = self.n;
        let w = 2 * n + 1;
        let s = self.k * w;
        t[s..s + w].copy_from_slice(self.power(self.inv));
        let f = (n + self.k) * w;
        row::unit_row(
            &mut t[f..f + w],
            n + self.q,
            modular::negative(self.m.d, self.choice),
            n,
        );
    }
}

// The tableau after qudit q was measured freely, by stabilizer k and with this choice.
pub fn collapse(t: &mut [u8], k: usize, q: usize, choice: u8, m: Modulus, n: usize)
    requires low { 3 ≤ m.d }
    requires operands { Operands m.d n q k choice }
    requires rows { Tableau m.d n t.old }
    ensures collapsed { t.new ≡ collapse m.d n q k choice t.old }
    ensures rows { Tableau m.d n t.new }
{
    let mut powers = [[0; 144]; 31];
    let mut xs = [0; 64];
    let mut list = [0; 129];
    let pivot = tableau::row(t, n + k, n);
    let inv = inverse::inverse(m.d, pivot[q]);
    fill_powers(&mut powers, pivot, m, n);
    row::widen(&mut xs, pivot, n);
    let measurement = Measurement {
        m,
        n,
        q,
        k,
        choice,
        inv,
        powers: &powers,
        xs: &xs,
    };
    let count = measurement.list_changing(&mut list, t);
    measurement.clear(t, &list[..count]);
    measurement.replace(t);
}
