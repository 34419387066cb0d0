// What a gate, an error, a reset and a correction do to a frame: to one alone, and to one of many frames that stand side by side.
#![tactic(auto)]

ghost use Rattle.std.specs.Prelude.{◌≡◌, true, List, ℕ, ◌+◌, ◌*◌, ◌<◌, ◌≤◌, length, get_or, set};
ghost use Rattle.std.proofs.Math.Nat.{mod-lt};
ghost use Rattle.modular.specs.Dimension.{listed};
ghost use Rattle.row.specs.Row.{Powers};
ghost use Rattle.operation.specs.declared.Operation.TheVariants as gate;
ghost use Rattle.operation.specs.Operation.{allowed};
ghost use Rattle.operation.specs.Gate.{fourier_x, fourier_z, with_x, less_x, gate_powers, gate_frame};
ghost use Rattle.operation.specs.Error.{error_frame};
ghost use Rattle.operation.proofs.Gate.{fourier-powers, phase_gate-powers, sum-powers, cz-powers, swap-powers, multiplier-powers};
ghost use Rattle.operation.proofs.Error.{error-powers};
ghost use Rattle.operation.proofs.Stores.{powers_store};
ghost use Rattle.frame_powers.specs.Lane.{FrameIn, ChangedIn, InverseOf};

use modular::Modulus;
use operation::{Operation, WeylError};

// What is done to the frame in one of LANES lanes. Power s of the frame in lane l stands at byte LANES·s + l, and a frame alone is the only
// lane of one.
pub trait FrameChange<const LANES: usize>: Copy {
    // what becomes of the powers of n qudits of dimension d
    ghost change: { Self → ℕ → ℕ → List ℕ → List ℕ };

    // the operands that it takes there
    ghost fits: { Self → ℕ → ℕ → Type 0 };

    fn change(self, v: &mut [u8], l: usize, m: Modulus, n: usize)
        requires inside { l < LANES }
        requires frame { FrameIn LANES m.d n l v.old }
        requires operands { fits self m.d n }
        ensures { ChangedIn LANES n l (change self m.d n) v.old v.new };

    // Powers stay below d.
    ghost keeps: { (x : Self) (d n : ℕ) → 0 < d → fits x d n → (F : List ℕ) → Powers d n F → Powers d n (change x d n F) };
}

// Power s of the frame in lane l.
fn power<const LANES: usize>(v: &[u8], l: usize, s: usize) -> u8
    requires { LANES * s + l < length v.now }
    ensures { result ≡ get_or v.now (LANES * s + l) 0 }
{
    v[LANES * s + l]
}

fn store<const LANES: usize>(v: &mut [u8], l: usize, s: usize, x: u8)
    requires { LANES * s + l < length v.old }
    ensures { v.new ≡ set v.old (LANES * s + l) x }
{
    v[LANES * s + l] = x;
}

// The X power that k applications of Fourier make of the powers a and b.
pub fn fourier_x(d: u8, k: u8, a: u8, b: u8) -> u8
    requires { (a < d)
        × (b < d) }
    ensures { result ≡ fourier_x d k a b }
{
    match k {
        1 => modular::negative(d, b),
        2 => modular::negative(d, a),
        _ => b,
    }
}

// The Z power.
pub fn fourier_z(d: u8, k: u8, a: u8, b: u8) -> u8
    requires { (a < d)
        × (b < d) }
    ensures { result ≡ fourier_z d k a b }
{
    match k {
        1 => a,
        2 => modular::negative(d, b),
        _ => modular::negative(d, a),
    }
}

#[derive(Clone, Copy)]
pub struct Fourier {
    pub q: usize,
    pub times: u8,
}

impl<const LANES: usize> FrameChange<LANES> for Fourier {
    ghost change = { λ g d n. gate_powers d n (gate.Fourier g.q g.times) };

    ghost fits = { λ g d n. g.q < n };

    fn change(self, v: &mut [u8], l: usize, m: Modulus, n: usize) {
        let q = self.q;
        let z = n + q;
        let a = power::<LANES>(v, l, q);
        let b = power::<LANES>(v, l, z);
        store::<LANES>(v, l, q, fourier_x(m.d, self.times, a, b));
        store::<LANES>(v, l, z, fourier_z(m.d, self.times, a, b));
    }

    ghost keeps = { λ g d n low h F. fourier-powers d n low g.q g.times F h };
}

#[derive(Clone, Copy)]
pub struct PhaseGate {
    pub q: usize,
    pub times: u8,
}

impl<const LANES: usize> FrameChange<LANES> for PhaseGate {
    ghost change = { λ g d n. gate_powers d n (gate.PhaseGate g.q g.times) };

    ghost fits = { λ g d n. (g.q < n) × (g.times < d) };

    fn change(self, v: &mut [u8], l: usize, m: Modulus, n: usize) {
        let z = n + self.q;
        let a = power::<LANES>(v, l, self.q);
        let b = power::<LANES>(v, l, z);
        store::<LANES>(v, l, z, modular::add(m.d, b, m.multiple(self.times, a)));
    }

    ghost keeps = { λ g d n low h. phase_gate-powers d n low g.q g.times };
}

#[derive(Clone, Copy)]
pub struct Sum {
    pub c: usize,
    pub t: usize,
    pub times: u8,
}

impl<const LANES: usize> FrameChange<LANES> for Sum {
    ghost change = { λ g d n. gate_powers d n (gate.Sum g.c g.t g.times) };

    ghost fits = { λ g d n. (g.c < n) × (g.t < n) × (g.times < d) };

    fn change(self, v: &mut [u8], l: usize, m: Modulus, n: usize) {
        let (xc, xt) = (self.c, self.t);
        let (zc, zt) = (n + xc, n + xt);
        let gain = m.multiple(self.times, power::<LANES>(v, l, xc));
        let loss = m.multiple(self.times, power::<LANES>(v, l, zt));
        let x = modular::add(m.d, power::<LANES>(v, l, xt), gain);
        let z = modular::subtract(m.d, power::<LANES>(v, l, zc), loss);
        store::<LANES>(v, l, zc, z);
        store::<LANES>(v, l, xt, x);
    }

    ghost keeps = { λ g d n low h. sum-powers d n low g.c g.t g.times };
}

#[derive(Clone, Copy)]
pub struct Cz {
    pub c: usize,
    pub t: usize,
    pub times: u8,
}

impl<const LANES: usize> FrameChange<LANES> for Cz {
    ghost change = { λ g d n. gate_powers d n (gate.Cz g.c g.t g.times) };

    ghost fits = { λ g d n. (g.c < n) × (g.t < n) × (g.times < d) };

    fn change(self, v: &mut [u8], l: usize, m: Modulus, n: usize) {
        let (xc, xt) = (self.c, self.t);
        let (zc, zt) = (n + xc, n + xt);
        let gain_c = m.multiple(self.times, power::<LANES>(v, l, xt));
        let gain_t = m.multiple(self.times, power::<LANES>(v, l, xc));
        let b = modular::add(m.d, power::<LANES>(v, l, zc), gain_c);
        let z = modular::add(m.d, power::<LANES>(v, l, zt), gain_t);
        store::<LANES>(v, l, zc, b);
        store::<LANES>(v, l, zt, z);
    }

    ghost keeps = { λ g d n low h. cz-powers d n low g.c g.t g.times };
}

#[derive(Clone, Copy)]
pub struct Swap {
    pub c: usize,
    pub t: usize,
}

// The two X powers are written together, then the two Z powers: stores near each other cost less.
fn exchange<const LANES: usize>(v: &mut [u8], l: usize, c: usize, t: usize, n: usize)
    requires inside { l < LANES }
    requires room { LANES * (2 * n) ≤ length v.old }
    requires first { c < n }
    requires second { t < n }
    ensures { (d : ℕ) → ChangedIn LANES n l (gate_powers d n (gate.Swap c t)) v.old v.new }
{
    let (zc, zt) = (n + c, n + t);
    let a = power::<LANES>(v, l, c);
    let x = power::<LANES>(v, l, t);
    let b = power::<LANES>(v, l, zc);
    let z = power::<LANES>(v, l, zt);
    store::<LANES>(v, l, c, x);
    store::<LANES>(v, l, t, a);
    store::<LANES>(v, l, zc, z);
    store::<LANES>(v, l, zt, b);
}

impl<const LANES: usize> FrameChange<LANES> for Swap {
    ghost change = { λ g d n. gate_powers d n (gate.Swap g.c g.t) };

    ghost fits = { λ g d n. (g.c < n) × (g.t < n) };

    fn change(self, v: &mut [u8], l: usize, m: Modulus, n: usize) {
        exchange::<LANES>(v, l, self.c, self.t, n);
    }

    ghost keeps = { λ g d n low h F. swap-powers d n low g.c g.t F h.0 h.1 };
}

// `inverse` is that of u modulo d.
#[derive(Clone, Copy)]
pub struct Multiplier {
    pub q: usize,
    pub u: u8,
    pub inverse: u8,
}

impl<const LANES: usize> FrameChange<LANES> for Multiplier {
    ghost change = { λ g d n. gate_powers d n (gate.Multiplier g.q g.u) };

    ghost fits = { λ g d n. (g.q < n) × InverseOf d g.u g.inverse };

    fn change(self, v: &mut [u8], l: usize, m: Modulus, n: usize) {
        let q = self.q;
        let z = n + q;
        let a = m.mul(power::<LANES>(v, l, q), self.u);
        let b = m.mul(power::<LANES>(v, l, z), self.inverse);
        store::<LANES>(v, l, q, a);
        store::<LANES>(v, l, z, b);
    }

    ghost keeps = { λ g d n low h. multiplier-powers d n low g.q g.u };
}

// A reset of qudit q: its X power is lost.
#[derive(Clone, Copy)]
pub struct Reset {
    pub q: usize,
}

impl<const LANES: usize> FrameChange<LANES> for Reset {
    ghost change = { λ g d n. with_x g.q 0 };

    ghost fits = { λ g d n. g.q < n };

    fn change(self, v: &mut [u8], l: usize, m: Modulus, n: usize) {
        store::<LANES>(v, l, self.q, 0);
    }

    ghost keeps = { λ g d n low h F p. powers_store g.q p low };
}

// A correction of qudit q: its X power loses the shift.
#[derive(Clone, Copy)]
pub struct Correction {
    pub q: usize,
    pub shift: u8,
}

impl<const LANES: usize> FrameChange<LANES> for Correction {
    ghost change = { λ c d n. less_x d c.q c.shift };

    ghost fits = { λ c d n. (c.q < n) × (c.shift < d) };

    fn change(self, v: &mut [u8], l: usize, m: Modulus, n: usize) {
        let x = power::<LANES>(v, l, self.q);
        store::<LANES>(v, l, self.q, modular::subtract(m.d, x, self.shift));
    }

    ghost keeps = { λ g d n low h F p. powers_store g.q p (mod-lt _ low) };
}

impl<const LANES: usize> FrameChange<LANES> for WeylError {
    ghost change = { λ e d n. error_frame d n e };

    ghost fits = { λ e d n. (e.qudit < n) × (e.p < d) × (e.s < d) };

    fn change(self, v: &mut [u8], l: usize, m: Modulus, n: usize) {
        let q = self.qudit;
        let at = n + q;
        let x = modular::add(m.d, power::<LANES>(v, l, q), self.p);
        let z = modular::add(m.d, power::<LANES>(v, l, at), self.s);
        store::<LANES>(v, l, q, x);
        store::<LANES>(v, l, at, z);
    }

    ghost keeps = { λ e d n low h F. error-powers d n e F low };
}

// The change of a frame alone.
pub fn change_frame<C: FrameChange<1>>(frame: &mut [u8], change: C, m: Modulus, n: usize)
    requires frame { Powers m.d n frame.old }
    requires operands { C.fits change m.d n }
    ensures changed { frame.new ≡ C.change change m.d n frame.old }
    ensures frame { Powers m.d n frame.new }
{
    change.change(frame, 0, m, n);
}

// Swap on a row's powers, or on any other list of bytes that begins with 2n of them.
pub fn swap_powers(v: &mut [u8], c: usize, t: usize, n: usize)
    requires { (c < n)
        × (t < n)
        × (2 * n ≤ length v.old) }
    ensures { (d : ℕ) → v.new ≡ gate_powers d n (gate.Swap c t) v.old }
{
    exchange::<1>(v, 0, c, t, n);
}

// The gate on a frame. Measurement, reset and correction are no gates, and leave it.
pub fn gate_frame(frame: &mut [u8], operation: Operation, m: Modulus, n: usize)
    requires dimension { listed m.d ≡ true }
    requires operation { allowed m.d n operation ≡ true }
    requires frame { Powers m.d n frame.old }
    ensures changed { frame.new ≡ gate_frame m.d n operation frame.old }
    ensures frame { Powers m.d n frame.new }
{
    match operation {
        Operation::Fourier { q, times } => change_frame(frame, Fourier { q, times }, m, n),
        Operation::PhaseGate { q, times } => change_frame(frame, PhaseGate { q, times }, m, n),
        Operation::Sum { c, t, times } => change_frame(frame, Sum { c, t, times }, m, n),
        Operation::Cz { c, t, times } => change_frame(frame, Cz { c, t, times }, m, n),
        Operation::Swap { c, t } => change_frame(frame, Swap { c, t }, m, n),
        Operation::Multiplier { q, u } => {
            let inverse = inverse::inverse(m.d, u);
            change_frame(frame, Multiplier { q, u, inverse }, m, n);
        }
        Operation::Measure { .. } | Operation::Reset { .. } | Operation::Correct { .. } => {}
    }
}
