// Inverses modulo the listed dimensions.
#![tactic(auto)]

ghost use Rattle.std.specs.Prelude.{◌≡◌, ◌<◌, ◌≤◌};
ghost use Rattle.modular.specs.Dimension.{power_of, inverse};

use modular::Modulus;

// u to the power k, by squares: 7 products for an inverse modulo 31, and not 29. The loop counts no index: it halves the exponent that is
// left.
fn power(m: Modulus, u: u8, k: u8) -> u8
    requires low { 3 ≤ m.d }
    requires below { u < m.d }
    ensures { result ≡ power_of m.d u k }
{
    let mut x = if k % 2 == 1 { u } else { 1 };
    let mut s = u;
    let mut j = k / 2;
    while j > 0 {
        s = m.mul(s, s);
        if j % 2 == 1 {
            x = m.mul(x, s);
        }
        j /= 2;
    }
    x
}

// The inverse of u modulo d, as u to the power d − 2: 0 for 0 and for every u from d up.
pub fn inverse(d: u8, u: u8) -> u8
    requires { (3 ≤ d)
        × (d ≤ 31) }
    ensures { result ≡ inverse d u }
{
    if u >= d {
        return 0;
    }
    power(Modulus::new(d), u, d - 2)
}
