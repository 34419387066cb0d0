// The calls about a tableau that names itself: the layer and the tableau test; and what a run asks of one.
#![tactic(auto)]

ghost use Rattle.std.specs.Prelude.{◌≡◌, true, ◌≤◌, length};
ghost use Rattle.modular.specs.Dimension.{listed};
ghost use Rattle.tableau.specs.Tableau.{sized};
ghost use Rattle.zero_tableau.specs.ZeroTableau.{zero_tableau};
ghost use Rattle.validity.specs.Validity.{valid};
ghost use Rattle.answer.specs.Refusal.{tested};
ghost use Rattle.saved_tableau.specs.Saved.{rows_in, with_rows, tableau_bytes, names, valid_for};
ghost use Rattle.saved_tableau.specs.Shape.{shape_number};
ghost use Rattle.saved_tableau.specs.Layer.{layer_number, layer_leaves};
ghost use Rattle.saved_tableau.specs.Test.{test_number};

use answer::{Answer, Refusal};

// A tableau of n qudits of dimension d in a lent buffer, or its refusal by 2, 3 or 8.
fn shaped(t: &[u8], d: usize, n: usize) -> Result<(), Refusal>
    ensures { tested result ≡ record { number = shape_number d n t.now 0; place = 0 } }
{
    if !modular::is_listed(d) {
        return Err(Refusal::Dimension);
    }
    if !tableau::is_sized(n) {
        return Err(Refusal::Qudits);
    }
    if t.len() < 2 * n * (2 * n + 1) + 2 {
        return Err(Refusal::Length);
    }
    Ok(())
}

// The zero tableau's rows behind the first two bytes.
fn lay_rows(t: &mut [u8], n: usize)
    requires { (n ≤ 64)
        × (tableau_bytes n ≤ length t.old) }
    ensures { t.new ≡ with_rows t.old (zero_tableau n (rows_in t.old)) }
{
    zero_tableau::zero_rows(&mut t[2..], n);
}

// Lays the zero tableau of n qudits of dimension d, or refuses by 2, 3 or 8.
fn laid(t: &mut [u8], d: usize, n: usize) -> Result<(), Refusal>
    ensures number { tested result ≡ record { number = layer_number d n t.old; place = 0 } }
    ensures left { t.new ≡ layer_leaves d n t.old }
{
    shaped(t, d, n)?;
    lay_rows(t, n);
    t[0] = d as u8;
    t[1] = n as u8;
    Ok(())
}

pub fn lay(t: &mut [u8], d: usize, n: usize) -> Answer
    ensures { (result ≡ record { number = layer_number d n t.old; place = 0 })
        × (t.new ≡ layer_leaves d n t.old) }
{
    Answer::from(laid(t, d, n))
}

// Whether the rows behind the first two bytes are valid for d and n.
fn rows_valid(t: &[u8], d: u8, n: usize) -> bool
    requires { (listed d ≡ true)
        × (n ≤ 64)
        × (tableau_bytes n ≤ length t.now) }
    ensures { result ≡ valid d n (rows_in t.now) }
{
    validity_test::is_valid(&t[2..], d, n)
}

// Tests a tableau for the d and n that it names: its refusal by 8, 2, 3, 8 or 9.
pub fn tested(t: &[u8]) -> Result<(), Refusal>
    ensures { tested result ≡ record { number = test_number t.now; place = 0 } }
{
    if t.len() < 2 {
        return Err(Refusal::Length);
    }
    let d = t[0];
    let n = usize::from(t[1]);
    shaped(t, usize::from(d), n)?;
    if !rows_valid(t, d, n) {
        return Err(Refusal::Rows);
    }
    Ok(())
}

pub fn test(t: &[u8]) -> Answer
    ensures { result ≡ record { number = test_number t.now; place = 0 } }
{
    Answer::from(tested(t))
}

// Whether the first two bytes are d and n.
fn is_named(t: &[u8], d: u8, n: usize) -> bool
    requires { 2 ≤ length t.now }
    ensures { result ≡ names d n t.now }
{
    (t[0] == d) & (usize::from(t[1]) == n)
}

// Whether a tableau is valid and names d and n, which are a book's.
pub fn is_valid_for(t: &[u8], d: u8, n: usize) -> bool
    requires { (listed d ≡ true)
        × (sized n ≡ true)
        × (tableau_bytes n ≤ length t.now) }
    ensures { result ≡ valid_for d n t.now }
{
    if !is_named(t, d, n) {
        return false;
    }
    rows_valid(t, d, n)
}
