// The rows of the zero tableau.
#![tactic(auto)]

ghost use Rattle.std.specs.Prelude.{◌≡◌, ◌+◌, ◌*◌, ◌≤◌, length};
ghost use Rattle.zero_tableau.specs.ZeroTableau.{zero_tableau};

// Every row of the zero tableau. By index: after `chunks_exact_mut` a proof knows of the slice its length alone.
pub fn zero_rows(t: &mut [u8], n: usize)
    requires few { n ≤ 64 }
    requires room { 2 * n * (2 * n + 1) ≤ length t.old }
    ensures { t.new ≡ zero_tableau n t.old }
{
    let w = 2 * n + 1;
    for i in 0..2 * n {
        row::unit_row(&mut t[i * w..i * w + w], i, 0, n);
    }
}
