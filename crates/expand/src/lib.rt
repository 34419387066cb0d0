// The rows of shots that have errors are filled one after the other; here each is moved to its place, and the shots without errors
// get the clean run's bytes.
#![tactic(auto)]

ghost use Rattle.std.specs.Prelude.{◌≡◌, ◌∷◌, ◌+◌, ◌*◌, ◌≤◌, length};
ghost use Rattle.tableau.specs.Tableau.{part, put};
ghost use Rattle.expand.specs.Expand.{noisy_among, shot_row_of, RowsRoom, Expanded};

use book_entries::word;

// The row becomes that of a shot without errors: clean, and the clean results.
fn clean_row(row: &mut [u8], clean: &[u8])
    requires { length row.old ≡ 1 + length clean.now }
    ensures { row.new ≡ 0 ∷ clean.now }
{
    row[0] = 0;
    tableau::copy(&mut row[1..], clean);
}

// The w bytes from `to` on become those from `from` on, which lie before them. (By index: `copy_within` would be a function of C that the
// library needs from outside, memmove.)
fn move_row(out: &mut [u8], from: usize, to: usize, w: usize)
    requires before { from + w ≤ to }
    requires room { to + w ≤ length out.old }
    ensures { out.new ≡ put to w (part from w out.old) out.old }
{
    for j in 0..w {
        out[to + j] = out[from + j];
    }
}

// The row of shot first + i, when `noisy` shots up to it have errors. How many before it have some is returned.
fn row_at(
    out: &mut [u8],
    tray: &[u8],
    clean: &[u8],
    w: usize,
    first: usize,
    i: usize,
    noisy: usize,
) -> usize
    requires rows { RowsRoom tray.now first clean.now w (i + 1) out.old }
    requires noisy_count { noisy ≡ noisy_among tray.now first (i + 1) }
    requires some_clean { noisy ≤ i }
    ensures noisy_before { result ≡ noisy_among tray.now first i }
    ensures row { out.new ≡ put (i * w) w (shot_row_of tray.now first clean.now w out.old i) out.old }
{
    let s = i * w;
    if word(tray, 2 + 2 * (first + i)) == 0 {
        clean_row(&mut out[s..s + w], clean);
        return noisy;
    }
    let before = noisy - 1;
    let from = before * w;
    move_row(out, from, s, w);
    before
}

// Moves the rows of the `noisy` shots that have errors to their places among `count` shots, the first of them shot `first`, from the
// last to the first. It ends where no shot without errors is left: those before stand in their places.
pub fn expand(
    out: &mut [u8],
    tray: &[u8],
    clean: &[u8],
    w: usize,
    first: usize,
    count: usize,
    noisy: usize,
)
    requires rows { RowsRoom tray.now first clean.now w count out.old }
    requires noisy_count { noisy ≡ noisy_among tray.now first count }
    ensures { Expanded tray.now first clean.now w count out.old out.new }
{
    let mut k = noisy;
    for i in (0..count).rev() {
        if i < k {
            return;
        }
        k = row_at(out, tray, clean, w, first, i, k);
    }
}
