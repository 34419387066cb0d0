// The end of a frame run: each row's shift is written and added to its phase, and the shifts give the verdict.
#![tactic(auto)]

ghost use Rattle.std.specs.Prelude.{◌≡◌, cond, ◌++◌, ◌+◌, ◌*◌, ◌≤◌, length, drop};
ghost use Rattle.std.specs.List.{list_any};
ghost use Rattle.row.specs.Row.{Powers, Row, tab, pairing};
ghost use Rattle.search.specs.Search.{all};
ghost use Rattle.tableau.specs.Tableau.{Tableau};
ghost use Rattle.runs.specs.Frame.{Frame, shift_at, shift_row, shift_rows, verdict_of};
ghost use Rattle.frame_end.specs.Sizes.{Sizes};
ghost use Rattle.frame_end.specs.Verdict.{is_zero, is_shift};

use modular::Modulus;

// The shift of a row is the pairing of the frame with it; it is added to the row's phase.
fn shift_row(v: &mut [u8], frame: &[u8], m: Modulus, n: usize) -> u8
    requires few { n ≤ 64 }
    requires row { Row m.d n v.old }
    requires frame { Powers m.d n frame.now }
    ensures shift { result ≡ pairing m.d n frame.now v.old }
    ensures added { v.new ≡ shift_row m.d n frame.now v.old }
{
    let last = 2 * n;
    let shift = row::pairing(frame, v, m, n);
    v[last] = modular::add(m.d, v[last], shift);
    shift
}

// Every row's shift, written and added. By index: after `chunks_exact_mut` a proof knows of the slice its length alone.
fn shift_rows(t: &mut [u8], shifts: &mut [u8], frame: &[u8], m: Modulus, n: usize)
    requires few { n ≤ 64 }
    requires room { 2 * n ≤ length shifts.old }
    requires rows { Tableau m.d n t.old }
    requires frame { Powers m.d n frame.now }
    ensures added { t.new ≡ shift_rows m.d n frame.now t.old }
    ensures written { shifts.new ≡ tab (shift_at m.d n frame.now t.old) (2 * n) ++ drop (2 * n) shifts.old }
{
    let w = 2 * n + 1;
    for i in 0..2 * n {
        shifts[i] = shift_row(&mut t[i * w..i * w + w], frame, m, n);
    }
}

// Whether one of them is not 0.
fn any_shift(shifts: &[u8]) -> bool
    ensures { result ≡ list_any is_shift shifts.now }
{
    shifts.iter().any(|s| *s != 0)
}

// 0 clean where the n stabilizer shifts are 0, else 1 shifted: the number of the C struct.
fn verdict(shifts: &[u8], n: usize) -> usize
    requires { 2 * n ≤ length shifts.now }
    ensures { result ≡ cond (all (is_zero n shifts.now) n) 0 1 }
{
    usize::from(any_shift(&shifts[n..2 * n]))
}

// The shifts are added and written, and the frame is written. The verdict.
pub fn finish(
    t: &mut [u8],
    shifts: &mut [u8],
    out: &mut [u8],
    frame: &[u8],
    d: u8,
    n: usize,
) -> usize
    requires { Sizes d n
        × (2 * n ≤ length shifts.old)
        × (2 * n ≤ length out.old)
        × Tableau d n t.old
        × Frame d n frame.now }
    ensures { (t.new ≡ shift_rows d n frame.now t.old)
        × (shifts.new
        ≡ tab (shift_at d n frame.now t.old) (2 * n) ++ drop (2 * n) shifts.old)
        × (out.new ≡ frame.now ++ drop (2 * n) out.old)
        × (result ≡ verdict_of d n frame.now t.old) }
{
    shift_rows(t, shifts, frame, Modulus::new(d), n);
    out[..2 * n].copy_from_slice(frame);
    verdict(shifts, n)
}
