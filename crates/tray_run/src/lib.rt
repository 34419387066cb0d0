// The run of a tray.
#![tactic(auto)]

ghost use Rattle.std.specs.Prelude.{◌≡◌, ◌+◌, ◌*◌, ◌≤◌, length};
ghost use Rattle.saved_tableau.specs.Saved.{rows_in, tableau_bytes};
ghost use Rattle.circuit.specs.Circuit.{measurement_count};
ghost use Rattle.book.specs.Decoded.{operations_of};
ghost use Rattle.tray.specs.Tray.{shots_in};
ghost use Rattle.shots.specs.Shots.{filled_by, shifted_among, tray_buffers_fit, tray_book};
ghost use Rattle.shots_run.specs.Ready.{Ready};
ghost use Rattle.tray_run.specs.Answers.{refusal, answered};

use answer::Refusal;

// What a tray run returns: 0, the number of clean shots and the number of shifted ones; or a refusal's number, its place and 0.
#[repr(C)]
#[derive(Clone, Copy)]
pub struct TrayAnswer {
    pub number: usize,
    pub place: usize,
    pub shifted: usize,
}

impl From<Refusal> for TrayAnswer {
    ghost from_gives = { λ r a. a ≡ refusal r };

    fn from(refusal: Refusal) -> TrayAnswer {
        TrayAnswer {
            number: refusal.number(),
            place: refusal.place(),
            shifted: 0,
        }
    }
}

// Whether tableau and buffer are as long as they must be.
#[tactic(auto, unfolding(shots::specs::Shots::tray_buffers_fit))]
fn buffers_fit(t: &[u8], out: &[u8], measurements: usize, shots: usize, n: usize) -> bool
    requires qudits { n ≤ 64 }
    requires few_measurements { measurements ≤ 4096 }
    requires few_shots { shots ≤ 4096 }
    ensures { result ≡ tray_buffers_fit n measurements shots t.now out.now }
{
    (2 * n * (2 * n + 1) + 2 <= t.len()) & (shots * (1 + 2 * measurements) <= out.len())
}

// Every shot from the rows of a tableau, which is kept: the buffer holds what separate frame runs would fill it with. How many are
// shifted is returned.
fn run_shots(
    out: &mut [u8],
    tray: &[u8],
    t: &[u8],
    ops: &[u8],
    choices: &[u8],
    measurements: usize,
    d: u8,
    n: usize,
) -> usize
    requires { (tableau_bytes n ≤ length t.now)
        × Ready d n tray.now (rows_in t.now) ops.now choices.now
        × (measurements ≡ measurement_count (operations_of d n ops.now))
        × (shots_in tray.now * (1 + 2 * measurement_count (operations_of d n ops.now)) ≤ length out.old) }
    ensures { (out.new
        ≡ filled_by d n (operations_of d n ops.now) choices.now (rows_in t.now) tray.now out.old (shots_in tray.now))
        × (result ≡ shifted_among d n (operations_of d n ops.now) choices.now (rows_in t.now) tray.now (shots_in tray.now)) }
{
    shots_run::run(out, tray, &t[2..], ops, choices, measurements, d, n)
}

// The shots of a tray over a book's circuit, from the lent tableau: refusals 1 to 7 of the book, then 11, the tray's 6, 8 and 9.
#[tactic(auto, unfolding(shots::specs::Shots::tray_by_answer, shots::specs::Shots::tray_book))]
fn run_or_refuse(book: &[u8], tray: &[u8], t: &[u8], out: &mut [u8]) -> Result<TrayAnswer, Refusal>
    ensures { let a = answered result in
        record { number = a.number; place = a.place; shifted = a.shifted; out = out.new }
        ≡ tray_book book.now tray.now t.now out.old }
{
    let numbers = book::read(book)?;
    let d = numbers.d;
    let n = numbers.n;
    if !tray::table_fits(tray) {
        return Err(Refusal::Table);
    }
    if let Some(shot) = tray::bad_shot(tray, numbers.operations, d, n) {
        return Err(Refusal::Shot(shot));
    }
    let shots = book_entries::word(tray, 0);
    if !buffers_fit(t, out, numbers.measurements, shots, n) {
        return Err(Refusal::Length);
    }
    if !tableau_calls::is_valid_for(t, d, n) {
        return Err(Refusal::Rows);
    }
    let shifted = run_shots(
        out,
        tray,
        t,
        book::operations(book),
        book::choices(book),
        numbers.measurements,
        d,
        n,
    );
    let clean = shots - shifted;
    Ok(TrayAnswer {
        number: 0,
        place: clean,
        shifted,
    })
}

// Returns 0, the number of clean shots and that of shifted ones, or a refusal.
pub fn tray_run(book: &[u8], tray: &[u8], t: &[u8], out: &mut [u8]) -> TrayAnswer
    ensures { record { number = result.number; place = result.place; shifted = result.shifted; out = out.new }
        ≡ tray_book book.now tray.now t.now out.old }
{
    run_or_refuse(book, tray, t, out).unwrap_or_else(TrayAnswer::from)
}
