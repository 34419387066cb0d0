// The frame run.
#![tactic(auto)]

ghost use Rattle.std.specs.Prelude.{◌≡◌, ◌≤◌, length, IfOk};
ghost use Rattle.validity.specs.Validity.{Valid};
ghost use Rattle.saved_tableau.specs.Saved.{rows_in, tableau_bytes};
ghost use Rattle.circuit.specs.Circuit.{measurement_count};
ghost use Rattle.book.specs.Decoded.{operations_of, errors_of, Bodies};
ghost use Rattle.runs.specs.Direct.{state_of};
ghost use Rattle.runs.specs.Frame.{no_frame, frame_run};
ghost use Rattle.frame_run.specs.FrameBook.{refusal, answered, buffers_of, end_of, frame_left, frame_buffers_fit, Room, frame_bodies, frame_book};

use answer::Refusal;
use book::Circuit;

// What the frame run returns: 0, the number of measurements and the verdict, 0 clean or 1 shifted; or a refusal's number, its
// place and 0.
#[repr(C)]
#[derive(Clone, Copy)]
pub struct FrameAnswer {
    pub number: usize,
    pub place: usize,
    pub verdict: usize,
}

impl From<Refusal> for FrameAnswer {
    ghost from_gives = { λ r a. a ≡ refusal r };

    fn from(refusal: Refusal) -> FrameAnswer {
        FrameAnswer {
            number: refusal.number(),
            place: refusal.place(),
            verdict: 0,
        }
    }
}

// The frame run: the clean run, which has no errors; then the frame, none at first, carried over the circuit; then the shifts.
fn run_in(
    rows: &mut [u8],
    results: &mut [u8],
    shifts: &mut [u8],
    out: &mut [u8],
    frame: &mut [u8],
    ops: &[u8],
    errors: &[u8],
    choices: &[u8],
    d: u8,
    n: usize,
) -> FrameAnswer
    requires { Bodies d n ops.now errors.now choices.now
        × Room n (measurement_count (operations_of d n ops.now)) results.old shifts.old out.old
        × (frame.old ≡ no_frame n)
        × Valid d n rows.old }
    ensures { (end_of result rows.new results.new shifts.new out.new
        ≡ frame_run d n (operations_of d n ops.now) (errors_of errors.now) choices.now
        (state_of rows.old results.old) shifts.old out.old)
        × (result.number ≡ 0)
        × (result.place ≡ measurement_count (operations_of d n ops.now)) }
{
    let circuit = Circuit {
        ops,
        errors,
        choices,
        d,
        n,
    };
    let place = clean_run::run(rows, results, &circuit);
    frame_carry::carry(frame, results, &circuit);
    let verdict = frame_end::finish(rows, shifts, out, frame, d, n);
    FrameAnswer {
        number: 0,
        place,
        verdict,
    }
}

// The frame run of three bodies on a tableau, whose first two bytes stay, with room for the longest frame.
fn run(
    t: &mut [u8],
    results: &mut [u8],
    shifts: &mut [u8],
    out: &mut [u8],
    ops: &[u8],
    errors: &[u8],
    choices: &[u8],
    d: u8,
    n: usize,
) -> FrameAnswer
    requires { Bodies d n ops.now errors.now choices.now
        × Room n (measurement_count (operations_of d n ops.now)) results.old shifts.old out.old
        × (tableau_bytes n ≤ length t.old)
        × Valid d n (rows_in t.old) }
    ensures { frame_left result (buffers_of t.new results.new shifts.new out.new)
        ≡ frame_bodies d n ops.now errors.now choices.now
        (buffers_of t.old results.old shifts.old out.old) }
{
    let mut frame = [0u8; 128];
    let powers = 2 * n;
    run_in(
        &mut t[2..],
        results,
        shifts,
        out,
        &mut frame[..powers],
        ops,
        errors,
        choices,
        d,
        n,
    )
}

// Whether each buffer is as long as it must be.
#[tactic(auto, using(measure_step::proofs::Room::halves), unfolding(crate::specs::FrameBook::frame_buffers_fit))]
fn buffers_fit(
    t: &[u8],
    results: &[u8],
    shifts: &[u8],
    frame: &[u8],
    measurements: usize,
    n: usize,
) -> bool
    requires { n ≤ 64 }
    ensures { result
        ≡ frame_buffers_fit n measurements (buffers_of t.now results.now shifts.now frame.now) }
{
    (2 * n * (2 * n + 1) + 2 <= t.len())
        & ((measurements <= results.len() / 2) & ((2 * n <= shifts.len()) & (2 * n <= frame.len())))
}

// The frame run of a book from the lent tableau: refusals 1 to 7, then 8, then 9; or 0, the number of measurements and
// the verdict.
#[tactic(auto, unfolding(crate::specs::FrameBook::frame_by_answer, crate::specs::FrameBook::frame_book))]
pub fn run_or_refuse(
    book: &[u8],
    t: &mut [u8],
    results: &mut [u8],
    shifts: &mut [u8],
    frame: &mut [u8],
) -> Result<FrameAnswer, Refusal>
    ensures done { IfOk result (λ answer. answer.number ≡ 0) }
    ensures left { frame_left (answered result) (buffers_of t.new results.new shifts.new frame.new)
        ≡ frame_book book.now (buffers_of t.old results.old shifts.old frame.old) }
{
    let numbers = book::read(book)?;
    let d = numbers.d;
    let n = numbers.n;
    if !buffers_fit(t, results, shifts, frame, numbers.measurements, n) {
        return Err(Refusal::Length);
    }
    if !tableau_calls::is_valid_for(t, d, n) {
        return Err(Refusal::Rows);
    }
    let ops = book::operations(book);
    let errors = book::errors(book);
    let choices = book::choices(book);
    Ok(run(t, results, shifts, frame, ops, errors, choices, d, n))
}

// The same, with a refusal as three numbers.
pub fn frame_run(
    book: &[u8],
    t: &mut [u8],
    results: &mut [u8],
    shifts: &mut [u8],
    frame: &mut [u8],
) -> FrameAnswer
    ensures { frame_left result (buffers_of t.new results.new shifts.new frame.new)
        ≡ frame_book book.now (buffers_of t.old results.old shifts.old frame.old) }
{
    run_or_refuse(book, t, results, shifts, frame).unwrap_or_else(FrameAnswer::from)
}
