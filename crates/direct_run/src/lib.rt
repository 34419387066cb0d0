// The direct run: whole, told to halt, and going on.
#![tactic(auto)]

ghost use Rattle.std.specs.Prelude.{◌≡◌, ◌+◌, ◌*◌, ◌<◌, ◌≤◌, length};
ghost use Rattle.validity.specs.Validity.{Valid};
ghost use Rattle.saved_tableau.specs.Saved.{rows_in, tableau_bytes};
ghost use Rattle.circuit.specs.Circuit.{measurement_count};
ghost use Rattle.book_body.specs.Body.{answer_of, measured_of, measured_by};
ghost use Rattle.book.specs.Book.{operations_entry, part_of, read_book};
ghost use Rattle.book.specs.Circuits.{operation_list, error_list, AcceptedCircuit};
ghost use Rattle.book.specs.Decoded.{ops_in, errors_in, choices_in, measurements_in};
ghost use Rattle.runs.specs.Direct.{state_of};
ghost use Rattle.halts.specs.Halt.{finished, next_of, direct_to};
ghost use Rattle.measure_step.specs.Supplied.{RunTables};
ghost use Rattle.direct_book.specs.DirectBook.{behind, direct_left, direct_reached, direct_buffers_fit, direct_tested, direct_book};
ghost use Rattle.direct_book.specs.GoOn.{go_on_book};
ghost use Rattle.direct_book.specs.Passes.{Passes};

use answer::Refusal;
use book::Circuit;
use book_body::Numbers;
use direct_book::DirectAnswer;
use tables::Tables;

fn refused(number: usize, place: usize) -> DirectAnswer
    ensures { result ≡ record { number = number; place = place; next = 0 } }
{
    DirectAnswer {
        number,
        place,
        next: 0,
    }
}

// The number after `count` further operations. Their sum may be too large, so the count is compared with what is left.
fn next_of(operations: usize, from: usize, count: usize) -> usize
    requires not_past { from ≤ operations + 1 }
    requires few { operations < 4611686018427387904 }
    ensures { result ≡ next_of operations from count }
{
    from + count.min(operations + 1 - from)
}

// From number `from` to number `next` on the rows t: operations, each with the errors before it, and last the errors after all of them.
fn run_by(
    t: &mut [u8],
    results: &mut [u8],
    circuit: &Circuit,
    tables: &Tables,
    from: usize,
    next: usize,
)
    requires made { RunTables circuit.now.d circuit.now.n tables.now.d }
    requires accepted { AcceptedCircuit circuit.now }
    requires room { 2 * measurement_count (operation_list circuit.now) ≤ length results.old }
    requires valid { Valid circuit.now.d circuit.now.n t.old }
    requires from_in { from ≤ length (operation_list circuit.now) }
    requires in_order { from ≤ next }
    requires next_in { next ≤ length (operation_list circuit.now) + 1 }
    ensures { state_of t.new results.new
        ≡ direct_to circuit.now.d circuit.now.n (operation_list circuit.now) (error_list circuit.now)
        circuit.now.choices.now from next (state_of t.old results.old) }
{
    let count = circuit.count();
    let mut at = cursors::position(circuit, from);
    for k in from..count.min(next) {
        at = direct_step::advance(t, results, circuit, k, at, tables);
    }
    if count < next {
        direct_step::apply_errors(t, circuit, at.entry, count, tables);
    }
}

// The same on a tableau, whose first two bytes stay, by tables that are made once for all stages. Where nothing is to be done, for a count
// of 0 or from a finished run, whose number stands before no stage, it returns at once.
fn run(t: &mut [u8], results: &mut [u8], circuit: &Circuit, from: usize, next: usize)
    requires accepted { AcceptedCircuit circuit.now }
    requires room { 2 * measurement_count (operation_list circuit.now) ≤ length results.old }
    requires tableau_room { tableau_bytes circuit.now.n ≤ length t.old }
    requires valid { Valid circuit.now.d circuit.now.n (rows_in t.old) }
    requires in_order { from ≤ next }
    requires next_in { next ≤ length (operation_list circuit.now) + 1 }
    ensures { state_of t.new results.new
        ≡ behind t.old
        (direct_to circuit.now.d circuit.now.n (operation_list circuit.now) (error_list circuit.now)
        circuit.now.choices.now from next (state_of (rows_in t.old) results.old)) }
{
    if from == next {
        return;
    }
    let tables = Tables::new(circuit.d);
    run_by(&mut t[2..], results, circuit, &tables, from, next);
}

// Whether each buffer is as long as it must be.
fn buffers_fit(t: &[u8], results: &[u8], measurements: usize, n: usize) -> bool
    requires { n ≤ 64 }
    ensures { result ≡ direct_buffers_fit n measurements t.now results.now }
{
    (2 * n * (2 * n + 1) + 2 <= t.len()) & (measurements <= results.len() / 2)
}

// 1 to 7, then 8, then 9; or the numbers of a book that may run on these buffers.
#[tactic(auto, unfolding(direct_book::specs::DirectBook::direct_tested))]
fn tested(book: &[u8], t: &[u8], results: &[u8]) -> Result<Numbers, Refusal>
    ensures answer { answer_of result
        ≡ direct_tested book.now t.now results.now (read_book book.now) }
    ensures measured { measured_of result
        ≡ measured_by (part_of book.now operations_entry) (answer_of result) }
{
    let numbers = book::read(book)?;
    let d = numbers.d;
    let n = numbers.n;
    if !buffers_fit(t, results, numbers.measurements, n) {
        return Err(Refusal::Length);
    }
    if !tableau_calls::is_valid_for(t, d, n) {
        return Err(Refusal::Rows);
    }
    Ok(numbers)
}

// The run of a tested book from number `from` to number `next`.
fn reach(
    book: &[u8],
    t: &mut [u8],
    results: &mut [u8],
    numbers: Numbers,
    from: usize,
    next: usize,
) -> DirectAnswer
    requires { Passes book.now t.old results.old numbers.d numbers.n numbers.operations numbers.errors numbers.choices
        × (numbers.measurements ≡ measurements_in book.now numbers.d numbers.n)
        × (from ≤ next)
        × (next ≤ finished (length (ops_in book.now numbers.d numbers.n))) }
    ensures { direct_left result t.new results.new
        ≡ direct_reached (measurements_in book.now numbers.d numbers.n) next t.old
        (direct_to numbers.d numbers.n (ops_in book.now numbers.d numbers.n) (errors_in book.now)
        (choices_in book.now) from next (state_of (rows_in t.old) results.old)) }
{
    let circuit = Circuit::of(book, numbers);
    run(t, results, &circuit, from, next);
    DirectAnswer {
        number: 0,
        place: numbers.measurements,
        next,
    }
}

// Going on from a number for a count of further operations: refusals 1 to 7, then 8, then 9, then 13; or 0, the number of measurements
// and the number of the next operation.
#[tactic(auto, unfolding(direct_book::specs::DirectBook::direct_by, direct_book::specs::GoOn::go_on_book))]
pub fn go_on(
    book: &[u8],
    t: &mut [u8],
    results: &mut [u8],
    from: usize,
    count: usize,
) -> DirectAnswer
    ensures { direct_left result t.new results.new
        ≡ go_on_book book.now from count t.old results.old }
{
    let numbers = match tested(book, t, results) {
        Ok(numbers) => numbers,
        Err(refusal) => return refused(refusal.number(), refusal.place()),
    };
    let operations = numbers.operations;
    if operations + 1 < from {
        return refused(13, 0);
    }
    let next = next_of(operations, from, count);
    reach(book, t, results, numbers, from, next)
}

// The whole direct run of a book from the lent tableau: refusals 1 to 7, then 8, then 9; or 0, the number of measurements and that of
// the operations plus one.
#[tactic(auto, unfolding(direct_book::specs::DirectBook::direct_by, direct_book::specs::DirectBook::direct_book))]
pub fn direct_run(book: &[u8], t: &mut [u8], results: &mut [u8]) -> DirectAnswer
    ensures { direct_left result t.new results.new
        ≡ direct_book book.now t.old results.old }
{
    let numbers = match tested(book, t, results) {
        Ok(numbers) => numbers,
        Err(refusal) => return refused(refusal.number(), refusal.place()),
    };
    let finished = numbers.operations + 1;
    reach(book, t, results, numbers, 0, finished)
}
