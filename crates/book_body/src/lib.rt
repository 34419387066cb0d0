// The three bodies of a shot book, and the first bad entry of each.
#![tactic(auto)]

ghost use Rattle.std.specs.Prelude.{◌≡◌, ◌*◌, ◌/◌, ◌<◌, length};
ghost use Rattle.operation.specs.Operation.{named};
ghost use Rattle.book_body.specs.Body.{length_fits, all_plain, bad_operation, measurements, choice_takers, error_fits, bad_error, smaller, bad_choice, read_bodies, answer_of, measured_of, measured_by};

use answer::Refusal;
use operation::{Operation, WeylError};

// The numbers of an accepted book.
#[derive(Clone, Copy, Debug, PartialEq, Eq)]
pub struct Numbers {
    pub d: u8,
    pub n: usize,
    pub operations: usize,
    pub errors: usize,
    pub choices: usize,
    pub measurements: usize,
}

// A number of bytes that is whole entries of `size` bytes, at most `most` of them.
pub fn length_fits(bytes: usize, size: usize, most: usize) -> bool
    requires { (0 < size)
        × (size * most < 65536) }
    ensures { result ≡ length_fits bytes size most }
{
    (bytes % size == 0) & (bytes <= size * most)
}

// Whether the measurement that an operation names, if it is a correction, is one of the `earlier` ones.
fn names_earlier(operation: Operation, earlier: usize) -> bool
    ensures { result ≡ named earlier operation }
{
    match operation {
        Operation::Correct { m, .. } => m < earlier,
        _ => true,
    }
}

// Whether every operation is a gate or a measurement: such a body has nothing bad, and its choices are counted by the measurements.
fn all_plain(ops: &[u8], d: u8, n: usize) -> bool
    ensures { result ≡ all_plain d n ops.now }
{
    (0..ops.len() / 4).all(|k| book_entries::plain_at(ops, k, d, n))
}

// The first bad operation of any body.
fn bad_among(ops: &[u8], d: u8, n: usize) -> Option<usize>
    ensures { result ≡ bad_operation d n ops.now }
{
    let mut earlier = 0;
    for k in 0..ops.len() / 4 {
        let Some(operation) = book_entries::operation_at(ops, k, d, n) else {
            return Some(k);
        };
        if !names_earlier(operation, earlier) {
            return Some(k);
        }
        earlier += usize::from(ops[4 * k] == 6);
    }
    None
}

// 5: the first bad operation. (Asked of each entry, its name would cost books without corrections a fifth of the reading.)
fn bad_operation(ops: &[u8], plain: bool, d: u8, n: usize) -> Option<usize>
    requires { plain ≡ all_plain d n ops.now }
    ensures { result ≡ bad_operation d n ops.now }
{
    if plain {
        return None;
    }
    bad_among(ops, d, n)
}

// How many of the operations are measurements.
fn measurements(ops: &[u8]) -> usize
    ensures { result ≡ measurements ops.now (length ops.now / 4) }
{
    let mut sum = 0;
    for k in 0..ops.len() / 4 {
        sum += usize::from(ops[4 * k] == 6);
    }
    sum
}

// How many of the operations are measurements or resets.
fn choice_takers(ops: &[u8]) -> usize
    ensures { result ≡ choice_takers ops.now (length ops.now / 4) }
{
    let mut sum = 0;
    for k in 0..ops.len() / 4 {
        let code = ops[4 * k];
        sum += usize::from((code == 6) | (code == 7));
    }
    sum
}

// How many choices the operations take, so many of them being measurements.
fn choices_taken(ops: &[u8], plain: bool, measured: usize, d: u8, n: usize) -> usize
    requires { (plain ≡ all_plain d n ops.now)
        × (measured ≡ measurements ops.now (length ops.now / 4)) }
    ensures { result ≡ choice_takers ops.now (length ops.now / 4) }
{
    if plain {
        return measured;
    }
    choice_takers(ops)
}

fn error_fits(d: u8, n: usize, count: usize, last: usize, e: WeylError) -> bool
    ensures { result ≡ error_fits d n count last e }
{
    (e.place <= count) & ((last <= e.place) & ((e.qudit < n) & ((e.p < d) & (e.s < d))))
}

// 6: the first bad error of a book with `count` operations.
pub fn bad_error(errors: &[u8], count: usize, d: u8, n: usize) -> Option<usize>
    ensures { result ≡ bad_error d n count errors.now }
{
    let mut last = 0;
    for k in 0..errors.len() / 5 {
        let e = book_entries::error_at(errors, k);
        if !error_fits(d, n, count, last, e) {
            return Some(k);
        }
        last = e.place;
    }
    None
}

// 7: the smaller count where choices and those that take one differ in number; else the first choice not below d.
pub fn bad_choice(choices: &[u8], taken: usize, d: u8) -> Option<usize>
    ensures { result ≡ bad_choice d taken choices.now }
{
    let count = choices.len();
    if count != taken {
        return Some(count.min(taken));
    }
    choices.iter().position(|choice| *choice >= d)
}

// 5, 6 and 7 of three bodies, or their numbers.
#[tactic(auto, unfolding(crate::specs::Body::read_bodies))]
pub fn read_bodies(
    ops: &[u8],
    errors: &[u8],
    choices: &[u8],
    d: u8,
    n: usize,
) -> Result<Numbers, Refusal>
    ensures answer { answer_of result ≡ read_bodies d n ops.now errors.now choices.now }
    ensures measured { measured_of result ≡ measured_by ops.now (answer_of result) }
{
    let plain = all_plain(ops, d, n);
    if let Some(index) = bad_operation(ops, plain, d, n) {
        return Err(Refusal::Operation(index));
    }
    let operations = ops.len() / 4;
    if let Some(index) = bad_error(errors, operations, d, n) {
        return Err(Refusal::Error(index));
    }
    let measurements = measurements(ops);
    let taken = choices_taken(ops, plain, measurements, d, n);
    if let Some(index) = bad_choice(choices, taken, d) {
        return Err(Refusal::Choice(index));
    }
    Ok(Numbers {
        d,
        n,
        operations,
        errors: errors.len() / 5,
        choices: choices.len(),
        measurements,
    })
}
