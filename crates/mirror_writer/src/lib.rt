// The mirror of a book: each entry, from the last to the first, undone and written.
#![tactic(auto)]

ghost use Rattle.std.specs.Prelude.{◌≡◌, true, [], ◌+◌, ◌*◌, ◌/◌, ◌<◌, ◌≤◌, length, get_or};
ghost use Rattle.modular.specs.Dimension.{listed};
ghost use Rattle.tableau.specs.Tableau.{put};
ghost use Rattle.answer.specs.Refusal.{counted};
ghost use Rattle.circuit.specs.Circuit.{kind, choice_count};
ghost use Rattle.book_entries.specs.Entry.{times_in, times_byte, bytes_of};
ghost use Rattle.book.specs.Decoded.{operations_of};
ghost use Rattle.operation_codes.specs.Allowed.{AllAllowed, AllNamed};
ghost use Rattle.written_book.specs.Written.{book_of};
ghost use Rattle.written_book.specs.Writer.{overwritten};
ghost use Rattle.mirror_book.specs.Mirrored.{mirror_at, mirrored};
ghost use Rattle.mirror_book.specs.MirrorBook.{bytes_of_all, is_gate, first_measurement, mirror_book};
ghost use Rattle.mirror_writer.specs.LastByte.{orders_of, inverses_of, undone_byte};
ghost use Rattle.mirror_writer.specs.Ready.{Entries};

use answer::{Answer, Refusal};
use operation::Operation;

fn is_gate(operation: Operation) -> bool
    ensures { result ≡ is_gate (kind operation) }
{
    !matches!(
        operation,
        Operation::Measure { .. } | Operation::Reset { .. } | Operation::Correct { .. }
    )
}

// 12: the first operation that is no gate.
fn first_measurement(ops: &[u8], d: u8, n: usize) -> Option<usize>
    requires { AllAllowed d n (operations_of d n ops.now) }
    ensures { result ≡ first_measurement (operations_of d n ops.now) }
{
    for k in 0..ops.len() / 4 {
        if !is_gate(operation_codes::operation_of(ops, k, d, n)) {
            return Some(k);
        }
    }
    None
}

// The same for a book whose choices the reader has counted: where none is taken, no measurement can be named either, and nothing is
// searched.
fn measurement_in(ops: &[u8], choices: usize, d: u8, n: usize) -> Option<usize>
    requires allowed { AllAllowed d n (operations_of d n ops.now) }
    requires names { AllNamed (operations_of d n ops.now) }
    requires counted { choices ≡ choice_count (operations_of d n ops.now) }
    ensures { result ≡ first_measurement (operations_of d n ops.now) }
{
    if choices == 0 {
        return None;
    }
    first_measurement(ops, d, n)
}

// How often a gate is applied, as it is written: once is written as 0.
fn times_byte(k: u8) -> u8
    ensures { result ≡ times_byte k }
{
    if k == 1 { 0 } else { k }
}

// For dimension d the inverses of the numbers below 32, and by code how many applications of a gate do nothing.
#[derive(Clone, Copy)]
struct Undo {
    d: u8,
    inverses: [u8; 32],
    orders: [u8; 7],
    ghost inverse_table: { inverses ≡ inverses_of d },
    ghost order_table: { orders ≡ orders_of d },
}

impl Undo {
    fn new(d: u8) -> Undo
        requires { listed d ≡ true }
        ensures { result.d ≡ d }
    {
        let mut inverses = [0; 32];
        for u in 0..32 {
            inverses[u] = inverse::inverse(d, u as u8);
        }
        let orders = [4, d, d, d, 2, d, 2];
        Undo {
            d,
            inverses,
            orders,
        }
    }

    // The last byte of the entry that undoes one with this code and last byte. A processor predicts a jump by the code badly, so both
    // look-ups are made, whatever the code is.
    fn last_byte(&self, code: u8, last: u8) -> u8
        requires gate { code ≤ 6 }
        requires small { last < 32 }
        requires within { times_in last ≤ get_or (orders_of self.now.d) code 0 }
        ensures { result ≡ undone_byte self.now.d code last }
    {
        let factor = self.inverses[usize::from(last)];
        let missing = self.orders[usize::from(code)] - book_entries::times_in(last);
        let times = times_byte(missing);
        if code == 5 { factor } else { times }
    }
}

// Entry k of the mirror: entry N − 1 − k of N, undone.
fn mirror_entry(body: &mut [u8], ops: &[u8], k: usize, undo: &Undo, n: usize)
    requires entries { Entries undo.now.d n ops.now }
    requires inside { k < length ops.now / 4 }
    requires room { length body.old ≡ length ops.now }
    ensures { body.new
        ≡ put (4 * k) 4 (bytes_of (mirror_at undo.now.d (operations_of undo.now.d n ops.now) k)) body.old }
{
    let from = 4 * (ops.len() / 4 - 1 - k);
    let at = 4 * k;
    let code = ops[from];
    let last = undo.last_byte(code, ops[from + 3]);
    body[at] = code;
    body[at + 1] = ops[from + 1];
    body[at + 2] = ops[from + 2];
    body[at + 3] = last;
}

// The mirror's body of operations, by tables that are made once.
fn mirror_body(body: &mut [u8], ops: &[u8], d: u8, n: usize)
    requires entries { Entries d n ops.now }
    requires room { length body.old ≡ length ops.now }
    ensures { body.new ≡ bytes_of_all (mirrored d (operations_of d n ops.now)) }
{
    let undo = Undo::new(d);
    for k in 0..ops.len() / 4 {
        mirror_entry(body, ops, k, &undo, n);
    }
}

// The mirror book, where there is room for it: its head and its one body.
fn write_mirror(out: &mut [u8], ops: &[u8], d: u8, n: usize)
    requires entries { Entries d n ops.now }
    requires few { length ops.now ≤ 16384 }
    requires qudits { n ≤ 64 }
    requires room { 22 + length ops.now ≤ length out.old }
    ensures { out.new
        ≡ overwritten (book_of d n (bytes_of_all (mirrored d (operations_of d n ops.now))) [] []) out.old }
{
    let size = ops.len();
    let head = writer::head_of(d, n as u8, size, 0, 0);
    writer::lay(out, 0, &head);
    mirror_body(&mut out[22..22 + size], ops, d, n);
}

// Writes the mirror book: the number of its bytes; or a refusal by 1 to 7 as the reader has it, by 12 with the index of the first
// measurement, and after that a short buffer by 8.
#[tactic(auto, unfolding(mirror_book::specs::MirrorBook::mirror_by_answer, mirror_book::specs::MirrorBook::mirror_book))]
fn mirror_or_refuse(book: &[u8], out: &mut [u8]) -> Result<usize, Refusal>
    ensures { let a = counted result in
        record { number = a.number; place = a.place; out = out.new } ≡ mirror_book book.now out.old }
{
    let numbers = book::read(book)?;
    let ops = book::operations(book);
    if let Some(index) = measurement_in(ops, numbers.choices, numbers.d, numbers.n) {
        return Err(Refusal::Measurement(index));
    }
    let size = 22 + ops.len();
    if out.len() < size {
        return Err(Refusal::Length);
    }
    write_mirror(out, ops, numbers.d, numbers.n);
    Ok(size)
}

// Returns 0 and the number of bytes written, or a refusal.
pub fn mirror(book: &[u8], out: &mut [u8]) -> Answer
    ensures { record { number = result.number; place = result.place; out = out.new }
        ≡ mirror_book book.now out.old }
{
    Answer::from(mirror_or_refuse(book, out))
}
