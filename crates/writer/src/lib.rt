// The writer: the only book that the reader accepts for d, n and three bodies.
#![tactic(auto)]

ghost use Rattle.std.specs.Prelude.{◌≡◌, ◌+◌, ◌<◌, ◌≤◌, length};
ghost use Rattle.tableau.specs.Tableau.{put};
ghost use Rattle.answer.specs.Refusal.{counted};
ghost use Rattle.book_body.specs.Body.{answer_of};
ghost use Rattle.written_book.specs.Written.{entry_of, head_of, book_of, bad_lengths, read_parts};
ghost use Rattle.written_book.specs.Writer.{overwritten, write_book};

use answer::{Answer, Refusal};
use book_body::{Numbers, length_fits};

// An entry of the table of contents: kind, 0, offset and length, two bytes each, low byte first.
fn entry_of(kind: u8, offset: usize, size: usize) -> [u8; 6]
    requires offset_fits { offset < 65536 }
    requires size_fits { size < 65536 }
    ensures { result ≡ entry_of kind offset size }
{
    let [o0, o1] = (offset as u16).to_le_bytes();
    let [s0, s1] = (size as u16).to_le_bytes();
    [kind, 0, o0, o1, s0, s1]
}

// Header and table of contents, for bodies of a, b and c bytes.
pub fn head_of(d: u8, n: u8, a: usize, b: usize, c: usize) -> [u8; 22]
    requires few_operations { a ≤ 16384 }
    requires few_errors { b ≤ 10240 }
    requires few_choices { c ≤ 4096 }
    ensures { result ≡ head_of d n a b c }
{
    let mut head = [0; 22];
    head[..4].copy_from_slice(&[81, d, n, 3]);
    head[4..10].copy_from_slice(&entry_of(1, 22, a));
    head[10..16].copy_from_slice(&entry_of(2, 22 + a, b));
    head[16..].copy_from_slice(&entry_of(3, 22 + a + b, c));
    head
}

// The bytes become those of `out` from byte `at` on. (`copy_from_slice` would be C's memmove here, which a host would have to bring.)
pub fn lay(out: &mut [u8], at: usize, bytes: &[u8])
    requires { at + length bytes.now ≤ length out.old }
    ensures { out.new ≡ put at (length bytes.now) bytes.now out.old }
{
    tableau::copy(&mut out[at..at + bytes.len()], bytes);
}

// 4: the first body whose length is not whole entries, or too many.
fn bad_lengths(a: usize, b: usize, c: usize) -> Option<usize>
    ensures { result ≡ bad_lengths a b c }
{
    if !length_fits(a, 4, 4096) {
        return Some(0);
    }
    if !length_fits(b, 5, 2048) {
        return Some(1);
    }
    if !length_fits(c, 1, 4096) {
        return Some(2);
    }
    None
}

// What a book is written of: d, n and three bodies.
#[derive(Clone, Copy)]
struct Parts<'a> {
    d: usize,
    n: usize,
    ops: &'a [u8],
    errors: &'a [u8],
    choices: &'a [u8],
}

impl<'a> Parts<'a> {
    // What the reader would tell of the book: its refusal by 2 to 7, or its numbers.
    #[tactic(auto, unfolding(written_book::specs::Written::read_parts))]
    fn read(&self) -> Result<Numbers, Refusal>
        ensures { let p = self.now in answer_of result ≡ read_parts p.d p.n p.ops.now p.errors.now p.choices.now }
    {
        if !modular::is_listed(self.d) {
            return Err(Refusal::Dimension);
        }
        if !tableau::is_sized(self.n) {
            return Err(Refusal::Qudits);
        }
        if let Some(entry) = bad_lengths(self.ops.len(), self.errors.len(), self.choices.len()) {
            return Err(Refusal::Contents(entry));
        }
        book_body::read_bodies(self.ops, self.errors, self.choices, self.d as u8, self.n)
    }

    // The whole book, where there is room for it: head and bodies, one behind the other.
    fn lay_book(&self, out: &mut [u8])
        requires dimension_byte { self.now.d < 256 }
        requires qudits_byte { self.now.n < 256 }
        requires few_operations { length self.now.ops.now ≤ 16384 }
        requires few_errors { length self.now.errors.now ≤ 10240 }
        requires few_choices { length self.now.choices.now ≤ 4096 }
        requires room { let p = self.now in 22 + length p.ops.now + length p.errors.now + length p.choices.now ≤ length out.old }
        ensures { let p = self.now in out.new ≡ overwritten (book_of p.d p.n p.ops.now p.errors.now p.choices.now) out.old }
    {
        let a = self.ops.len();
        let b = self.errors.len();
        let head = head_of(self.d as u8, self.n as u8, a, b, self.choices.len());
        lay(out, 0, &head);
        lay(out, 22, self.ops);
        lay(out, 22 + a, self.errors);
        lay(out, 22 + a + b, self.choices);
    }

    // The number of the book's bytes; or what the reader would refuse, with that place, and after that a short buffer by 8.
    fn write(&self, out: &mut [u8]) -> Result<usize, Refusal>
        ensures { let p = self.now in let a = counted result in
            record { number = a.number; place = a.place; out = out.new } ≡ write_book p.d p.n p.ops.now p.errors.now p.choices.now out.old }
    {
        self.read()?;
        let size = 22 + self.ops.len() + self.errors.len() + self.choices.len();
        if out.len() < size {
            return Err(Refusal::Length);
        }
        self.lay_book(out);
        Ok(size)
    }
}

// Writes the book and returns 0 and the number of its bytes; or refuses what the reader would refuse, with that number and place,
// and after that a short buffer by 8.
pub fn write(
    out: &mut [u8],
    ops: &[u8],
    errors: &[u8],
    choices: &[u8],
    d: usize,
    n: usize,
) -> Answer
    ensures { record { number = result.number; place = result.place; out = out.new }
        ≡ write_book d n ops.now errors.now choices.now out.old }
{
    let parts = Parts {
        d,
        n,
        ops,
        errors,
        choices,
    };
    Answer::from(parts.write(out))
}
