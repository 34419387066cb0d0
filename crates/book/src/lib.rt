// The reader of shot books: a book's refusal by 1 to 7, or its numbers; and its bodies by kind.
#![tactic(auto)]

mod bodies;

ghost use Rattle.std.specs.Prelude.{◌≡◌, ◌+◌, ◌*◌, ◌<◌, ◌≤◌, length};
ghost use Rattle.book_body.specs.Body.{answer_of, measured_of, measured_by};
ghost use Rattle.book.specs.Book.{header_fits, operations_entry, errors_entry, choices_entry, end_of, part_of, entry_fits, bad_contents, read_book, body_of};

use answer::Refusal;
pub use bodies::Circuit;
use book_body::{Numbers, length_fits, read_bodies};
use book_entries::word;

// The byte at which each entry of the table of contents begins.
const OPERATIONS_ENTRY: usize = 4;

const ERRORS_ENTRY: usize = 10;

const CHOICES_ENTRY: usize = 16;

fn header_fits(book: &[u8]) -> bool
    ensures { result ≡ header_fits book.now }
{
    if book.len() < 22 {
        return false;
    }
    (book[0] == 81) & (book[3] == 3)
}

fn end_of(book: &[u8], at: usize) -> usize
    requires { (at + 6 ≤ 22)
        × (22 ≤ length book.now) }
    ensures { (result ≡ end_of book.now at)
        × (result < 131072) }
{
    word(book, at + 2) + word(book, at + 4)
}

fn entry_fits(book: &[u8], at: usize, kind: u8, start: usize, size: usize, most: usize) -> bool
    requires { (at + 6 ≤ 22)
        × (22 ≤ length book.now)
        × (0 < size)
        × (size * most < 65536) }
    ensures { result ≡ entry_fits book.now at kind start size most }
{
    let offset = word(book, at + 2);
    let length = word(book, at + 4);
    (book[at] == kind)
        & ((book[at + 1] == 0) & ((offset == start) & length_fits(length, size, most)))
}

// 4: the first wrong entry of the table of contents; 3 if only the end is wrong.
fn bad_contents(book: &[u8]) -> Option<usize>
    requires { 22 ≤ length book.now }
    ensures { result ≡ bad_contents book.now }
{
    if !entry_fits(book, OPERATIONS_ENTRY, 1, 22, 4, 4096) {
        return Some(0);
    }
    if !entry_fits(
        book,
        ERRORS_ENTRY,
        2,
        end_of(book, OPERATIONS_ENTRY),
        5,
        2048,
    ) {
        return Some(1);
    }
    if !entry_fits(book, CHOICES_ENTRY, 3, end_of(book, ERRORS_ENTRY), 1, 4096) {
        return Some(2);
    }
    if end_of(book, CHOICES_ENTRY) != book.len() {
        return Some(3);
    }
    None
}

// The body whose contents entry begins at byte `at`.
fn part_of(book: &[u8], at: usize) -> &[u8]
    requires { (at + 6 ≤ 22)
        × (22 ≤ length book.now)
        × (end_of book.now at ≤ length book.now) }
    ensures { result.now ≡ part_of book.now at }
{
    let start = word(book, at + 2);
    let end = start + word(book, at + 4);
    &book[start..end]
}

pub fn operations(book: &[u8]) -> &[u8]
    requires { (22 ≤ length book.now)
        × (end_of book.now operations_entry ≤ length book.now) }
    ensures { result.now ≡ part_of book.now operations_entry }
{
    part_of(book, OPERATIONS_ENTRY)
}

pub fn errors(book: &[u8]) -> &[u8]
    requires { (22 ≤ length book.now)
        × (end_of book.now errors_entry ≤ length book.now) }
    ensures { result.now ≡ part_of book.now errors_entry }
{
    part_of(book, ERRORS_ENTRY)
}

pub fn choices(book: &[u8]) -> &[u8]
    requires { (22 ≤ length book.now)
        × (end_of book.now choices_entry ≤ length book.now) }
    ensures { result.now ≡ part_of book.now choices_entry }
{
    part_of(book, CHOICES_ENTRY)
}

// A book's refusal by 1 to 7, or its numbers.
#[tactic(auto, unfolding(crate::specs::Book::read_book))]
pub fn read(book: &[u8]) -> Result<Numbers, Refusal>
    ensures answer { answer_of result ≡ read_book book.now }
    ensures measured { measured_of result
        ≡ measured_by (part_of book.now operations_entry) (answer_of result) }
{
    if !header_fits(book) {
        return Err(Refusal::Header);
    }
    let d = book[1];
    let n = usize::from(book[2]);
    if !modular::is_listed(usize::from(d)) {
        return Err(Refusal::Dimension);
    }
    if !tableau::is_sized(n) {
        return Err(Refusal::Qudits);
    }
    if let Some(entry) = bad_contents(book) {
        return Err(Refusal::Contents(entry));
    }
    read_bodies(operations(book), errors(book), choices(book), d, n)
}

// The body of a kind, as a part of the book; of a refused book or another kind, a part of length 0.
#[tactic(auto, unfolding(crate::specs::Book::body_of))]
pub fn body(book: &[u8], kind: usize) -> &[u8]
    ensures { result.now ≡ body_of book.now kind }
{
    if read(book).is_err() {
        return &book[..0];
    }
    match kind {
        1 => operations(book),
        2 => errors(book),
        3 => choices(book),
        _ => &book[..0],
    }
}
