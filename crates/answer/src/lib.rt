// What an entry point returns, and why it refuses.
#![tactic(auto)]

ghost use Rattle.std.specs.Prelude.{◌≡◌, Some};
ghost use Rattle.answer.specs.Refusal.{number_of, place_of, words, refusal, counted, tested};

use std::fmt;

// Why a call refuses: the list's numbers 1 to 9 and 11 to 13, each with its place where it has one.
#[derive(Clone, Copy, Debug, PartialEq, Eq)]
pub enum Refusal {
    // 1: not a shot book.
    Header,
    // 2: the dimension is not in the list.
    Dimension,
    // 3: not 1 to 64 qudits.
    Qudits,
    // 4: the first wrong entry of the table of contents; 3 if only the end is wrong.
    Contents(usize),
    // 5: the first bad operation.
    Operation(usize),
    // 6: the first bad error of the book.
    Error(usize),
    // 6: the first shot of the tray that has a bad error.
    Shot(usize),
    // 7: the smaller count where choices and those that take one differ in number; else the first choice not below the dimension.
    Choice(usize),
    // 8: a buffer is shorter than it must be.
    Length,
    // 9: the tableau is not valid, or not one of the book's dimension and qudits.
    Rows,
    // 11: not a tray.
    Table,
    // 12: the first operation that has no inverse.
    Measurement(usize),
    // 13: the qudit looked at, or the operation to go on from, is past the last.
    Number,
}

impl Refusal {
    pub fn number(self) -> usize
        ensures { result ≡ number_of self }
    {
        match self {
            Refusal::Header => 1,
            Refusal::Dimension => 2,
            Refusal::Qudits => 3,
            Refusal::Contents(_) => 4,
            Refusal::Operation(_) => 5,
            Refusal::Error(_) | Refusal::Shot(_) => 6,
            Refusal::Choice(_) => 7,
            Refusal::Length => 8,
            Refusal::Rows => 9,
            Refusal::Table => 11,
            Refusal::Measurement(_) => 12,
            Refusal::Number => 13,
        }
    }

    pub fn place(self) -> usize
        ensures { result ≡ place_of self }
    {
        match self {
            Refusal::Contents(entry) => entry,
            Refusal::Operation(index)
            | Refusal::Error(index)
            | Refusal::Choice(index)
            | Refusal::Measurement(index) => index,
            Refusal::Shot(shot) => shot,
            _ => 0,
        }
    }
}

// The refusal as a line of the program's listing, without its end.
impl fmt::Display for Refusal {
    ghost output = { λ r. Some (words r) };

    fn fmt<W: fmt::Write>(&self, f: &mut fmt::Formatter<W>) -> fmt::Result {
        let number = self.number();
        let place = self.place();
        write!(f, "refused {number} at {place}")
    }
}

// What an entry point returns: 0 and a count (a run's measurements, the bytes that the writer or the mirror wrote, else 0), or a
// refusal's number and its place.
#[repr(C)]
#[derive(Clone, Copy)]
pub struct Answer {
    pub number: usize,
    pub place: usize,
}

impl From<Refusal> for Answer {
    ghost from_gives = { λ r a. a ≡ refusal r };

    fn from(refusal: Refusal) -> Answer {
        refused(refusal.number(), refusal.place())
    }
}

// Of a call that counts: 0 and its count, or its refusal.
impl From<Result<usize, Refusal>> for Answer {
    ghost from_gives = { λ r a. a ≡ counted r };

    fn from(count: Result<usize, Refusal>) -> Answer {
        match count {
            Ok(place) => Answer { number: 0, place },
            Err(refusal) => Answer::from(refusal),
        }
    }
}

// Of a call that has nothing to count.
impl From<Result<(), Refusal>> for Answer {
    ghost from_gives = { λ r a. a ≡ tested r };

    fn from(test: Result<(), Refusal>) -> Answer {
        Answer::from(test.map(|()| 0))
    }
}

pub fn refused(number: usize, place: usize) -> Answer
    ensures { result ≡ record { number = number; place = place } }
{
    Answer { number, place }
}
