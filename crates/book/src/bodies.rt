// What an accepted book holds, as a run is handed it.

ghost use Rattle.std.specs.Prelude.{◌≡◌, ◌*◌, ◌<◌, ◌≤◌, length, slice_index};
ghost use Rattle.circuit.specs.Circuit.{err_at};
ghost use Rattle.book_body.specs.Body.{accepted};
ghost use Rattle.book.specs.Book.{read_book, body_of};
ghost use Rattle.book.specs.Circuits.{operation_list, error_list, AcceptedCircuit};

use book_body::Numbers;
use operation::WeylError;

// A circuit of n qudits of dimension d: operations, the errors between them and the choices of its measurements, as three bodies of a shot
// book. (No ghost field says that the book was accepted, since most functions ask for less than that.)
#[derive(Clone, Copy)]
pub struct Circuit<'a> {
    pub ops: &'a [u8],
    pub errors: &'a [u8],
    pub choices: &'a [u8],
    pub d: u8,
    pub n: usize,
}

impl<'a> Circuit<'a> {
    // The circuit of a book whose numbers the reader has told.
    pub fn of(book: &'a [u8], numbers: Numbers) -> Circuit<'a>
        requires { read_book book.now
            ≡ accepted numbers.d numbers.n numbers.operations numbers.errors numbers.choices }
        ensures ops { result.ops.now ≡ body_of book.now 1 }
        ensures errors { result.errors.now ≡ body_of book.now 2 }
        ensures choices { result.choices.now ≡ body_of book.now 3 }
        ensures d { result.d ≡ numbers.d }
        ensures n { result.n ≡ numbers.n }
        ensures accepted { AcceptedCircuit result }
        ensures few { length result.choices.now ≤ 4096 }
    {
        Circuit {
            ops: crate::operations(book),
            errors: crate::errors(book),
            choices: crate::choices(book),
            d: numbers.d,
            n: numbers.n,
        }
    }

    // How many operations it has.
    #[tactic(auto, using(crate::proofs::Lists::listed_entries))]
    pub fn count(&self) -> usize
        ensures { result ≡ length (operation_list self.now) }
    {
        self.ops.len() / 4
    }

    // The code of operation k.
    #[tactic(auto, using(crate::proofs::Lists::listed_entries))]
    pub fn code(&self, k: usize) -> u8
        requires { k < length (operation_list self.now) }
        ensures { result ≡ slice_index self.now.ops.now (4 * k) }
    {
        self.ops[4 * k]
    }

    // How many errors it has.
    #[tactic(auto, using(crate::proofs::Lists::listed_entries))]
    pub fn error_count(&self) -> usize
        ensures { result ≡ length (error_list self.now) }
    {
        self.errors.len() / 5
    }

    #[tactic(auto, using(crate::proofs::Lists::listed_entries))]
    pub fn error(&self, j: usize) -> WeylError
        requires { j < length (error_list self.now) }
        ensures { result ≡ err_at (error_list self.now) j }
    {
        book_entries::error_at(self.errors, j)
    }
}
