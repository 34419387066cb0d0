// Reads one shot book from standard input and prints its frame run from the zero tableau.
#![tactic(auto)]

ghost use Rattle.std.specs.Prelude.{◌≡◌, ◌+◌, ◌*◌, ◌<◌, ◌≤◌, length};

use answer::Refusal;
use book_body::Numbers;
use std::io::Read;

// What is listed of a book that ran: its numbers and what the run left.
#[derive(Drop)]
struct Listing {
    numbers: Numbers,
    results: [u8; 8192],
    shifts: [u8; 128],
    verdict: usize,
}

// The frame run from the zero tableau, or the refusal.
fn run(book: &[u8]) -> Result<Listing, Refusal> {
    let numbers = book::read(book)?;
    let mut t = [0; 16514];
    let mut results = [0; 8192];
    let mut shifts = [0; 128];
    let mut frame = [0; 128];
    tableau_calls::lay(&mut t, usize::from(numbers.d), numbers.n);
    let answer = frame_run::run_or_refuse(book, &mut t, &mut results, &mut shifts, &mut frame)?;
    Ok(Listing {
        numbers,
        results,
        shifts,
        verdict: answer.verdict,
    })
}

// Every piece is written by itself: one that cannot be written is left out, and the next is still tried.
fn write_words(rt: &impl Print, words: &[u8]) {
    let _ = rt.write_all(words);
}

fn write(rt: &impl Print, words: &[u8], value: usize) {
    write_words(rt, words);
    let mut digits = itoa::Buffer::new();
    write_words(rt, digits.format(value).as_bytes());
}

fn refuse(rt: &impl Print, refusal: Refusal) {
    write(rt, b"refused ", refusal.number());
    write(rt, b" at ", refusal.place());
    write_words(rt, b"\n");
}

// A line for each operation of code 6: its number, its qudit, its kind and its reported result.
fn print_measurements(rt: &impl Print, ops: &[u8], results: &[u8]) {
    let measured = ops.chunks_exact(4).filter(|entry| entry[0] == 6);
    let qudits = measured.map(|entry| entry[1]);
    for (j, (qudit, result)) in qudits.zip(results.chunks_exact(2)).enumerate() {
        write(rt, b"m ", j);
        write(rt, b" qudit ", usize::from(qudit));
        let outcome = usize::from(result[0]);
        if result[1] == 0 {
            write(rt, b" certain ", outcome);
        } else {
            write(rt, b" free ", outcome);
        }
        write_words(rt, b"\n");
    }
}

// Each row's shift, in row order.
fn print_shifts(rt: &impl Print, shifts: &[u8]) {
    write_words(rt, b"shift");
    for shift in shifts {
        write(rt, b" ", usize::from(*shift));
    }
    write_words(rt, b"\n");
}

impl Listing {
    fn print(&self, rt: &impl Print, ops: &[u8]) {
        let Numbers {
            d,
            n,
            operations,
            errors,
            ..
        } = self.numbers;
        write(rt, b"d ", usize::from(d));
        write(rt, b" n ", n);
        write(rt, b" operations ", operations);
        write(rt, b" errors ", errors);
        write_words(rt, b"\n");
        print_measurements(rt, ops, &self.results);
        // always so for an accepted book; the test spares a proof of it
        if n <= 64 {
            print_shifts(rt, &self.shifts[..2 * n]);
        }
        if self.verdict == 0 {
            write_words(rt, b"verdict clean\n");
        } else {
            write_words(rt, b"verdict shifted\n");
        }
    }
}

fn main(rt: HostRuntime) {
    let mut buffer = [0; 30743];
    let length = read_full(&mut rt.stdin(), &mut buffer);
    let book = &buffer[..length];
    match run(book) {
        Ok(listing) => listing.print(&rt, book::body(book, 1)),
        Err(refusal) => refuse(&rt, refusal),
    }
}

// Reads until the buffer is full, the input ends or a read fails: how many bytes there are.
fn read_full(input: &mut impl Read, buf: &mut [u8]) -> usize
    ensures { result ≤ length buf.new }
{
    let mut done = 0;
    for _ in 0..buf.len() {
        if done == buf.len() {
            break;
        }
        match input.read(&mut buf[done..]) {
            Ok(0) | Err(_) => break,
            Ok(more) => done += more,
        }
    }
    done
}
