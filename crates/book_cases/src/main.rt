// Reads the example book and books that differ from it, and writes of each the first line of its listing, or its refusal.
#![tactic(auto)]

ghost use Rattle.std.specs.Prelude.{◌<◌};

use book_body::Numbers;

// d 3, n 2; Fourier on 0, SUM from 0 to 1, a measurement of each; an error at place 2; two choices.
const EXAMPLE: [u8; 45] =
    *b"\x51\x03\x02\x03\x01\x00\x16\x00\x10\x00\x02\x00\x26\x00\x05\x00\x03\x00\x2B\x00\x02\x00\x00\x00\x00\x00\x02\x00\x01\x00\x06\x00\x00\x00\x06\x01\x00\x00\x02\x00\x01\x01\x00\x02\x00";

// Every piece is written by itself: one that cannot be written is left out, and the next is still tried.
fn write(rt: &impl Print, words: &[u8], value: usize) {
    let _ = rt.write_all(words);
    let mut digits = itoa::Buffer::new();
    let _ = rt.write_all(digits.format(value).as_bytes());
}

fn report(rt: &impl Print, book: &[u8]) {
    match book::read(book) {
        Ok(numbers) => {
            let Numbers {
                d,
                n,
                operations,
                errors,
                ..
            } = numbers;
            write(rt, b"d ", usize::from(d));
            write(rt, b" n ", n);
            write(rt, b" operations ", operations);
            write(rt, b" errors ", errors);
        }
        Err(refusal) => {
            write(rt, b"refused ", refusal.number());
            write(rt, b" at ", refusal.place());
        }
    }
    let _ = rt.write_all(b"\n");
}

// The example with another byte at `at`.
fn changed(rt: &impl Print, at: usize, byte: u8)
    requires { at < 45 }
{
    let mut book = EXAMPLE;
    book[at] = byte;
    report(rt, &book)
}

// Dimensions and numbers of qudits, allowed and not, and headers.
fn headers(rt: &impl Print) {
    changed(rt, 1, 31);
    changed(rt, 1, 9);
    changed(rt, 1, 37);
    changed(rt, 2, 64);
    changed(rt, 2, 0);
    changed(rt, 2, 65);
    report(rt, b"");
    changed(rt, 0, 80);
    changed(rt, 3, 2);
}

// Kind, zero byte, offset and length; then the end alone.
fn contents(rt: &impl Print) {
    changed(rt, 4, 2);
    changed(rt, 11, 1);
    changed(rt, 18, 44);
    changed(rt, 8, 15);
    changed(rt, 20, 3);
}

fn bodies(rt: &impl Print) {
    // SUM of a qudit with itself; no such code
    changed(rt, 28, 0);
    changed(rt, 34, 9);
    // a place too high; a place that falls, in a book of two errors
    changed(rt, 38, 5);
    report(
        rt,
        b"\x51\x03\x01\x03\x01\x00\x16\x00\x04\x00\x02\x00\x1A\x00\x0A\x00\x03\x00\x24\x00\x00\x00\x00\x00\x00\x00\x01\x00\x00\x01\x00\x00\x00\x00\x01\x00",
    );
    // one measurement for two choices; a choice of d
    changed(rt, 34, 0);
    changed(rt, 43, 3);
}

fn main(rt: HostRuntime) {
    report(&rt, &EXAMPLE);
    // no operations and no errors
    report(
        &rt,
        b"\x51\x03\x02\x03\x01\x00\x16\x00\x00\x00\x02\x00\x16\x00\x00\x00\x03\x00\x16\x00\x00\x00",
    );
    headers(&rt);
    contents(&rt);
    bodies(&rt);
}
