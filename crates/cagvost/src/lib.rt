// What the host software calls: layer, tableau test, look, writer, the two runs, going on with the direct one, the run of a tray and the
// mirror, on numbers and byte slices.
#![tactic(auto)]

ghost use Rattle.std.specs.Prelude.{◌≡◌};
ghost use Rattle.saved_tableau.specs.Layer.{layer_number, layer_leaves};
ghost use Rattle.saved_tableau.specs.Test.{test_number};
ghost use Rattle.look_call.specs.LookBytes.{look_bytes};
ghost use Rattle.written_book.specs.Writer.{write_book};
ghost use Rattle.direct_book.specs.DirectBook.{direct_left, direct_book};
ghost use Rattle.direct_book.specs.GoOn.{go_on_book};
ghost use Rattle.frame_run.specs.FrameBook.{buffers_of, frame_left, frame_book};
ghost use Rattle.shots.specs.Shots.{tray_book};
ghost use Rattle.mirror_book.specs.MirrorBook.{mirror_book};

use answer::Answer;
use direct_book::DirectAnswer;
use frame_run::FrameAnswer;
use look_call::LookAnswer;
use tray_run::TrayAnswer;

// Lays the zero tableau of n qudits of dimension d, or refuses by 2, 3 or 8.
#[unsafe(no_mangle)]
pub extern "C" fn cagvost_layer(t: &mut [u8], d: usize, n: usize) -> Answer
    ensures { (result ≡ record { number = layer_number d n t.old; place = 0 })
        × (t.new ≡ layer_leaves d n t.old) }
{
    tableau_calls::lay(t, d, n)
}

// Tests a tableau for the d and n that it names: 0, or its refusal by 8, 2, 3, 8 or 9.
#[unsafe(no_mangle)]
pub extern "C" fn cagvost_test(t: &[u8]) -> Answer
    ensures { result ≡ record { number = test_number t.now; place = 0 } }
{
    tableau_calls::test(t)
}

// Looks at a qudit of a tableau: what its measurement would be, or its refusal by 8, 2, 3, 8, 9 or 13.
#[unsafe(no_mangle)]
pub extern "C" fn cagvost_look(t: &[u8], qudit: usize) -> LookAnswer
    ensures { result ≡ look_bytes t.now qudit }
{
    look_call::look(t, qudit)
}

// Writes the book of d, n and three bodies, or refuses by 2 to 8.
#[unsafe(no_mangle)]
pub extern "C" fn cagvost_write(
    out: &mut [u8],
    ops: &[u8],
    errors: &[u8],
    choices: &[u8],
    d: usize,
    n: usize,
) -> Answer
    ensures { record { number = result.number; place = result.place; out = out.new }
        ≡ write_book d n ops.now errors.now choices.now out.old }
{
    writer::write(out, ops, errors, choices, d, n)
}

// The direct run of a book from the lent tableau.
#[unsafe(no_mangle)]
pub extern "C" fn cagvost_direct_run(book: &[u8], t: &mut [u8], results: &mut [u8]) -> DirectAnswer
    ensures { direct_left result t.new results.new
        ≡ direct_book book.now t.old results.old }
{
    direct_run::direct_run(book, t, results)
}

// The direct run of a book that goes on from a number, the first time from 0, for a count of operations.
#[unsafe(no_mangle)]
pub extern "C" fn cagvost_go_on(
    book: &[u8],
    t: &mut [u8],
    results: &mut [u8],
    from: usize,
    count: usize,
) -> DirectAnswer
    ensures { direct_left result t.new results.new
        ≡ go_on_book book.now from count t.old results.old }
{
    direct_run::go_on(book, t, results, from, count)
}

// The frame run of a book from the lent tableau.
#[unsafe(no_mangle)]
pub extern "C" fn cagvost_frame_run(
    book: &[u8],
    t: &mut [u8],
    results: &mut [u8],
    shifts: &mut [u8],
    frame: &mut [u8],
) -> FrameAnswer
    ensures { frame_left result (buffers_of t.new results.new shifts.new frame.new)
        ≡ frame_book book.now (buffers_of t.old results.old shifts.old frame.old) }
{
    frame_run::frame_run(book, t, results, shifts, frame)
}

// The shots of a tray over a book's circuit, each from the lent tableau.
#[unsafe(no_mangle)]
pub extern "C" fn cagvost_tray(book: &[u8], tray: &[u8], t: &[u8], out: &mut [u8]) -> TrayAnswer
    ensures { record { number = result.number; place = result.place; shifted = result.shifted; out = out.new }
        ≡ tray_book book.now tray.now t.now out.old }
{
    tray_run::tray_run(book, tray, t, out)
}

// Writes the mirror of a book, or refuses by 1 to 7, 12 or 8.
#[unsafe(no_mangle)]
pub extern "C" fn cagvost_mirror(book: &[u8], out: &mut [u8]) -> Answer
    ensures { record { number = result.number; place = result.place; out = out.new }
        ≡ mirror_book book.now out.old }
{
    mirror_writer::mirror(book, out)
}
