// The reader of trays: refusal 11, and the tray's 6.
#![tactic(auto)]

ghost use Rattle.std.specs.Prelude.{◌≡◌, true};
ghost use Rattle.tray.specs.Tray.{table_fits, bad_shot};

use book_body::{bad_error, length_fits};
use book_entries::word;

// Whether the table of contents is right, and the tray exactly as long as it says.
pub fn table_fits(tray: &[u8]) -> bool
    ensures { result ≡ table_fits tray.now }
{
    if tray.len() < 2 {
        return false;
    }
    let shots = word(tray, 0);
    if 4096 < shots {
        return false;
    }
    let table = 2 + 2 * shots;
    if tray.len() < table {
        return false;
    }
    let mut start = table;
    let mut i = 0;
    while i < shots {
        let length = word(tray, 2 + 2 * i);
        if !length_fits(length, 5, 2048) {
            return false;
        }
        start += length;
        i += 1;
    }
    start == tray.len()
}

// 6: the first shot that has a bad error entry, for a book with `count` operations.
pub fn bad_shot(tray: &[u8], count: usize, d: u8, n: usize) -> Option<usize>
    requires { table_fits tray.now ≡ true }
    ensures { result ≡ bad_shot d n count tray.now }
{
    let shots = word(tray, 0);
    let mut start = 2 + 2 * shots;
    let mut i = 0;
    while i < shots {
        let end = start + word(tray, 2 + 2 * i);
        if let Some(_) = bad_error(&tray[start..end], count, d, n) {
            return Some(i);
        }
        start = end;
        i += 1;
    }
    None
}
