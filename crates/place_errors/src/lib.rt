// The errors of one place, among those of a body of errors whose places never fall.
#![tactic(auto)]

ghost use Rattle.std.specs.Prelude.{◌+◌, ◌≤◌};
ghost use Rattle.book.specs.Decoded.{errors_of};
ghost use Rattle.runs.specs.Reached.{Reached, Passing};
ghost use Rattle.place_errors.specs.Places.{NeverFall, OfPlace};

// Where the errors of place k end, of which entry j is the first that is not taken yet: the first entry of a later place.
pub fn end_of_place(errors: &[u8], j: usize, k: usize) -> usize
    requires passing { Passing (errors_of errors.now) j k }
    requires in_order { NeverFall (errors_of errors.now) }
    ensures from { j ≤ result }
    ensures of_place { OfPlace (errors_of errors.now) k j result }
    ensures reached { Reached (errors_of errors.now) result (k + 1) }
{
    let count = errors.len() / 5;
    for i in j..count {
        if book_entries::word(errors, 5 * i) != k {
            return i;
        }
    }
    count
}
