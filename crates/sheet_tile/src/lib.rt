// Weights leave the lanes in tiles of 16 measurements and go to the rows of the sheet. The loops over bytes vectorise.
#![tactic(auto)]

ghost use Rattle.std.specs.Prelude.{◌≡◌, ◌+◌, ◌*◌, ◌<◌, ◌≤◌, length};
ghost use Rattle.tile.specs.Tile.{RowsChanged};
ghost use Rattle.sheet_tile.specs.Weave.{in_tile, by_lanes, Woven, Cleared, RowsRoom};

use tile::Tile;

// Writes t p weights of lane 2l and t s weights of lane 2l + 1 to row l, in turn, from measurement j on.
fn weave(row: &mut [u8], transposed: &[u8], l: usize, j: usize, t: usize)
    requires cells_room { length transposed.now ≡ 4096 }
    requires row_in { l < 128 }
    requires few { t ≤ 16 }
    requires wide { 2 * (j + t) ≤ length row.old }
    ensures { Woven (by_lanes transposed.now) j t l row.old row.new }
{
    let a = 32 * l;
    let c = 32 * l + 16;
    let b = 2 * j;
    for i in 0..t {
        row[b + 2 * i] = transposed[a + i];
        row[b + 2 * i + 1] = transposed[c + i];
    }
}

// Writes the t weights of the tile to the first `used` rows, from measurement j on. The tile is used up.
pub fn flush(out: &mut [u8], tile: &mut Tile, j: usize, t: usize, w: usize, used: usize)
    requires few { t ≤ 16 }
    requires wide { 2 * (j + t) ≤ w }
    requires rows { RowsRoom w used out.old }
    ensures { RowsChanged (Woven (in_tile tile.old.cells) j t) w used out.old out.new }
{
    tile.transpose();
    let cells = &tile.cells;
    tile::change_rows(out, w, used, |row, l| weave(row, cells, l, j, t));
}

// The weights of the first `used` rows for the first j measurements become 0.
pub fn clear_rows(out: &mut [u8], j: usize, w: usize, used: usize)
    requires wide { 2 * j ≤ w }
    requires rows { RowsRoom w used out.old }
    ensures { RowsChanged (Cleared j) w used out.old out.new }
{
    let count = 2 * j;
    tile::change_rows(out, w, used, |row, _| row[..count].fill(0));
}
