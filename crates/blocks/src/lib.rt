// The shots of a tray, block by block: up to 256 shots that have errors, and those without among them.
#![tactic(auto)]

mod tray_shots;

ghost use Rattle.std.specs.Prelude.{◌≡◌, ◌+◌, ◌-◌, ◌*◌, ◌<◌, ◌≤◌, length, replicate};
ghost use Rattle.tray.specs.Tray.{shots_in, start_of};
ghost use Rattle.blocks.specs.Blocks.{Assigned, InTray, BlockShots};
ghost use Rattle.blocks.specs.Filled.{TrayFilled, shifted_in_tray};

use book_entries::word;
use calendar::{LaneErrors, Span};
pub use tray_shots::TrayShots;

// A shot, and where its errors begin in the tray. The number of shots stands for the end.
#[derive(Clone, Copy)]
pub struct Cursor {
    pub shot: usize,
    pub start: usize,
}

// How many shots of a block have errors, and where the block ends.
#[derive(Clone, Copy)]
pub struct Extent {
    pub noisy: usize,
    pub end: Cursor,
}

// Assigns a lane to each shot that has errors, until 256 lanes are taken or no shot is left. A shot without errors is written to the next
// lane too, and overwritten by the next shot; if none follows, that lane has no errors.
fn assign(spans: &mut [Span; 256], tray: &[u8], from: Cursor) -> Extent
    requires blank { spans.old ≡ replicate 256 (record { start = 0; size = 0 }) }
    requires lies { InTray tray.now }
    requires shot_in { from.shot < shots_in tray.now }
    requires begins { from.start ≡ start_of tray.now from.shot }
    ensures assigned { Assigned tray.now from.shot (result.end.shot - from.shot) spans.new }
    ensures some { from.shot < result.end.shot }
    ensures block { BlockShots tray.now from.shot (result.end.shot - from.shot) result.noisy }
    ensures begins { result.end.start ≡ start_of tray.now result.end.shot }
{
    let shots = word(tray, 0);
    let mut start = from.start;
    let mut noisy = 0;
    for shot in from.shot..shots {
        if noisy == 256 {
            return Extent {
                noisy,
                end: Cursor { shot, start },
            };
        }
        let size = word(tray, 2 + 2 * shot);
        spans[noisy] = Span { start, size };
        noisy += usize::from(size != 0);
        start += size;
    }
    Extent {
        noisy,
        end: Cursor { shot: shots, start },
    }
}

// Where a block ends, and how many of its shots are shifted.
#[derive(Clone, Copy)]
pub struct Advance {
    pub end: Cursor,
    pub shifted: usize,
}

impl TrayShots<'_> {
    // Fills the bytes of the shots of one block.
    fn fill_block(&self, out: &mut [u8], from: Cursor) -> Advance
        requires shot_in { from.shot < shots_in self.now.tray.now }
        requires begins { from.start ≡ start_of self.now.tray.now from.shot }
        requires room { shots_in self.now.tray.now * self.now.clean.w ≤ length out.old }
        ensures filled { TrayFilled self.now from.shot result.end.shot out.old out.new }
        ensures some { from.shot < result.end.shot }
        ensures inside { result.end.shot ≤ shots_in self.now.tray.now }
        ensures begins { result.end.start ≡ start_of self.now.tray.now result.end.shot }
        ensures shifted { shifted_in_tray self.now result.end.shot ≡ shifted_in_tray self.now from.shot + result.shifted }
    {
        let mut spans = [Span { start: 0, size: 0 }; 256];
        let block = assign(&mut spans, self.tray, from);
        let errors = LaneErrors {
            tray: self.tray,
            spans,
            d: self.clean.m.d,
            n: self.clean.n,
        };
        let w = self.clean.w;
        let s = from.shot * w;
        let e = block.end.shot * w;
        let rows = &mut out[s..e];
        let shifted = lane_shots::fill(rows, &self.clean, &errors, block.noisy);
        let count = block.end.shot - from.shot;
        expand::expand(
            rows,
            self.tray,
            self.clean.results,
            w,
            from.shot,
            count,
            block.noisy,
        );
        Advance {
            end: block.end,
            shifted,
        }
    }

    // Fills the bytes of every shot, block by block. How many are shifted is returned.
    pub fn fill(&self, out: &mut [u8]) -> usize
        requires { shots_in self.now.tray.now * self.now.clean.w ≤ length out.old }
        ensures filled { TrayFilled self.now 0 (shots_in self.now.tray.now) out.old out.new }
        ensures shifted { result ≡ shifted_in_tray self.now (shots_in self.now.tray.now) }
    {
        let shots = word(self.tray, 0);
        let mut at = Cursor {
            shot: 0,
            start: 2 + 2 * shots,
        };
        let mut shifted = 0;
        // How many shots a block has is known when it is filled.
        while at.shot < shots {
            let block = self.fill_block(out, at);
            at = block.end;
            shifted += block.shifted;
        }
        shifted
    }
}
