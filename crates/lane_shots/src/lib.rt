// A block of up to 256 shots, one in each lane: their bytes and their verdicts, from the clean run.
#![tactic(auto)]

ghost use Rattle.std.specs.Prelude.{◌≡◌};
ghost use Rattle.tile.specs.Tile.{ShotsRoom};
ghost use Rattle.block.specs.Clean.{CleanShots};
ghost use Rattle.lane_shots.specs.LaneShots.{blank, AllQueued, LaneRows, shifted_in_lanes};

use block::{Block, CleanRun};
use calendar::{LaneErrors, Queue};
use tile::{HeldResults, Tile};

// Every lane stands in the list of place 0.
fn enqueue_all(queue: &mut Queue)
    requires empty { queue.old.counts ≡ blank 256 }
    requires none_taken { queue.old.cursors ≡ blank 256 }
    ensures { AllQueued queue.new }
{
    for l in 0..256 {
        queue.slots[l] = l as u8;
    }
    queue.counts[0] = 256;
}

// The bytes of the first `used` shots, with room of its own for the frames, their queue and their results. How many shots are shifted is
// returned.
pub fn fill(out: &mut [u8], clean: &CleanRun, errors: &LaneErrors, used: usize) -> usize
    requires dimension { errors.now.d ≡ clean.now.m.d }
    requires qudits { errors.now.n ≡ clean.now.n }
    requires clean_run { CleanShots clean.now.m.d clean.now.n clean.now.ops.now clean.now.results.now clean.now.t.now clean.now.w }
    requires shots { ShotsRoom clean.now.w used out.old }
    ensures rows { LaneRows clean.now errors.now used out.old out.new }
    ensures shifted { result ≡ shifted_in_lanes clean.now errors.now used }
{
    let mut block = Block {
        lanes: [0; 32768],
        used,
        queue: Queue {
            slots: [0; 65536],
            counts: [0; 256],
            cursors: [0; 256],
        },
        held: HeldResults {
            tile: Tile {
                cells: [0; 4096],
                spare: [0; 4096],
            },
            marks: [0; 16],
            first: 0,
            count: 0,
        },
    };
    enqueue_all(&mut block.queue);
    block.run(out, clean, errors);
    verdicts::write_verdicts(out, &block.lanes, clean.t, clean.w, used, clean.m, clean.n)
}
