// A tray of shots: one clean run on a copy of the tableau, then the shots in blocks.
#![tactic(auto)]

ghost use Rattle.std.specs.Prelude.{◌≡◌, ◌+◌, ◌*◌, ◌≤◌, length};
ghost use Rattle.circuit.specs.Circuit.{measurement_count};
ghost use Rattle.book.specs.Decoded.{operations_of};
ghost use Rattle.tray.specs.Tray.{shots_in};
ghost use Rattle.shots.specs.Shots.{filled_by, shifted_among};
ghost use Rattle.lane_shots.specs.LaneShots.{blank};
ghost use Rattle.shots_run.specs.Ready.{Ready};
ghost use Rattle.shots_run.specs.CopyRun.{AllShotsFilled, all_shots_shifted};

use block::CleanRun;
use blocks::TrayShots;
use book::Circuit;
use modular::Modulus;

// The clean run in lent buffers, which begin as a copy's room and as no results; then every shot. How many are shifted is returned.
fn run_in<'a>(
    out: &mut [u8],
    copy: &'a mut [u8],
    results: &'a mut [u8],
    tray: &'a [u8],
    t: &[u8],
    ops: &'a [u8],
    choices: &[u8],
    d: u8,
    n: usize,
) -> usize
    requires { Ready d n tray.now t.now ops.now choices.now
        × (length copy.old ≡ 2 * n * (2 * n + 1))
        × (results.old ≡ blank (2 * measurement_count (operations_of d n ops.now)))
        × (shots_in tray.now * (1 + 2 * measurement_count (operations_of d n ops.now)) ≤ length out.old) }
    ensures { AllShotsFilled d n ops.now choices.now t.now tray.now out.old out.new
        × (result ≡ all_shots_shifted d n ops.now choices.now t.now tray.now) }
{
    let size = copy.len();
    copy.copy_from_slice(&t[..size]);
    let circuit = Circuit {
        ops,
        errors: &[],
        choices,
        d,
        n,
    };
    let measurements = clean_run::run(copy, results, &circuit);
    let clean = CleanRun {
        ops,
        results,
        t: copy,
        w: 1 + 2 * measurements,
        m: Modulus::new(d),
        n,
    };
    TrayShots { tray, clean }.fill(out)
}

// Every shot, with room for the copy and the clean results of so many measurements: the buffer holds what separate frame runs would fill
// it with.
pub fn run(
    out: &mut [u8],
    tray: &[u8],
    t: &[u8],
    ops: &[u8],
    choices: &[u8],
    measurements: usize,
    d: u8,
    n: usize,
) -> usize
    requires { Ready d n tray.now t.now ops.now choices.now
        × (measurements ≡ measurement_count (operations_of d n ops.now))
        × (shots_in tray.now * (1 + 2 * measurement_count (operations_of d n ops.now)) ≤ length out.old) }
    ensures { (out.new
        ≡ filled_by d n (operations_of d n ops.now) choices.now t.now tray.now out.old (shots_in tray.now))
        × (result ≡ shifted_among d n (operations_of d n ops.now) choices.now t.now tray.now (shots_in tray.now)) }
{
    let mut copy = [0u8; 16512];
    let mut results = [0u8; 8192];
    let size = 2 * n * (2 * n + 1);
    let bytes = 2 * measurements;
    run_in(
        out,
        &mut copy[..size],
        &mut results[..bytes],
        tray,
        t,
        ops,
        choices,
        d,
        n,
    )
}
