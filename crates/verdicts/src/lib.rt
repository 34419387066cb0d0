// The verdict of each lane: its frame is copied out, and paired with the stabilizers until one is shifted.
#![tactic(auto)]

ghost use Rattle.std.specs.Prelude.{◌≡◌, cond, ◌*◌, ◌<◌, ◌≤◌, length};
ghost use Rattle.row.specs.Row.{Powers};
ghost use Rattle.tableau.specs.Tableau.{Tableau};
ghost use Rattle.runs.specs.Frame.{verdict_of};
ghost use Rattle.lanes.specs.Lanes.{lane, Lanes};
ghost use Rattle.tile.specs.Tile.{ShotsRoom};
ghost use Rattle.verdicts.specs.Verdicts.{shifted_lanes, VerdictsWritten, verdict_in};

use modular::Modulus;

// The frame becomes lane l.
fn copy_lane(frame: &mut [u8], v: &[u8], l: usize, n: usize)
    requires qudits { n ≤ 64 }
    requires lane_in { l < 256 }
    requires frame_room { length frame.old ≡ 2 * n }
    requires lanes_room { 512 * n ≤ length v.now }
    ensures { frame.new ≡ lane n v.now l }
{
    for s in 0..2 * n {
        frame[s] = v[256 * s + l];
    }
}

// Whether a stabilizer is shifted: one of the n shifts is not 0.
fn is_shifted(frame: &[u8], t: &[u8], m: Modulus, n: usize) -> bool
    requires qudits { n ≤ 64 }
    requires tableau { Tableau m.d n t.now }
    requires powers { Powers m.d n frame.now }
    ensures { cond result 1 0 ≡ verdict_of m.d n frame.now t.now }
{
    for i in 0..n {
        if row::pairing(frame, tableau::row(t, n + i, n), m, n) != 0 {
            return true;
        }
    }
    false
}

// Whether the shot of lane l is shifted. Its frame is copied out of the lanes first.
fn is_lane_shifted(v: &[u8], t: &[u8], l: usize, m: Modulus, n: usize) -> bool
    requires lane_in { l < 256 }
    requires lanes { Lanes m.d n v.now }
    requires tableau { Tableau m.d n t.now }
    ensures { cond result 1 0 ≡ verdict_of m.d n (lane n v.now l) t.now }
{
    let mut room = [0u8; 128];
    let frame = &mut room[..2 * n];
    copy_lane(frame, v, l, n);
    is_shifted(frame, t, m, n)
}

// Writes the verdict of each of the first `used` lanes to the first byte of its shot: 0 clean, 1 shifted. How many are shifted is returned.
pub fn write_verdicts(
    out: &mut [u8],
    v: &[u8],
    t: &[u8],
    w: usize,
    used: usize,
    m: Modulus,
    n: usize,
) -> usize
    requires wide { 0 < w }
    requires shots { ShotsRoom w used out.old }
    requires lanes { Lanes m.d n v.now }
    requires tableau { Tableau m.d n t.now }
    ensures shifted { result ≡ shifted_lanes m.d n v.now t.now used }
    ensures written { VerdictsWritten w used used (verdict_in m.d n v.now t.now) out.old out.new }
{
    let mut shifted = 0;
    for l in 0..used {
        let verdict = is_lane_shifted(v, t, l, m, n);
        out[l * w] = u8::from(verdict);
        shifted += usize::from(verdict);
    }
    shifted
}
