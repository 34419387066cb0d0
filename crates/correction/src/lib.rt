// A correction in the frames of up to 256 shots: a lane's shift is the reported result of its shot less the clean one.
#![tactic(auto)]

ghost use Rattle.std.specs.Prelude.{◌≡◌, ℕ, ◌+◌, ◌*◌, ◌<◌, ◌≤◌, length};
ghost use Rattle.lanes.specs.Lanes.{Lanes};
ghost use Rattle.tile.specs.Tile.{ShotsRoom};
ghost use Rattle.correction.specs.Correction.{held_in, written_in, reported_in, Corrected, CorrectedBy};

use frame_powers::Correction;
use modular::Modulus;

// Qudit q by what `reported` returns for each of the first `used` lanes, of which r is the clean result.
pub fn correct_by<F: Fn(usize) -> u8>(
    v: &mut [u8],
    reported: F,
    q: usize,
    r: u8,
    used: usize,
    m: Modulus,
    n: usize,
)
    requires callable { (l : ℕ) → l < used → F.pre reported l }
    requires below { (l x : ℕ) → l < used → F.post reported l x → x < m.d }
    requires qudit_in { q < n }
    requires clean { r < m.d }
    requires few { used ≤ 256 }
    requires lanes { Lanes m.d n v.old }
    ensures corrected { CorrectedBy m.d n q r used (λ l x. F.post reported l x) v.old v.new }
    ensures lanes { Lanes m.d n v.new }
{
    for l in 0..used {
        let shift = modular::subtract(m.d, reported(l), r);
        lanes::change_lane(v, Correction { q, shift }, l, m, n);
    }
}

// The results that were reported to the first `used` shots: those of the first `base` measurements are written to the shots, w bytes each,
// and the others stand in the tile, a row of 256 each.
#[derive(Clone, Copy)]
pub struct Reports<'a> {
    pub out: &'a [u8],
    pub w: usize,
    pub used: usize,
    pub tile: &'a [u8],
    pub base: usize,
    ghost shots: { ShotsRoom w used out.now },
    ghost tile_room: { length tile.now ≡ 4096 },
}

impl Reports<'_> {
    // The result of measurement i for lane l, as it is written to its shot.
    fn written(&self, i: usize, l: usize) -> u8
        requires wide { 1 + 2 * i < self.now.w }
        requires lane_in { l < self.now.used }
        ensures { result ≡ written_in self.now.w self.now.out.now i l }
    {
        self.out[l * self.w + 1 + 2 * i]
    }

    // The result in row y of the tile.
    fn held(&self, y: usize, l: usize) -> u8
        requires row_in { y < 16 }
        requires lane_in { l < self.now.used }
        ensures { result ≡ held_in self.now.tile.now y l }
    {
        self.tile[256 * y + l]
    }

    // Qudit q by the results of measurement i, of which r is the clean one.
    pub fn correct(&self, v: &mut [u8], i: usize, q: usize, r: u8, m: Modulus, n: usize)
        requires measured { i < self.now.base + 16 }
        requires wide { 1 + 2 * i < self.now.w }
        requires qudit_in { q < n }
        requires clean { r < m.d }
        requires below { (l : ℕ) → l < self.now.used → reported_in self.now.w self.now.base self.now.tile.now self.now.out.now i l < m.d }
        requires lanes { Lanes m.d n v.old }
        ensures corrected { Corrected m.d n q r self.now.used (reported_in self.now.w self.now.base self.now.tile.now self.now.out.now i) v.old v.new }
        ensures lanes { Lanes m.d n v.new }
    {
        // A copy, since the loops keep its fields in registers.
        let reports = *self;
        if i < reports.base {
            correct_by(v, |l| reports.written(i, l), q, r, reports.used, m, n);
        } else {
            let y = i - reports.base;
            correct_by(v, |l| reports.held(y, l), q, r, reports.used, m, n);
        }
    }
}
