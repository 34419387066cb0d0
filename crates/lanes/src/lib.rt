// What is done to the frames of 256 shots side by side: to one of them, and to all in a loop, which vectorises.
#![tactic(auto)]

ghost use Rattle.std.specs.Prelude.{◌<◌};
ghost use Rattle.lanes.specs.Lanes.{Lanes, LaneFrame, Each, Alone};

use frame_powers::FrameChange;
use modular::Modulus;

// The change of the frame in lane l.
pub fn change_lane<C: FrameChange<256>>(v: &mut [u8], change: C, l: usize, m: Modulus, n: usize)
    requires lane { LaneFrame m.d n l v.old }
    requires operands { C.fits change m.d n }
    ensures changed { Alone (C.change change m.d n) n l v.old v.new }
    ensures lanes { Lanes m.d n v.old → Lanes m.d n v.new }
{
    change.change(v, l, m, n);
}

// The change of each frame.
pub fn change_lanes<C: FrameChange<256>>(v: &mut [u8], change: C, m: Modulus, n: usize)
    requires lanes { Lanes m.d n v.old }
    requires operands { C.fits change m.d n }
    ensures changed { Each (C.change change m.d n) n v.old v.new }
    ensures lanes { Lanes m.d n v.new }
{
    for l in 0..256 {
        change_lane(v, change, l, m, n);
    }
}
