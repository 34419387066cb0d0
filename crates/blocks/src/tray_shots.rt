// The shots of a tray, as blocks take them.

ghost use Rattle.block.specs.Clean.{CleanShots};
ghost use Rattle.blocks.specs.Blocks.{TrayErrors};

use block::CleanRun;

// A tray, whose bodies hold errors that a run can take, and the clean run.
#[derive(Clone, Copy)]
pub struct TrayShots<'a> {
    pub tray: &'a [u8],
    pub clean: CleanRun<'a>,
    pub ghost errors: { TrayErrors clean.m.d clean.n tray.now },
    pub ghost clean_shots: { CleanShots clean.m.d clean.n clean.ops.now clean.results.now clean.t.now clean.w },
}
