// The errors of the shots of a block, which stay in the tray.

ghost use Rattle.std.specs.Prelude.{◌≡◌, ◌<◌};
ghost use Rattle.calendar.specs.LaneErrors.{body_at, LaneBodies};

// Where the errors of a lane lie in the tray: `size` bytes from `start` on.
#[derive(Clone, Copy)]
pub struct Span {
    pub start: usize,
    pub size: usize,
}

// The errors of 256 lanes, as a run on n qudits of that dimension can take them.
#[derive(Drop)]
pub struct LaneErrors<'a> {
    pub tray: &'a [u8],
    pub spans: [Span; 256],
    pub d: u8,
    pub n: usize,
    pub ghost bodies: { LaneBodies d n tray.now spans },
}

impl LaneErrors<'_> {
    // The bytes of lane l's errors.
    pub fn body(&self, l: usize) -> &[u8]
        requires { l < 256 }
        ensures { result.now ≡ body_at self.now.tray.now self.now.spans l }
    {
        let span = self.spans[l];
        &self.tray[span.start..span.start + span.size]
    }
}
