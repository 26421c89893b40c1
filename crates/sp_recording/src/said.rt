// What the good lines of a recording said.
ghost use Rattle.std.specs.Prelude.{◌≡◌};
ghost use Rattle.sp_recording.specs.Reading.{lines_in, opening_in};

use crate::{Line, Opening, Stage};

impl Stage {
    /// The first line, if it was read.
    pub fn opening(&self) -> Option<Opening>
        ensures { result ≡ opening_in self.now }
    {
        match self {
            Stage::Start => None,
            Stage::Lines(opening, ..) => Some(*opening),
            Stage::End(opening, ..) => Some(*opening),
        }
    }

    /// The lines between the first and the end line.
    pub fn lines(&self) -> &[Line]
        ensures { result.now ≡ lines_in self.now }
    {
        match self {
            Stage::Start => &[],
            Stage::Lines(_, lines, _) => lines.as_slice(),
            Stage::End(_, lines, _) => lines.as_slice(),
        }
    }
}
