//! Room for what a line of a transcript has to say, which a judge makes once: to make it costs more
//! than a line.
ghost use Rattle.std.specs.Prelude.{◌≡◌, []};

use arrayvec::ArrayVec;
use its_print::Run;

/// Room for the letters of a line, as runs.
pub type Runs = ArrayVec<Run, 512>;

/// Room for the bytes of a line.
pub type Bytes = ArrayVec<u8, 2048>;

/// Room for the letters of a line and for its bytes.
#[derive(Debug, Drop)]
pub struct Room {
    pub runs: Runs,
    pub line: Bytes,
}

impl Room {
    /// Room in which nothing is.
    pub fn new() -> Room
        ensures runs { result.runs.items ≡ [] }
        ensures line { result.line.items ≡ [] }
    {
        Room {
            runs: ArrayVec::new(),
            line: ArrayVec::new(),
        }
    }
}
