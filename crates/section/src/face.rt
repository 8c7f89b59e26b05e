// What the register shows of a section.
ghost use Rattle.std.specs.Prelude.{◌≡◌};
ghost use Rattle.section.specs.Sections.{face_of, line_face_of};

use crate::per_line::PerLine;
use crate::section::{Readings, Section};
use answer::Answer;
use detector::Reading;
use line::row::{Needle, Row, Signal};

#[derive(Clone, Copy, Debug, PartialEq, Eq)]
pub struct LineFace {
    pub needle: Needle,
    pub stop: Signal,
    pub home: Signal,
    pub reading: Reading,
}

pub type Face = PerLine<LineFace>;

// What the register has of an event: its answer, and its section after it, where the bench has the section.
#[derive(Clone, Copy, Debug, PartialEq, Eq)]
pub struct Entry {
    pub answer: Answer,
    pub face: Option<Face>,
}

impl LineFace {
    fn of(row: Row, reading: Reading) -> LineFace
        ensures { result ≡ line_face_of row reading }
    {
        LineFace {
            needle: row.permission.needle,
            stop: row.signals.stop,
            home: row.signals.home,
            reading,
        }
    }
}

impl Section {
    // What is shown of the section where its detectors read so.
    pub fn face(&self, readings: Readings) -> Face
        ensures { result ≡ face_of self.now readings }
    {
        PerLine::each(|line| LineFace::of(*self.lines.on(line), *readings.on(line)))
    }
}
