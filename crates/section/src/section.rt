// The plain record of a section, and what goes with it while an event is answered.
ghost use Rattle.std.specs.Prelude.{◌≡◌};
ghost use Rattle.section.specs.Sections.{fresh_section};

use crate::per_line::PerLine;
use answer::Outcome;
use bell::Bell;
use detector::{Action, Reading};
use line::row::Row;

#[derive(Clone, Copy, Debug, PartialEq, Eq)]
pub struct Section {
    pub bell: Bell,
    pub lines: PerLine<Row>,
}

// What the detectors of the two lines read.
pub type Readings = PerLine<Reading>;

// What the detectors of the two lines are told.
pub type Actions = PerLine<Option<Action>>;

// The answer to an event that was not refused, and what the detectors are to be told by it.
#[derive(Clone, Copy, Debug, PartialEq, Eq)]
pub struct Worked {
    pub outcome: Outcome,
    pub actions: Actions,
}

impl Section {
    // The bell idle, and both lines closed.
    pub fn fresh() -> Section
        ensures { result ≡ fresh_section }
    {
        Section {
            bell: Bell::Idle,
            lines: PerLine::each(|_| Row::fresh()),
        }
    }
}
