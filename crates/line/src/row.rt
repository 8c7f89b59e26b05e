// The plain record of a line, as the table of sections keeps it.
ghost use Rattle.std.specs.Prelude.{◌≡◌};
ghost use Rattle.line.specs.Records.{fresh_row};

use events::field::{Position, Station};

// What the three needles of a line show: the receiving station's commutator and both needles move as one.
#[derive(Clone, Copy, Debug, PartialEq, Eq)]
pub enum Needle {
    Closed,
    Clear,
    TrainOnLine,
}

#[derive(Clone, Copy, Debug, PartialEq, Eq)]
pub enum Permit {
    Nothing,
    Train,
    Trolley,
    // The line is blocked from the despatching end.
    Forward,
    // The line is blocked from the receiving end.
    Back,
}

// How the train or the trolley that used a permit came off the line.
#[derive(Clone, Copy, Debug, PartialEq, Eq)]
pub enum End {
    NotEnded,
    Arrived,
    Returned,
}

#[derive(Clone, Copy, Debug, PartialEq, Eq)]
pub enum Signal {
    On,
    Off,
}

// What is permitted, and what has become of it. The rules give every permit these parts, so `used` is no part of `Permit`.
#[derive(Clone, Copy, Debug, PartialEq, Eq)]
pub struct Permission {
    pub needle: Needle,
    pub permit: Permit,
    pub used: bool,
    pub end: End,
}

// The stop signal and its control at the despatching station, the home signal and its control at the receiving one.
#[derive(Clone, Copy, Debug, PartialEq, Eq)]
pub struct Signals {
    pub stop: Signal,
    pub home: Signal,
    pub stop_control: Position,
    pub home_control: Position,
    pub suspended: bool,
}

// Which station has called for a reset of the detector, and which for a resumption, where one has.
#[derive(Clone, Copy, Debug, PartialEq, Eq)]
pub struct Calls {
    pub reset: Option<Station>,
    pub resume: Option<Station>,
}

#[derive(Clone, Copy, Debug, PartialEq, Eq)]
pub struct Row {
    pub permission: Permission,
    pub signals: Signals,
    pub calls: Calls,
}

impl Row {
    // The record of a line on which nothing has happened.
    pub fn fresh() -> Row
        ensures { result ≡ fresh_row }
    {
        Row {
            permission: Permission::nothing(),
            signals: Signals {
                stop: Signal::On,
                home: Signal::On,
                stop_control: Position::Normal,
                home_control: Position::Normal,
                suspended: false,
            },
            calls: Calls {
                reset: None,
                resume: None,
            },
        }
    }
}
