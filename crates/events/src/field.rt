// The values that the kind and the fields of an event take, and the word for each value of a field.
ghost use Rattle.std.specs.Prelude.{◌≡◌, Some};
ghost use Rattle.events.specs.Directions.{other_direction};
ghost use Rattle.events.specs.Words.{code_word, consent_word, line_word, place_word, position_word, station_word, turn_word};

use std::fmt;

// One of the two stations that a section joins.
#[derive(Clone, Copy, Debug, PartialEq, Eq)]
pub enum Station {
    Zero,
    One,
}

impl fmt::Display for Station {
    ghost output = { λ x. Some (station_word x) };

    fn fmt<W: fmt::Write>(&self, f: &mut fmt::Formatter<W>) -> fmt::Result {
        f.write_str(match self {
            Station::Zero => "0",
            Station::One => "1",
        })
    }
}

// A line of a section: up runs from station 0 to station 1, down from 1 to 0.
#[derive(Clone, Copy, Debug, PartialEq, Eq)]
pub enum Direction {
    Up,
    Down,
}

impl Direction {
    // The other line of the section.
    pub fn other(self) -> Direction
        ensures { result ≡ other_direction self }
    {
        match self {
            Direction::Up => Direction::Down,
            Direction::Down => Direction::Up,
        }
    }
}

impl fmt::Display for Direction {
    ghost output = { λ x. Some (line_word x) };

    fn fmt<W: fmt::Write>(&self, f: &mut fmt::Formatter<W>) -> fmt::Result {
        f.write_str(match self {
            Direction::Up => "up",
            Direction::Down => "down",
        })
    }
}

// A code sent on the bell.
#[derive(Clone, Copy, Debug, PartialEq, Eq)]
pub enum Code {
    IsLineClear,
    TrainEntering,
    TrainOut,
    CancelLast,
    ObstructionRemoved,
    Trolley,
    BlockForward,
    BlockBack,
}

impl fmt::Display for Code {
    ghost output = { λ x. Some (code_word x) };

    fn fmt<W: fmt::Write>(&self, f: &mut fmt::Formatter<W>) -> fmt::Result {
        f.write_str(match self {
            Code::IsLineClear => "is-line-clear",
            Code::TrainEntering => "train-entering",
            Code::TrainOut => "train-out",
            Code::CancelLast => "cancel-last",
            Code::ObstructionRemoved => "obstruction-removed",
            Code::Trolley => "trolley",
            Code::BlockForward => "block-forward",
            Code::BlockBack => "block-back",
        })
    }
}

// How the commutator is turned with a code; straight is no turn.
#[derive(Clone, Copy, Debug, PartialEq, Eq)]
pub enum Turn {
    Straight,
    Left,
    Right,
}

impl fmt::Display for Turn {
    ghost output = { λ x. Some (turn_word x) };

    fn fmt<W: fmt::Write>(&self, f: &mut fmt::Formatter<W>) -> fmt::Result {
        f.write_str(match self {
            Turn::Straight => "none",
            Turn::Left => "left",
            Turn::Right => "right",
        })
    }
}

// Whether an acknowledgement consents.
#[derive(Clone, Copy, Debug, PartialEq, Eq)]
pub enum Consent {
    Withheld,
    Given,
}

impl fmt::Display for Consent {
    ghost output = { λ x. Some (consent_word x) };

    fn fmt<W: fmt::Write>(&self, f: &mut fmt::Formatter<W>) -> fmt::Result {
        f.write_str(match self {
            Consent::Withheld => "0",
            Consent::Given => "1",
        })
    }
}

// The position of a signal's control.
#[derive(Clone, Copy, Debug, PartialEq, Eq)]
pub enum Position {
    Normal,
    Reversed,
}

impl fmt::Display for Position {
    ghost output = { λ x. Some (position_word x) };

    fn fmt<W: fmt::Write>(&self, f: &mut fmt::Formatter<W>) -> fmt::Result {
        f.write_str(match self {
            Position::Normal => "normal",
            Position::Reversed => "reversed",
        })
    }
}

// Where a trolley ends: at the far station, or back where it started.
#[derive(Clone, Copy, Debug, PartialEq, Eq)]
pub enum Place {
    Arrived,
    Returned,
}

impl fmt::Display for Place {
    ghost output = { λ x. Some (place_word x) };

    fn fmt<W: fmt::Write>(&self, f: &mut fmt::Formatter<W>) -> fmt::Result {
        f.write_str(match self {
            Place::Arrived => "arrived",
            Place::Returned => "returned",
        })
    }
}

// What an event is, without its fields.
#[derive(Clone, Copy, Debug, PartialEq, Eq)]
pub enum Kind {
    Call,
    Answer,
    Send,
    Acknowledge,
    Error,
    StopControl,
    HomeControl,
    Enters,
    Leave,
    TrolleyStarts,
    TrolleyEnds,
    Fails,
    Reset,
    Resume,
    Roll,
}
