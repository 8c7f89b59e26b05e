// What can happen on the bench.
ghost use Rattle.std.specs.Prelude.{◌≡◌};

use crate::field::{Code, Consent, Direction, Place, Position, Station, Turn};

// The fewest axles, and the most, of one train that enters or leaves.
pub const LEAST_AXLES: u16 = 1;

pub const MOST_AXLES: u16 = 250;

// The last track from which axles roll to the next.
pub const LAST_TO_ROLL: u16 = 6;

// An event of one section. Axles and track are plain numbers, so that a caller can make an event that is outside its values.
#[derive(Clone, Copy, Debug, PartialEq, Eq)]
pub enum Event {
    Call {
        station: Station,
    },
    Answer {
        station: Station,
    },
    Send {
        line: Direction,
        station: Station,
        code: Code,
        turn: Turn,
    },
    Acknowledge {
        station: Station,
        consent: Consent,
        turn: Turn,
    },
    Error {
        station: Station,
    },
    StopControl {
        line: Direction,
        position: Position,
    },
    HomeControl {
        line: Direction,
        position: Position,
    },
    Enters {
        line: Direction,
        axles: u16,
    },
    Leave {
        line: Direction,
        axles: u16,
    },
    TrolleyStarts {
        line: Direction,
    },
    TrolleyEnds {
        line: Direction,
        place: Place,
    },
    Fails {
        line: Direction,
    },
    Reset {
        line: Direction,
        station: Station,
    },
    Resume {
        line: Direction,
        station: Station,
    },
    Roll {
        line: Direction,
        track: u16,
    },
}

impl Event {
    ghost use Rattle.events.specs.Written.{within_values};

    // Whether axles and track, where the event has one, are within their values.
    pub fn is_within_values(self) -> bool
        ensures { result ≡ within_values self }
    {
        match self {
            Event::Enters { axles, .. } | Event::Leave { axles, .. } => {
                (LEAST_AXLES..=MOST_AXLES).contains(&axles)
            }
            Event::Roll { track, .. } => track <= LAST_TO_ROLL,
            _ => true,
        }
    }
}

// An event, with the number of its section beside it.
#[derive(Clone, Copy, Debug, PartialEq, Eq)]
pub struct SectionEvent {
    pub section: u16,
    pub event: Event,
}

// What a sheet tells at the byte `offset`.
#[derive(Clone, Copy, Debug, PartialEq, Eq)]
pub struct LocatedEvent {
    pub offset: usize,
    pub told: SectionEvent,
}
