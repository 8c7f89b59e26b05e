// Which end of a line a station is.
ghost use Rattle.std.specs.Prelude.{◌≡◌};
ghost use Rattle.line.specs.Codes.{role_of};

use events::field::{Direction, Station};

#[derive(Clone, Copy, Debug, PartialEq, Eq)]
pub enum Role {
    Despatching,
    Receiving,
}

impl Role {
    // The up line runs from station 0 to station 1, the down line back.
    pub fn of(station: Station, line: Direction) -> Role
        ensures { result ≡ role_of line station }
    {
        match (line, station) {
            (Direction::Up, Station::Zero) | (Direction::Down, Station::One) => Role::Despatching,
            _ => Role::Receiving,
        }
    }
}
