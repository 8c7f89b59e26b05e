// A value that a sheet writes as one number: what each number stands for.
ghost use Rattle.std.specs.Prelude.{◌≡◌, ℕ, Some, Result};
ghost use Rattle.events.specs.Fields.{Field, codes, consents, directions, kinds, places, positions, stations, turns, every_code, code_number, every_consent, consent_number, every_direction, direction_number, every_kind, kind_number, every_place, place_number, every_position, position_number, every_station, station_number, every_turn, turn_number};
ghost use Rattle.events.specs.Numbered.{read};
ghost use Rattle.events.specs.declared.numbered.NoSuchValue.{NoSuchValue};
ghost use Rattle.events.specs.Listed.{listed_back, code_back, consent_back, direction_back, kind_back, place_back, position_back, station_back, turn_back};

use crate::field::{Code, Consent, Direction, Kind, Place, Position, Station, Turn};

// A number that stands for no value of a field.
#[derive(Clone, Copy, Debug, PartialEq, Eq)]
pub struct NoSuchValue(pub u16);

// One match for each enum is its table in the code; `field` is its table in the specs. The eight have nothing else in common
// than these laws.
pub trait Numbered: TryFrom<u16, Error = NoSuchValue> {
    ghost field: { Field Self };

    // A number is read by the table,
    ghost reads: { (n : ℕ) (r : Result Self NoSuchValue) → Self.TryFrom.try_from_gives n r → r ≡ read field n };

    // each value is what its number stands for,
    ghost reads_back: { (x : Self) → field.value (field.number x) ≡ Some x };

    // and no other number stands for it.
    ghost one_number: { (n : ℕ) (x : Self) → field.value n ≡ Some x → n ≡ field.number x };
}

impl TryFrom<u16> for Station {
    type Error = NoSuchValue;

    ghost try_from_gives = { λ n r. r ≡ read stations n };

    fn try_from(number: u16) -> Result<Station, NoSuchValue> {
        match number {
            0 => Ok(Station::Zero),
            1 => Ok(Station::One),
            _ => Err(NoSuchValue(number)),
        }
    }
}

impl Numbered for Station {
    ghost field = { stations };

    ghost reads = { λ n r e. e };

    ghost reads_back = { station_back };

    ghost one_number = { listed_back station_number every_station };
}

impl TryFrom<u16> for Direction {
    type Error = NoSuchValue;

    ghost try_from_gives = { λ n r. r ≡ read directions n };

    fn try_from(number: u16) -> Result<Direction, NoSuchValue> {
        match number {
            0 => Ok(Direction::Up),
            1 => Ok(Direction::Down),
            _ => Err(NoSuchValue(number)),
        }
    }
}

impl Numbered for Direction {
    ghost field = { directions };

    ghost reads = { λ n r e. e };

    ghost reads_back = { direction_back };

    ghost one_number = { listed_back direction_number every_direction };
}

impl TryFrom<u16> for Code {
    type Error = NoSuchValue;

    ghost try_from_gives = { λ n r. r ≡ read codes n };

    fn try_from(number: u16) -> Result<Code, NoSuchValue> {
        match number {
            1 => Ok(Code::IsLineClear),
            2 => Ok(Code::TrainEntering),
            3 => Ok(Code::TrainOut),
            4 => Ok(Code::CancelLast),
            5 => Ok(Code::ObstructionRemoved),
            6 => Ok(Code::Trolley),
            7 => Ok(Code::BlockForward),
            8 => Ok(Code::BlockBack),
            _ => Err(NoSuchValue(number)),
        }
    }
}

impl Numbered for Code {
    ghost field = { codes };

    ghost reads = { λ n r e. e };

    ghost reads_back = { code_back };

    ghost one_number = { listed_back code_number every_code };
}

impl TryFrom<u16> for Turn {
    type Error = NoSuchValue;

    ghost try_from_gives = { λ n r. r ≡ read turns n };

    fn try_from(number: u16) -> Result<Turn, NoSuchValue> {
        match number {
            0 => Ok(Turn::Straight),
            1 => Ok(Turn::Left),
            2 => Ok(Turn::Right),
            _ => Err(NoSuchValue(number)),
        }
    }
}

impl Numbered for Turn {
    ghost field = { turns };

    ghost reads = { λ n r e. e };

    ghost reads_back = { turn_back };

    ghost one_number = { listed_back turn_number every_turn };
}

impl TryFrom<u16> for Consent {
    type Error = NoSuchValue;

    ghost try_from_gives = { λ n r. r ≡ read consents n };

    fn try_from(number: u16) -> Result<Consent, NoSuchValue> {
        match number {
            0 => Ok(Consent::Withheld),
            1 => Ok(Consent::Given),
            _ => Err(NoSuchValue(number)),
        }
    }
}

impl Numbered for Consent {
    ghost field = { consents };

    ghost reads = { λ n r e. e };

    ghost reads_back = { consent_back };

    ghost one_number = { listed_back consent_number every_consent };
}

impl TryFrom<u16> for Position {
    type Error = NoSuchValue;

    ghost try_from_gives = { λ n r. r ≡ read positions n };

    fn try_from(number: u16) -> Result<Position, NoSuchValue> {
        match number {
            0 => Ok(Position::Normal),
            1 => Ok(Position::Reversed),
            _ => Err(NoSuchValue(number)),
        }
    }
}

impl Numbered for Position {
    ghost field = { positions };

    ghost reads = { λ n r e. e };

    ghost reads_back = { position_back };

    ghost one_number = { listed_back position_number every_position };
}

impl TryFrom<u16> for Place {
    type Error = NoSuchValue;

    ghost try_from_gives = { λ n r. r ≡ read places n };

    fn try_from(number: u16) -> Result<Place, NoSuchValue> {
        match number {
            0 => Ok(Place::Arrived),
            1 => Ok(Place::Returned),
            _ => Err(NoSuchValue(number)),
        }
    }
}

impl Numbered for Place {
    ghost field = { places };

    ghost reads = { λ n r e. e };

    ghost reads_back = { place_back };

    ghost one_number = { listed_back place_number every_place };
}

impl TryFrom<u16> for Kind {
    type Error = NoSuchValue;

    ghost try_from_gives = { λ n r. r ≡ read kinds n };

    fn try_from(number: u16) -> Result<Kind, NoSuchValue> {
        match number {
            0 => Ok(Kind::Call),
            1 => Ok(Kind::Answer),
            2 => Ok(Kind::Send),
            3 => Ok(Kind::Acknowledge),
            4 => Ok(Kind::Error),
            5 => Ok(Kind::StopControl),
            6 => Ok(Kind::HomeControl),
            7 => Ok(Kind::Enters),
            8 => Ok(Kind::Leave),
            9 => Ok(Kind::TrolleyStarts),
            10 => Ok(Kind::TrolleyEnds),
            11 => Ok(Kind::Fails),
            12 => Ok(Kind::Reset),
            13 => Ok(Kind::Resume),
            14 => Ok(Kind::Roll),
            _ => Err(NoSuchValue(number)),
        }
    }
}

impl Numbered for Kind {
    ghost field = { kinds };

    ghost reads = { λ n r e. e };

    ghost reads_back = { kind_back };

    ghost one_number = { listed_back kind_number every_kind };
}
