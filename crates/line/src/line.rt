// A line whose type says what every line record keeps.
ghost use Rattle.std.specs.Prelude.{◌≡◌, true, false, MatchResult};
ghost use Rattle.line.specs.Records.{consistent};

use crate::row::{Needle, Permit, Row, Signal};
use events::field::Position;
use std::marker::Model;

mod sent;
mod worked;

// Clauses see a line as its row.
#[derive(Clone, Copy)]
pub struct Line {
    row: Row,
}

impl Model for Line {
    ghost use Rattle.line.specs.Records.{Kept};
    ghost use Rattle.line.specs.declared.row.Row.{Row};

    ghost Value = { Row };

    ghost view = { λ l. l.row };

    ghost invariant = { λ l. Kept l.row };

    ghost inverse = { λ r. record { row = r } };
}

// Whether a row keeps what every line record keeps.
fn is_consistent(row: Row) -> bool
    ensures { result ≡ consistent row }
{
    let Row {
        permission,
        signals,
        ..
    } = row;
    let clear = permission.needle == Needle::Clear;
    let due = clear
        && !permission.used
        && signals.stop_control == Position::Reversed
        && !signals.suspended;
    (permission.needle == Needle::Closed) == (permission.permit == Permit::Nothing)
        && (!clear || permission.permit == Permit::Train)
        && (signals.stop == Signal::On || due)
}

// A row that does not keep what every line record keeps.
#[derive(Clone, Copy, Debug, PartialEq, Eq)]
pub struct Inconsistent;

impl TryFrom<Row> for Line {
    type Error = Inconsistent;

    ghost try_from_gives = { λ row r. MatchResult r (λ l. (l ≡ row) × (consistent row ≡ true)) (λ _. consistent row ≡ false) };

    fn try_from(row: Row) -> Result<Line, Inconsistent> {
        if is_consistent(row) {
            Ok(Line { row })
        } else {
            Err(Inconsistent)
        }
    }
}

// The row to write back.
impl From<Line> for Row {
    ghost from_gives = { λ l row. (row ≡ l) × (consistent row ≡ true) };

    fn from(line: Line) -> Row {
        line.row
    }
}
