// The last line of a listing.
ghost use Rattle.std.specs.Prelude.{Some};
ghost use Rattle.listing.specs.Lines.{ending_text};

use format::fault::Stop;
use std::fmt;

// Tells how reading ended: with the number of events, or at a fault.
#[derive(Clone, Copy)]
pub struct EndingLine(pub Result<usize, Stop>);

impl fmt::Display for EndingLine {
    ghost output = { λ x. Some (ending_text x.0) };

    fn fmt<W: fmt::Write>(&self, f: &mut fmt::Formatter<W>) -> fmt::Result {
        match self.0 {
            Ok(count) => write!(f, "end {count}"),
            Err(Stop { number, offset }) => write!(f, "stop {number} at {offset}"),
        }
    }
}
