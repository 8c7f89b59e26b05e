// What an event says, in words.
ghost use Rattle.std.specs.Prelude.{Some};
ghost use Rattle.words.specs.Words.{event_words};

use events::event::Event;
use std::fmt;

// Its kind, and then each field after its name. This is no `Display` of `Event` itself, whose crate all others stand on: only
// the listing waits for the proof of these words.
#[derive(Clone, Copy)]
pub struct EventWords(pub Event);

impl fmt::Display for EventWords {
    ghost output = { λ x. Some (event_words x.0) };

    fn fmt<W: fmt::Write>(&self, f: &mut fmt::Formatter<W>) -> fmt::Result {
        match self.0 {
            Event::Call { station } => write!(f, "call station {station}"),
            Event::Answer { station } => write!(f, "answer station {station}"),
            Event::Send {
                line,
                station,
                code,
                turn,
            } => write!(
                f,
                "send line {line} station {station} code {code} turn {turn}"
            ),
            Event::Acknowledge {
                station,
                consent,
                turn,
            } => write!(
                f,
                "acknowledge station {station} consent {consent} turn {turn}"
            ),
            Event::Error { station } => write!(f, "error station {station}"),
            Event::StopControl { line, position } => write!(
                f,
                "stop-control line {line} position {position}"
            ),
            Event::HomeControl { line, position } => write!(
                f,
                "home-control line {line} position {position}"
            ),
            Event::Enters { line, axles } => write!(f, "enters line {line} axles {axles}"),
            Event::Leave { line, axles } => write!(f, "leave line {line} axles {axles}"),
            Event::TrolleyStarts { line } => write!(f, "trolley-starts line {line}"),
            Event::TrolleyEnds { line, place } => {
                write!(f, "trolley-ends line {line} place {place}")
            }
            Event::Fails { line } => write!(f, "fails line {line}"),
            Event::Reset { line, station } => { write!(f, "reset line {line} station {station}") }
            Event::Resume { line, station } => { write!(f, "resume line {line} station {station}") }
            Event::Roll { line, track } => write!(f, "roll line {line} track {track}"),
        }
    }
}
