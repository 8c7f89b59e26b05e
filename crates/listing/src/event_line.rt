// The line of one event.
ghost use Rattle.std.specs.Prelude.{Some};
ghost use Rattle.listing.specs.Lines.{event_text};

use events::event::LocatedEvent;
use std::fmt;
use words::event_words::EventWords;

// Tells where the event stands, its section and its words.
#[derive(Clone, Copy)]
pub struct EventLine {
    pub index: usize,
    pub located: LocatedEvent,
}

impl fmt::Display for EventLine {
    ghost output = { λ x. Some (event_text x.index x.located) };

    fn fmt<W: fmt::Write>(&self, f: &mut fmt::Formatter<W>) -> fmt::Result {
        let index = self.index;
        let offset = self.located.offset;
        let section = self.located.told.section;
        let words = EventWords(self.located.told.event);
        write!(f, "{index} at {offset}: section {section} {words}")
    }
}
