// The fields of each kind of event, read in the order of their layout.
ghost use Rattle.cursor.specs.Cursors.{Goes};
ghost use Rattle.events.specs.Fields.{axle_counts};
ghost use Rattle.format.specs.Layouts.{field_at, fields_of, layout_at};

use super::Cursor;
use events::event::{Event, LAST_TO_ROLL, LEAST_AXLES, MOST_AXLES};
use events::field::Kind;
use format::fault::ReadFault;

impl Cursor<'_> {
    // The fields of an event of the kind.
    pub(super) fn fields(&mut self, kind: Kind) -> Result<Event, ReadFault>
        ensures { Goes (layout_at (fields_of kind)) self.old self.new result }
    {
        match kind {
            Kind::Call => Ok(Event::Call {
                station: self.value()?,
            }),
            Kind::Answer => Ok(Event::Answer {
                station: self.value()?,
            }),
            Kind::Send => Ok(Event::Send {
                line: self.value()?,
                station: self.value()?,
                code: self.value()?,
                turn: self.value()?,
            }),
            Kind::Acknowledge => Ok(Event::Acknowledge {
                station: self.value()?,
                consent: self.value()?,
                turn: self.value()?,
            }),
            Kind::Error => Ok(Event::Error {
                station: self.value()?,
            }),
            Kind::StopControl => Ok(Event::StopControl {
                line: self.value()?,
                position: self.value()?,
            }),
            Kind::HomeControl => Ok(Event::HomeControl {
                line: self.value()?,
                position: self.value()?,
            }),
            Kind::Enters => Ok(Event::Enters {
                line: self.value()?,
                axles: self.axles()?,
            }),
            Kind::Leave => Ok(Event::Leave {
                line: self.value()?,
                axles: self.axles()?,
            }),
            Kind::TrolleyStarts => Ok(Event::TrolleyStarts {
                line: self.value()?,
            }),
            Kind::TrolleyEnds => Ok(Event::TrolleyEnds {
                line: self.value()?,
                place: self.value()?,
            }),
            Kind::Fails => Ok(Event::Fails {
                line: self.value()?,
            }),
            Kind::Reset => Ok(Event::Reset {
                line: self.value()?,
                station: self.value()?,
            }),
            Kind::Resume => Ok(Event::Resume {
                line: self.value()?,
                station: self.value()?,
            }),
            Kind::Roll => Ok(Event::Roll {
                line: self.value()?,
                track: self.from_to(0, LAST_TO_ROLL)?,
            }),
        }
    }

    fn axles(&mut self) -> Result<u16, ReadFault>
        ensures { Goes (field_at axle_counts) self.old self.new result }
    {
        self.from_to(LEAST_AXLES, MOST_AXLES)
    }
}
