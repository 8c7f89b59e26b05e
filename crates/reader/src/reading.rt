// What a sheet tells: its section count and its events.
ghost use Rattle.std.specs.Prelude.{◌≡◌, [], None};
ghost use Rattle.cursor.specs.Cursors.{Goes};
ghost use Rattle.format.specs.Openings.{count_at};
ghost use Rattle.format.specs.Sheets.{AnswersExactly, OneReading, Told};

use cursor::Cursor;
use events::event::LocatedEvent;
use format::fault::RunFault;
use format::sections::section_count;
use std::alloc::Global;

// The section count, from 1 to 8.
fn sections(cursor: &mut Cursor) -> Result<u16, RunFault>
    ensures { Goes count_at cursor.old cursor.new result }
{
    section_count(cursor.number()?)
}

// The section count, once it is read, and the events so far, each with the offset of its first byte.
#[derive(Drop)]
pub struct Reading {
    pub sections: Option<u16>,
    pub events: Vec<LocatedEvent>,
}

impl Reading {
    // A reading of nothing.
    pub fn new(heap: Global) -> Reading
        ensures { (result.sections ≡ None) × (result.events.items ≡ []) }
    {
        Reading {
            sections: None,
            events: Vec::new(heap),
        }
    }

    fn forget(&mut self)
        ensures { (self.new.sections ≡ None) × (self.new.events.items ≡ []) }
    {
        self.sections = None;
        self.events.clear();
    }

    // Reads a sheet from its beginning. What was told before a fault stays.
    pub fn read(&mut self, sheet: &[u8]) -> Result<(), RunFault>
        ensures told { Told sheet.now result self.new.sections self.new.events.items }
        ensures exactly { AnswersExactly sheet.now result }
        ensures one { OneReading sheet.now }
    {
        self.forget();
        let mut cursor = Cursor::open(sheet)?;
        self.sections = Some(sections(&mut cursor)?);
        while let Some(event) = cursor.event()? {
            self.events.push(event)?;
        }
        Ok(())
    }
}
