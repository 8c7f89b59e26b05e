// A place in a lent sheet, from which numbers and events are read.
#![tactic(auto)]

ghost use Rattle.cursor.specs.Cursors.{Goes, Moves, Opens};
ghost use Rattle.events.specs.Fields.{from_to};
ghost use Rattle.format.specs.Layouts.{field_at, next_at};
ghost use Rattle.format.specs.Numbers.{number_at};

mod fields;
mod number;

use events::event::{LocatedEvent, SectionEvent};
use events::numbered::Numbered;
use format::fault::{ReadFault, Reason};
use number::number_in;

// The longest sheet, in bytes.
pub const LONGEST: usize = 65536;

#[derive(Clone, Copy)]
pub struct Cursor<'a> {
    sheet: &'a [u8],
    at: usize,
}

impl<'a> Cursor<'a> {
    // A cursor at the sheet's first byte, unless the sheet is too long.
    pub fn open(sheet: &'a [u8]) -> Result<Cursor<'a>, ReadFault>
        ensures { Opens sheet.now result }
    {
        if sheet.len() > LONGEST {
            return Err(ReadFault {
                reason: Reason::Value,
                offset: LONGEST,
            });
        }
        Ok(Cursor { sheet, at: 0 })
    }

    // The next number, byte by byte. (Made in place, as `value` and `number_in` are: as calls of their own, they make the listing
    // of a long sheet a quarter to a half slower.)
    #[inline(always)]
    pub fn number(&mut self) -> Result<u16, ReadFault>
        ensures { Moves number_at self.old self.new result }
    {
        let (value, after) = number_in(self.sheet, self.at)?;
        self.at = after;
        Ok(value)
    }

    // The value that the next number stands for.
    #[tactic(auto, unfolding(format::specs::Layouts::field_at))]
    #[inline(always)]
    fn value<T: Numbered>(&mut self) -> Result<T, ReadFault>
        ensures { Goes (field_at T.Numbered.field) self.old self.new result }
    {
        let start = self.at;
        let number = self.number()?;
        T::try_from(number).map_err(|_| ReadFault {
            reason: Reason::Value,
            offset: start,
        })
    }

    // The next number, which has to lie within these bounds. (With `value` in one function, a closure would judge the number,
    // and have clauses of its own.)
    #[tactic(auto, unfolding(format::specs::Layouts::field_at))]
    fn from_to(&mut self, least: u16, most: u16) -> Result<u16, ReadFault>
        ensures { Goes (field_at (from_to least most)) self.old self.new result }
    {
        let start = self.at;
        let number = self.number()?;
        if !(least..=most).contains(&number) {
            return Err(ReadFault {
                reason: Reason::Value,
                offset: start,
            });
        }
        Ok(number)
    }

    // The next event at its place, or none at the sheet's end. It is read ahead, so that a fault leaves the cursor where it stood.
    pub fn event(&mut self) -> Result<Option<LocatedEvent>, ReadFault>
        ensures { Moves next_at self.old self.new result }
    {
        let offset = self.at;
        if offset >= self.sheet.len() {
            return Ok(None);
        }
        let mut ahead = *self;
        let kind = ahead.value()?;
        let section = ahead.number()?;
        let event = ahead.fields(kind)?;
        self.at = ahead.at;
        let told = SectionEvent { section, event };
        Ok(Some(LocatedEvent { offset, told }))
    }
}
