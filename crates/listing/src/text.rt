// The listing of a sheet.
ghost use Rattle.std.specs.Prelude.{◌≡◌, ◌++◌, IfOk, string_bytes, OnOk};
ghost use Rattle.listing.specs.Lines.{event_lines};
ghost use Rattle.listing.specs.Listings.{Lists, ending_of};

use crate::ending_line::EndingLine;
use crate::event_line::EventLine;
use crate::sections_line::SectionsLine;
use events::event::LocatedEvent;
use format::fault::{RunFault, Stop};
use reader::reading::Reading;
use std::alloc::{AllocError, Global};

// How reading ended: with so many events, or at a fault of the sheet. Want of memory is neither.
fn ending_after(outcome: Result<(), RunFault>, count: usize) -> Option<Result<usize, Stop>>
    ensures { result ≡ ending_of outcome count }
{
    outcome.map_or_else(|fault| fault.stop().map(Err), |()| Some(Ok(count)))
}

// A line for each event.
fn write_events(text: &mut String, events: &[LocatedEvent]) -> Result<(), AllocError>
    ensures { OnOk result (string_bytes text.new ≡ string_bytes text.old ++ event_lines 0 events.now) }
{
    for (index, &located) in events.iter().enumerate() {
        let line = EventLine { index, located };
        writeln!(text, "{line}")?;
    }
    Ok(())
}

// Reads a sheet and tells what it holds. The error is want of memory.
pub fn listing(heap: Global, sheet: &[u8]) -> Result<String, AllocError>
    ensures { IfOk result (λ text. Lists sheet.now (string_bytes text)) }
{
    let mut reading = Reading::new(heap);
    let outcome = reading.read(sheet);
    let ending = ending_after(outcome, reading.events.len()).ok_or(AllocError)?;
    let mut text = String::new(heap);
    if let Some(count) = reading.sections {
        let line = SectionsLine(count);
        writeln!(text, "{line}")?;
    }
    write_events(&mut text, &reading.events)?;
    let line = EndingLine(ending);
    writeln!(text, "{line}")?;
    Ok(text)
}
