// The first line of a listing.
ghost use Rattle.std.specs.Prelude.{Some};
ghost use Rattle.listing.specs.Lines.{sections_text};

use std::fmt;

// Tells the section count.
#[derive(Clone, Copy)]
pub struct SectionsLine(pub u16);

impl fmt::Display for SectionsLine {
    ghost output = { λ x. Some (sections_text x.0) };

    fn fmt<W: fmt::Write>(&self, f: &mut fmt::Formatter<W>) -> fmt::Result {
        let count = self.0;
        write!(f, "sections {count}")
    }
}
