// How many sections a bench has.
ghost use Rattle.std.specs.Prelude.{◌≡◌, MatchResult};
ghost use Rattle.format.specs.Sheets.{SectionCount};
ghost use Rattle.format.specs.declared.fault.RunFault.TheVariants.{Sections};

use crate::fault::RunFault;

// The most sections of a bench.
const MOST_SECTIONS: u16 = 8;

// The count, if a bench may have so many sections. It stays a plain number, as those who take it show and compare it.
pub fn section_count(count: u16) -> Result<u16, RunFault>
    ensures { MatchResult result (λ n. SectionCount count × (n ≡ count)) (λ f. (SectionCount count → ⊥) × (f ≡ Sections)) }
{
    if !(1..=MOST_SECTIONS).contains(&count) {
        return Err(RunFault::Sections);
    }
    Ok(count)
}
