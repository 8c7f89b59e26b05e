// The state of the bench, and what reads and writes it. Nobody else can.
ghost use Rattle.std.specs.Prelude.{◌≡◌, ◌+◌, ◌*◌, ◌<◌, ◌≤◌, ◌↔◌, IsTrue, All, length, vec_len, slice_index_or, slice_set, MatchResult};
ghost use Rattle.bank.specs.Banks.{sixteen};
ghost use Rattle.bank.specs.Places.{no_detector};
ghost use Rattle.block.specs.Faults.{Miscounted};
ghost use Rattle.block.specs.Tables.{Consistent, IsSound, states, with_detectors, with_section};
ghost use Rattle.format.specs.Sheets.{SectionCount};
ghost use Rattle.runs.specs.Benches.{BenchState, fresh_bench, section_at};
ghost use Rattle.section.specs.States.{state_readings, told};

use bank::{Bank, Sixteen};
use detector::{Action, Detector};
use format::fault::RunFault;
use format::sections::section_count;
use section::per_line::PerLine;
use section::section::{Actions, Readings, Section};
use std::alloc::Global;
use std::marker::Model;

// Sections are plain records in a table, and detectors are held by value in a bank, told by number (docs/DECISIONS.md).
#[derive(Drop)]
pub struct Bench<D: Detector> {
    sections: Vec<Section>,
    bank: Sixteen<D>,
}

// Clauses see the bench of the rules.
impl<D: Detector> Model for Bench<D> {
    ghost Value = { BenchState };

    ghost view = { λ b. states b.sections.items (sixteen D.Detector.meaning b.bank) };

    ghost invariant = { λ b. (vec_len b.sections ≤ 8) × All Consistent b.sections.items };
}

// The numbers of a section's detectors in the bank: this is where the two lines differ.
fn detectors_of(at: usize) -> PerLine<usize>
    requires { at < 8 }
    ensures { result ≡ record { up = 2 * at; down = 2 * at + 1 } }
{
    let up = 2 * at;
    PerLine { up, down: up + 1 }
}

// Tells a detector of a bank something, or nothing.
fn tell<B: Bank>(bank: &mut B, at: usize, action: Option<Action>)
    ensures { B.Bank.meanings bank.new ≡ slice_set (B.Bank.meanings bank.old) at (told action (slice_index_or (B.Bank.meanings bank.old) at no_detector)) }
{
    if let Some(action) = action {
        bank.act(at, action);
    }
}

impl<D: Detector> Bench<D> {
    // A bench of 1 to 8 sections on which nothing has happened.
    pub fn fresh(heap: Global, sections: u16) -> Result<Bench<D>, RunFault>
        ensures { MatchResult result (λ b. SectionCount sections × (b ≡ fresh_bench sections)) (Miscounted sections) }
    {
        let count = section_count(sections)?;
        Ok(Bench {
            sections: vec![in heap; Section::fresh(); usize::from(count)]?,
            bank: Bank::fresh(),
        })
    }

    // Which numbers are sections depends on the bench, so no type of a number can say it, and the calls below ask for it.
    #[tactic(auto, using(crate::proofs::Tables::length_states))]
    pub(crate) fn has(&self, at: usize) -> bool
        ensures has { IsTrue result ↔ (at < length self.now) }
        ensures sound { IsSound self.now }
    {
        at < self.sections.len()
    }

    // The record of a section, as it was put.
    #[tactic(auto, using(crate::proofs::Tables::length_states, crate::proofs::Tables::record_at))]
    pub(crate) fn section(&self, at: usize) -> Section
        requires { at < length self.now }
        ensures section { result ≡ (section_at at self.now).section }
        ensures consistent { Consistent result }
    {
        self.sections[at]
    }

    #[tactic(auto, using(crate::proofs::Tables::length_states, crate::proofs::Tables::put_at))]
    pub(crate) fn put(&mut self, at: usize, section: Section)
        requires within { at < length self.old }
        requires consistent { Consistent section }
        ensures { self.new ≡ slice_set self.old at (with_section section (section_at at self.old)) }
    {
        self.sections[at] = section;
    }

    // What the two detectors of a section read.
    #[tactic(auto, using(crate::proofs::Tables::length_states, crate::proofs::Tables::is_read))]
    pub(crate) fn readings(&self, at: usize) -> Readings
        requires { at < length self.now }
        ensures { result ≡ state_readings (section_at at self.now) }
    {
        let bank = &self.bank;
        let detectors = detectors_of(at);
        // Written out: `each` asks something of its closure, so it stays inside its crate.
        PerLine {
            up: bank.read(detectors.up).unwrap(),
            down: bank.read(detectors.down).unwrap(),
        }
    }

    // Tells each of the two detectors of a section something, or nothing.
    #[tactic(auto, using(crate::proofs::Tables::length_states))]
    pub(crate) fn tell(&mut self, at: usize, actions: Actions)
        requires { at < length self.old }
        ensures { self.new ≡ slice_set self.old at (with_detectors (told actions.up (section_at at self.old).up) (told actions.down (section_at at self.old).down) (section_at at self.old)) }
    {
        let bank = &mut self.bank;
        let detectors = detectors_of(at);
        // Two calls, shorter than a loop over two lines with its invariant.
        tell(bank, detectors.up, actions.up);
        tell(bank, detectors.down, actions.down);
    }
}
