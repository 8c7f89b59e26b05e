// A whole run: a fresh bench over any kind of detector, and each event of a list in turn.
ghost use Rattle.std.specs.Prelude.{◌≡◌, MatchResult};
ghost use Rattle.block.specs.Faults.{Miscounted};
ghost use Rattle.format.specs.Sheets.{SectionCount};
ghost use Rattle.runs.specs.Benches.{answer_at, bench_after, face_at};
ghost use Rattle.runs.specs.Runs.{RunOf};

use crate::bench::Bench;
use detector::Detector;
use events::event::SectionEvent;
use format::fault::RunFault;
use section::face::Entry;
use std::alloc::Global;

// What a run leaves: what the register has of each event, and the bench.
#[derive(Drop)]
pub struct Completed<D: Detector> {
    pub entries: Vec<Entry>,
    pub bench: Bench<D>,
}

impl<D: Detector> Bench<D> {
    // One event, and what the register has of it.
    fn enter(&mut self, event: SectionEvent) -> Entry
        ensures answer { result.answer ≡ answer_at self.old event }
        ensures face { result.face ≡ face_at event.section self.new }
        ensures bench { self.new ≡ bench_after self.old event }
    {
        Entry {
            answer: self.apply(event),
            face: self.face(event.section),
        }
    }
}

// Answers every event on a fresh bench, in order.
#[tactic(auto, using(crate::proofs::Runs::none_yet))]
pub fn run<D: Detector + Drop>(
    heap: Global,
    sections: u16,
    events: &[SectionEvent],
) -> Result<Completed<D>, RunFault>
    ensures { MatchResult result (λ x. SectionCount sections × RunOf sections events.now x.entries.items x.bench) (Miscounted sections) }
{
    let mut bench = Bench::fresh(heap, sections)?;
    let mut entries = Vec::new(heap);
    // A loop, since an entry that finds no memory ends the run.
    for event in events {
        entries.push(bench.enter(*event))?;
    }
    Ok(Completed { entries, bench })
}
