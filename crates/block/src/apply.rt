// One event on the bench, and what the bench shows.
ghost use Rattle.std.specs.Prelude.{◌≡◌, ◌<◌, length, slice_set};
ghost use Rattle.answer.specs.Answers.{checked, given_that, unless_refused};
ghost use Rattle.block.specs.Tables.{IsSound};
ghost use Rattle.runs.specs.Benches.{answer_at, bench_after, face_at, section_at};
ghost use Rattle.section.specs.Sections.{outcome};
ghost use Rattle.section.specs.States.{state_after, state_needs};

use crate::bench::Bench;
use answer::{Answer, Refusal, need};
use detector::Detector;
use events::event::{Event, SectionEvent};
use section::face::Face;
use section::instruments::Instruments;

impl<D: Detector> Bench<D> {
    // The event on a section: the bell and the lines answer, the detectors are told, and the signals follow what they read.
    // (Two clauses, as at the bell.)
    fn work(&mut self, at: usize, event: Event) -> Answer
        // See `Bench::has`: no type of a number says that it is a section's.
        requires { at < length self.old }
        ensures answer { result ≡ given_that (checked (state_needs (section_at at self.old) event)) (outcome (section_at at self.old).section event) }
        ensures bench { self.new ≡ unless_refused (checked (state_needs (section_at at self.old) event)) (slice_set self.old at (state_after (section_at at self.old) event)) self.old }
    {
        let mut instruments = Instruments::try_from(self.section(at)).unwrap();
        let worked = instruments.answer(event, self.readings(at))?;
        self.tell(at, worked.actions);
        instruments.settle(self.readings(at));
        self.put(at, instruments.into());
        Ok(worked.outcome)
    }

    // Answers one event, whatever its section and its values: axles and track are looked at first, then the section, then
    // what the section needs. A refused one leaves the bench as it was.
    pub fn apply(&mut self, event: SectionEvent) -> Answer
        ensures answer { result ≡ answer_at self.old event }
        ensures bench { self.new ≡ bench_after self.old event }
    {
        let at = usize::from(event.section);
        need(event.event.is_within_values(), Refusal::OutsideValues)?;
        need(self.has(at), Refusal::NoSection)?;
        self.work(at, event.event)
    }

    // What is shown of a section, where the bench has it.
    pub fn face(&self, section: u16) -> Option<Face>
        ensures face { result ≡ face_at section self.now }

        // What the model keeps to itself, of any bench.
        ensures sound { IsSound self.now }
    {
        let at = usize::from(section);
        // Asked by `if`: in a closure for `then` it is not proved that the section is there.
        if !self.has(at) {
            return None;
        }
        Some(self.section(at).face(self.readings(at)))
    }
}
