// A section at work: its bell, and its two lines as lines that keep what every line record keeps.
ghost use Rattle.std.specs.Prelude.{◌≡◌, ℕ, true, false, ◌&&◌, MatchResult};
ghost use Rattle.answer.specs.Answers.{checked, given_that, unless_refused};
ghost use Rattle.line.specs.Lines.{leaving_answer};
ghost use Rattle.line.specs.Records.{consistent};
ghost use Rattle.section.specs.Sections.{done_by, line_needs, lines_after, needs, quietly_accepted, row_of, section_after, section_settled, telling, worked_by};

use crate::per_line::PerLine;
use crate::section::{Readings, Section, Worked};
use answer::{Outcome, Refusal};
use bell::Bell;
use detector::Action;
use events::event::Event;
use events::field::Direction;
use line::line::{Inconsistent, Line};
use line::row::Row;
use line::sending::Sending;
use std::marker::Model;

// Made from a section's record after a check, and written back as one. Clauses see that record.
#[derive(Clone, Copy)]
pub struct Instruments {
    bell: Bell,
    lines: PerLine<Line>,
}

impl Model for Instruments {
    ghost use Rattle.section.specs.declared.section.Section.{Section};

    ghost Value = { Section };

    ghost view = { λ i. record { bell = i.bell; lines = i.lines } };

    ghost inverse = { λ s. record { bell = s.bell; lines = s.lines } };
}

// A section's instruments, where both its rows keep what every line record keeps.
impl TryFrom<Section> for Instruments {
    type Error = Inconsistent;

    ghost try_from_gives = { λ s r. MatchResult r (λ i. (i ≡ s) × ((consistent s.lines.up && consistent s.lines.down) ≡ true)) (λ _. (consistent s.lines.up && consistent s.lines.down) ≡ false) };

    fn try_from(section: Section) -> Result<Instruments, Inconsistent> {
        Ok(Instruments {
            bell: section.bell,
            // Written out, as a closure for `each` could not leave the function by `?`.
            lines: PerLine {
                up: Line::try_from(section.lines.up)?,
                down: Line::try_from(section.lines.down)?,
            },
        })
    }
}

// The record to write back.
impl From<Instruments> for Section {
    ghost from_gives = { λ i s. (s ≡ i) × (consistent s.lines.up ≡ true) × (consistent s.lines.down ≡ true) };

    fn from(instruments: Instruments) -> Section {
        Section {
            bell: instruments.bell,
            lines: PerLine::each(|line| Row::from(*instruments.lines.on(line))),
        }
    }
}

impl Worked {
    // Accepted, and no detector is told anything.
    fn accepted() -> Worked
        ensures { result ≡ quietly_accepted }
    {
        Worked {
            outcome: Outcome::Accepted,
            actions: PerLine::each(|_| None),
        }
    }

    // An answer, and what the detector of one line is told.
    fn telling(outcome: Outcome, line: Direction, action: Option<Action>) -> Worked
        ensures { result ≡ telling outcome line action }
    {
        let mut actions = PerLine::each(|_| None);
        *actions.on_mut(line) = action;
        Worked { outcome, actions }
    }
}

impl Instruments {
    // Axles leave a line. Where none were expected, the other line is suspended too.
    fn leave(&mut self, line: Direction) -> Outcome
        ensures outcome { result ≡ leaving_answer (row_of line self.old) }
        ensures section { (axles : ℕ) → self.new ≡ lines_after self.old (Event.Leave line axles) }
    {
        let outcome = self.lines.on_mut(line).leave();
        if outcome == Outcome::LeftUnexpected {
            self.lines.on_mut(line.other()).suspend();
        }
        outcome
    }

    // What the event does on the lines, and to what their detectors are told. The bell has taken its part already. (Two clauses,
    // here and in `answer`, as at the bell.)
    fn work(&mut self, event: Event, readings: Readings) -> Result<Worked, Refusal>
        ensures answer { result ≡ given_that (checked (line_needs self.old readings event)) (done_by self.old event) }
        ensures section { self.new ≡ unless_refused (checked (line_needs self.old readings event)) (lines_after self.old event) self.old }
    {
        match event {
            Event::Call { .. } | Event::Answer { .. } | Event::Error { .. } => {
                Ok(Worked::accepted())
            }
            Event::Send {
                line,
                station,
                code,
                turn,
            } => {
                let sending = Sending::by(station, line, code);
                let at = self.lines.on_mut(line);
                at.send(sending, turn, *readings.on(line))?;
                Ok(Worked::accepted())
            }
            Event::Acknowledge { consent, turn, .. } => {
                let Bell::Pending { caller, line, code } = self.bell else {
                    return Ok(Worked::accepted());
                };
                let sending = Sending::by(caller, line, code);
                let at = self.lines.on_mut(line);
                at.acknowledge(sending, consent, turn, *readings.on(line))?;
                Ok(Worked::accepted())
            }
            Event::StopControl { line, position } => {
                let at = self.lines.on_mut(line);
                at.move_stop_control(position, *readings.on(line))?;
                Ok(Worked::accepted())
            }
            Event::HomeControl { line, position } => {
                self.lines.on_mut(line).move_home_control(position)?;
                Ok(Worked::accepted())
            }
            Event::Enters { line, axles } => {
                let outcome = self.lines.on_mut(line).enter();
                Ok(Worked::telling(outcome, line, Some(Action::CountIn(axles))))
            }
            Event::Leave { line, axles } => {
                let outcome = self.leave(line);
                Ok(Worked::telling(outcome, line, Some(Action::CountOut(axles))))
            }
            Event::TrolleyStarts { line } => {
                self.lines.on_mut(line).start_trolley()?;
                Ok(Worked::accepted())
            }
            Event::TrolleyEnds { line, place } => {
                self.lines.on_mut(line).end_trolley(place)?;
                Ok(Worked::accepted())
            }
            Event::Fails { line } => Ok(Worked::telling(
                Outcome::Accepted,
                line,
                Some(Action::Fail),
            )),
            Event::Reset { line, station } => {
                let at = self.lines.on_mut(line);
                let action = at.call_reset(station, *readings.on(line))?;
                Ok(Worked::telling(Outcome::Accepted, line, action))
            }
            Event::Resume { line, station } => {
                let at = self.lines.on_mut(line);
                at.call_resume(station, *readings.on(line))?;
                Ok(Worked::accepted())
            }
            Event::Roll { line, track } => Ok(Worked::telling(
                Outcome::Accepted,
                line,
                Some(Action::Roll(track)),
            )),
        }
    }

    // Answers an event by what the detectors read. A refused one leaves bell and lines as they were.
    pub fn answer(&mut self, event: Event, readings: Readings) -> Result<Worked, Refusal>
        ensures answer { result ≡ worked_by self.old readings event }
        ensures section { self.new ≡ unless_refused (checked (needs self.old readings event)) (section_after self.old event) self.old }
    {
        let mut bell = self.bell;
        bell.hear(event)?;
        let worked = self.work(event, readings)?;
        self.bell = bell;
        Ok(worked)
    }

    // Puts the stop signal on of each line whose detector does not read clear.
    pub fn settle(&mut self, readings: Readings)
        ensures { self.new ≡ section_settled readings self.old }
    {
        // Two calls, shorter than a loop over two lines with its invariant.
        self.lines.up.settle(readings.up);
        self.lines.down.settle(readings.down);
    }
}
