// What controls, trains, trolleys and calls do to a line.
ghost use Rattle.std.specs.Prelude.{◌≡◌, ℕ};
ghost use Rattle.answer.specs.Answers.{checked, given_that, unless_refused};
ghost use Rattle.line.specs.Changes.{Judged, action_of, home_moved, reset_called, resume_called, row_after, settled, suspended, trolley_ended, trolley_started};
ghost use Rattle.line.specs.Lines.{entering_answer, entering_makes, home_control_needs, leaving_answer, leaving_makes, reset_needs, resume_needs, stop_control_makes, stop_control_needs, trolley_end_needs, trolley_start_needs};

use super::Line;
use crate::row::{Permission, Row, Signal};
use answer::{Outcome, Refusal, need};
use detector::{Action, Reading};
use events::field::{Place, Position, Station};

impl Line {
    // Moves the stop control, and the stop signal with it.
    pub fn move_stop_control(&mut self, position: Position, reading: Reading) -> Result<(), Refusal>
        ensures { Judged (stop_control_needs position reading self.old) (stop_control_makes position) self.old self.new result }
    {
        let Row {
            permission,
            signals,
            ..
        } = self.row;
        self.row.signals.stop = match position {
            Position::Normal => Signal::On,
            Position::Reversed => {
                need(!signals.suspended, Refusal::LineSuspended)?;
                need(permission.clear_for_train(), Refusal::RecordNotAsNeeded)?;
                need(
                    signals.stop_control == Position::Normal,
                    Refusal::SignalOrControl,
                )?;
                need(reading == Reading::Clear, Refusal::DetectorNotClear)?;
                Signal::Off
            }
        };
        self.row.signals.stop_control = position;
        Ok(())
    }

    // Moves the home control, and the home signal with it. Needs and signal are others than the stop control's: one function
    // for both would take them as closures, longer than they are here.
    pub fn move_home_control(&mut self, position: Position) -> Result<(), Refusal>
        ensures { Judged (home_control_needs position self.old) (home_moved position) self.old self.new result }
    {
        let Row {
            permission,
            signals,
            ..
        } = self.row;
        self.row.signals.home = match position {
            Position::Normal => Signal::On,
            Position::Reversed => {
                need(!signals.suspended, Refusal::LineSuspended)?;
                need(permission.is_coming(), Refusal::RecordNotAsNeeded)?;
                need(
                    signals.home_control == Position::Normal,
                    Refusal::SignalOrControl,
                )?;
                Signal::Off
            }
        };
        self.row.signals.home_control = position;
        Ok(())
    }

    // Suspends the line: both signals go on, and no control moves.
    pub fn suspend(&mut self)
        ensures { self.new ≡ row_after suspended self.old }
    {
        self.row.signals.stop = Signal::On;
        self.row.signals.home = Signal::On;
        self.row.signals.suspended = true;
    }

    // A train enters: under its line clear where the stop signal is off; at on, the line is suspended.
    pub fn enter(&mut self) -> Outcome
        ensures answer { result ≡ entering_answer self.old }
        ensures row { (axles : ℕ) → self.new ≡ row_after (entering_makes axles self.old) self.old }
    {
        match self.row.signals.stop {
            Signal::Off => {
                self.row.permission = self.row.permission.now_used();
                self.row.signals.stop = Signal::On;
                Outcome::Accepted
            }
            Signal::On => {
                self.suspend();
                Outcome::PassedAtOn
            }
        }
    }

    // Axles leave: a train that used its line clear has arrived; where none has, the line is suspended.
    pub fn leave(&mut self) -> Outcome
        ensures answer { result ≡ leaving_answer self.old }
        ensures row { (axles : ℕ) → self.new ≡ row_after (leaving_makes axles self.old) self.old }
    {
        if self.row.permission.used_train() {
            self.row.permission = self.row.permission.now_ended(Place::Arrived);
            self.row.signals.home = Signal::On;
            return Outcome::Accepted;
        }
        self.suspend();
        Outcome::LeftUnexpected
    }

    pub fn start_trolley(&mut self) -> Result<(), Refusal>
        ensures { Judged (trolley_start_needs self.old) trolley_started self.old self.new result }
    {
        need(!self.row.signals.suspended, Refusal::LineSuspended)?;
        need(
            self.row.permission.unused_trolley(),
            Refusal::RecordNotAsNeeded,
        )?;
        self.row.permission = self.row.permission.now_used();
        Ok(())
    }

    pub fn end_trolley(&mut self, place: Place) -> Result<(), Refusal>
        ensures { Judged (trolley_end_needs self.old) (trolley_ended place) self.old self.new result }
    {
        need(
            self.row.permission.running_trolley(),
            Refusal::RecordNotAsNeeded,
        )?;
        self.row.permission = self.row.permission.now_ended(place);
        Ok(())
    }

    // A station calls for a reset of the detector. The other station's call completes it, and then the detector is to be told:
    // so the answer holds a value, and two clauses say what `Judged` says of the others.
    pub fn call_reset(
        &mut self,
        station: Station,
        reading: Reading,
    ) -> Result<Option<Action>, Refusal>
        ensures answer { result ≡ given_that (checked (reset_needs station reading self.old)) (action_of (reset_called station) self.old) }
        ensures row { self.new ≡ unless_refused (checked (reset_needs station reading self.old)) (row_after (reset_called station) self.old) self.old }
    {
        let kept = self.row.calls.reset;
        let needed = reading == Reading::Failed && kept != Some(station);
        need(needed, Refusal::CallNotNeeded)?;
        // The second call, which completes, leaves nobody's.
        self.row.calls.reset = kept.xor(Some(station));
        Ok(kept.map(|_| Action::Reset))
    }

    // A station calls for working to be resumed. The other station's call completes it: the line is closed, with nothing permitted.
    pub fn call_resume(&mut self, station: Station, reading: Reading) -> Result<(), Refusal>
        ensures { Judged (resume_needs station reading self.old) (resume_called station) self.old self.new result }
    {
        let kept = self.row.calls.resume;
        let signals = self.row.signals;
        let needed = signals.suspended && kept != Some(station);
        need(needed, Refusal::CallNotNeeded)?;
        need(signals.both_normal(), Refusal::SignalOrControl)?;
        need(reading == Reading::Clear, Refusal::DetectorNotClear)?;
        if kept.is_some() {
            self.row.permission = Permission::nothing();
            self.row.signals.suspended = false;
        }
        self.row.calls.resume = kept.xor(Some(station));
        Ok(())
    }

    // Puts the stop signal on where the detector does not read clear.
    pub fn settle(&mut self, reading: Reading)
        ensures { self.new ≡ settled reading self.old }
    {
        if reading != Reading::Clear {
            self.row.signals.stop = Signal::On;
        }
    }
}
