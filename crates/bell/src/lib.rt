// The bell between the two stations of a section: it takes each event in turn, and says where it is not ready.
#![tactic(auto)]

ghost use Rattle.std.specs.Prelude.{◌≡◌};
ghost use Rattle.answer.specs.Answers.{checked, unless_refused};
ghost use Rattle.bell.specs.Bells.{bell_after, bell_needs};

use answer::Refusal;
use events::event::Event;
use events::field::{Code, Direction, Station};

#[derive(Clone, Copy, Debug, PartialEq, Eq)]
pub enum Bell {
    Idle,
    // A station has called the other.
    Called {
        caller: Station,
    },
    // The other has answered, so the caller may send.
    Attentive {
        caller: Station,
    },
    // The caller has sent a code about a line, which the other has to acknowledge.
    Pending {
        caller: Station,
        line: Direction,
        code: Code,
    },
}

impl Bell {
    // Moves as the event says. An event that is none of the bell's leaves it. (`Judged`, in `line`, says two such clauses at once
    // of lines; over every state and answer it would take more arguments than they have parts.)
    pub fn hear(&mut self, event: Event) -> Result<(), Refusal>
        ensures answer { result ≡ checked (bell_needs self.old event) }
        ensures bell { self.new ≡ unless_refused (checked (bell_needs self.old event)) (bell_after self.old event) self.old }
    {
        *self = match (*self, event) {
            (Bell::Idle, Event::Call { station }) => Bell::Called { caller: station },
            (Bell::Called { caller }, Event::Answer { station }) if station != caller => {
                Bell::Attentive { caller }
            }
            (
                Bell::Attentive { caller },
                Event::Send {
                    line,
                    station,
                    code,
                    ..
                },
            ) if station == caller => Bell::Pending { caller, line, code },
            (Bell::Pending { caller, .. }, Event::Acknowledge { station, .. })
                if station != caller => { Bell::Idle }
            (Bell::Idle, Event::Error { .. }) => return Err(Refusal::BellNotReady),
            (_, Event::Error { .. }) => Bell::Idle,
            (
                _,
                Event::Call { .. }
                | Event::Answer { .. }
                | Event::Send { .. }
                | Event::Acknowledge { .. },
            ) => return Err(Refusal::BellNotReady),
            (bell, _) => bell,
        };
        Ok(())
    }
}
