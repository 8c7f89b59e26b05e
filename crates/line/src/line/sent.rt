// What the bell codes do to a line.
ghost use Rattle.std.specs.Prelude.{◌≡◌, false};
ghost use Rattle.events.specs.Tests.{turn_is};
ghost use Rattle.line.specs.Changes.{Judged};
ghost use Rattle.line.specs.Codes.{acknowledge_needs, acknowledged_with, acknowledging_makes, code_needs, consent_makes, effective_when_sent, send_needs, sending_makes};

use super::Line;
use crate::row::Permission;
use crate::sending::Sending;
use answer::{Refusal, need};
use detector::Reading;
use events::field::{Consent, Turn};

impl Line {
    // A code is sent. Train out, and obstruction removed by the receiving station, free the line at once.
    pub fn send(&mut self, sending: Sending, turn: Turn, reading: Reading) -> Result<(), Refusal>
        ensures { Judged (send_needs sending.code sending.role turn reading self.old) (sending_makes sending.code sending.role) self.old self.new result }
    {
        sending.check_sent(turn, reading, self.row)?;
        if sending.effective_when_sent() {
            self.row.permission = Permission::nothing();
        }
        Ok(())
    }

    // A code that was sent is acknowledged. What took effect when it was sent changes nothing any more.
    pub fn acknowledge(
        &mut self,
        sending: Sending,
        consent: Consent,
        turn: Turn,
        reading: Reading,
    ) -> Result<(), Refusal>
        ensures { Judged (acknowledge_needs sending.code sending.role consent turn reading self.old) (acknowledging_makes sending.code sending.role consent) self.old self.new result }
    {
        let straight = turn == Turn::Straight;
        if consent == Consent::Withheld {
            return need(sending.may_be_withheld() && straight, Refusal::WrongTurn);
        }
        if sending.effective_when_sent() {
            return need(straight, Refusal::WrongTurn);
        }
        self.consent(sending, turn, reading)
    }

    // Consent to a code that has not taken effect yet: everything is looked at again.
    fn consent(&mut self, sending: Sending, turn: Turn, reading: Reading) -> Result<(), Refusal>
        requires { effective_when_sent sending.code sending.role ≡ false }
        ensures { Judged (code_needs sending.code sending.role (turn_is turn (acknowledged_with sending.code self.old.permission)) reading self.old) (consent_makes sending.code sending.role) self.old self.new result }
    {
        let wanted = sending.acknowledged_with(self.row.permission);
        sending.check(turn == wanted, reading, self.row)?;
        self.row.permission = sending.consented(self.row.permission);
        Ok(())
    }
}
