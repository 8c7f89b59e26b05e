// A bell code on its way, and the tables of the codes.
ghost use Rattle.std.specs.Prelude.{◌≡◌};
ghost use Rattle.answer.specs.Answers.{checked};
ghost use Rattle.line.specs.Codes.{acknowledged_with, code_needs, consent_gives, detector_allows, effective_when_sent, end_allows, may_be_withheld, record_allows, role_allows, send_needs, sent_with, signals_allow};
ghost use Rattle.line.specs.Records.{both_normal};

use crate::role::Role;
use crate::row::{End, Needle, Permission, Permit, Row, Signal, Signals};
use answer::{Refusal, need};
use detector::Reading;
use events::field::{Code, Direction, Position, Station, Turn};

// A code, and the end of the line that sends it.
#[derive(Clone, Copy, Debug, PartialEq, Eq)]
pub struct Sending {
    pub code: Code,
    pub role: Role,
}

impl Signals {
    // Both controls stand normal.
    pub(crate) fn both_normal(self) -> bool
        ensures { result ≡ both_normal self }
    {
        self.stop_control == Position::Normal && self.home_control == Position::Normal
    }
}

impl Sending {
    ghost use Rattle.line.specs.Sendings.{sending_by};

    // The code as this station sends it about the line.
    pub fn by(station: Station, line: Direction, code: Code) -> Sending
        ensures { result ≡ sending_by station line code }
    {
        Sending {
            code,
            role: Role::of(station, line),
        }
    }

    // Whether the code is this end's to send. Obstruction removed is sent from the end that the blocking says.
    fn role_allows(self) -> bool
        ensures { result ≡ role_allows self.code self.role }
    {
        match self.code {
            Code::TrainOut | Code::BlockBack => self.role == Role::Receiving,
            Code::ObstructionRemoved => true,
            _ => self.role == Role::Despatching,
        }
    }

    // Whether needle, permit, used and end are as the code needs them.
    fn record_allows(self, permission: Permission) -> bool
        ensures { result ≡ record_allows self.code self.role permission }
    {
        let Permission {
            needle,
            permit,
            used,
            end,
        } = permission;
        match self.code {
            Code::IsLineClear | Code::Trolley | Code::BlockForward | Code::BlockBack => {
                needle == Needle::Closed
            }
            Code::TrainEntering => match permit {
                Permit::Train => needle == Needle::Clear && used,
                Permit::Trolley => used,
                _ => false,
            },
            Code::TrainOut => { needle == Needle::TrainOnLine && permission.train_or_trolley() }
            Code::CancelLast => match permit {
                Permit::Train => needle == Needle::Clear && !used,
                Permit::Trolley => !used || end == End::Returned,
                _ => false,
            },
            Code::ObstructionRemoved => matches!(
                (permit, self.role),
                (Permit::Forward, Role::Despatching) | (Permit::Back, Role::Receiving)
            ),
        }
    }

    // The turn with which the code is sent.
    fn sent_with(self) -> Turn
        ensures { result ≡ sent_with self.code self.role }
    {
        if self.effective_when_sent() {
            Turn::Right
        } else {
            Turn::Straight
        }
    }

    // The turn with which a consent to the code is made.
    pub(crate) fn acknowledged_with(self, permission: Permission) -> Turn
        ensures { result ≡ acknowledged_with self.code permission }
    {
        match (self.code, permission.permit) {
            (Code::IsLineClear | Code::ObstructionRemoved, _) => Turn::Right,
            (Code::TrainEntering | Code::CancelLast, Permit::Train) => Turn::Left,
            (Code::CancelLast, _) => Turn::Right,
            (Code::TrainEntering | Code::TrainOut | Code::BlockBack, _) => Turn::Straight,
            (Code::Trolley | Code::BlockForward, _) => Turn::Left,
        }
    }

    fn signals_allow(self, signals: Signals) -> bool
        ensures { result ≡ signals_allow self.code signals }
    {
        match self.code {
            Code::TrainEntering => signals.stop_control == Position::Normal,
            Code::TrainOut => signals.home_control == Position::Normal,
            Code::CancelLast => signals.stop == Signal::On && signals.both_normal(),
            Code::ObstructionRemoved => true,
            _ => signals.both_normal(),
        }
    }

    fn detector_allows(self, reading: Reading) -> bool
        ensures { result ≡ detector_allows self.code reading }
    {
        matches!(self.code, Code::TrainEntering | Code::CancelLast) || reading == Reading::Clear
    }

    fn end_allows(self, permission: Permission) -> bool
        ensures { result ≡ end_allows self.code permission }
    {
        self.code != Code::TrainOut || permission.end == End::Arrived
    }

    // Whether the code takes effect when it is sent, before it is acknowledged.
    pub(crate) fn effective_when_sent(self) -> bool
        ensures { result ≡ effective_when_sent self.code self.role }
    {
        match self.code {
            Code::TrainOut => true,
            Code::ObstructionRemoved => self.role == Role::Receiving,
            _ => false,
        }
    }

    // Whether consent to the code may be withheld.
    pub(crate) fn may_be_withheld(self) -> bool
        ensures { result ≡ may_be_withheld self.code }
    {
        !matches!(
            self.code,
            Code::TrainEntering | Code::TrainOut | Code::ObstructionRemoved
        )
    }

    // What the code needs of the line, in the order in which a refusal is looked for.
    pub(crate) fn check(self, turned: bool, reading: Reading, row: Row) -> Result<(), Refusal>
        ensures { result ≡ checked (code_needs self.code self.role turned reading row) }
    {
        need(!row.signals.suspended, Refusal::LineSuspended)?;
        need(
            self.record_allows(row.permission),
            Refusal::RecordNotAsNeeded,
        )?;
        need(turned, Refusal::WrongTurn)?;
        need(self.signals_allow(row.signals), Refusal::SignalOrControl)?;
        need(self.detector_allows(reading), Refusal::DetectorNotClear)?;
        need(self.end_allows(row.permission), Refusal::NotArrived)
    }

    // What is needed to send the code: first that it is this end's to send.
    pub(crate) fn check_sent(self, turn: Turn, reading: Reading, row: Row) -> Result<(), Refusal>
        ensures { result ≡ checked (send_needs self.code self.role turn reading row) }
    {
        need(self.role_allows(), Refusal::WrongStation)?;
        self.check(turn == self.sent_with(), reading, row)
    }

    // What a consent to the code makes of the permission.
    pub(crate) fn consented(self, permission: Permission) -> Permission
        ensures { result ≡ consent_gives self.code permission }
    {
        match self.code {
            Code::IsLineClear => Permission::given(Needle::Clear, Permit::Train),
            Code::TrainEntering => permission.now_on_line(),
            Code::TrainOut => permission,
            Code::CancelLast | Code::ObstructionRemoved => Permission::nothing(),
            Code::Trolley => Permission::given(Needle::TrainOnLine, Permit::Trolley),
            Code::BlockForward => Permission::given(Needle::TrainOnLine, Permit::Forward),
            Code::BlockBack => Permission::given(Needle::TrainOnLine, Permit::Back),
        }
    }
}
