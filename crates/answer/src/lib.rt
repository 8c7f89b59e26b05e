// What an event is answered with, and how a need that fails becomes a refusal.
#![tactic(auto)]

ghost use Rattle.std.specs.Prelude.{◌≡◌, [], ◌∷◌};
ghost use Rattle.answer.specs.Answers.{answer_number, checked, outcome_number, refusal_number};

// Why an event is refused. A discriminant is the refusal's number.
#[derive(Clone, Copy, Debug, PartialEq, Eq)]
pub enum Refusal {
    // The axles or the track of the event are outside their values.
    OutsideValues = 3,
    // The bench has no such section.
    NoSection = 4,
    // The bell is not in the state, or not with the station, that the event needs.
    BellNotReady = 5,
    // The code is not this station's to send.
    WrongStation = 6,
    // The line is suspended.
    LineSuspended = 7,
    // Needle, permit, used or end is not as needed.
    RecordNotAsNeeded = 8,
    // The turn or the consent does not go with the code.
    WrongTurn = 9,
    // A signal or a control is not as needed.
    SignalOrControl = 10,
    // The detector does not read clear.
    DetectorNotClear = 11,
    // Train out, and the train or the trolley has not arrived.
    NotArrived = 12,
    // A reset or a resumption is not needed, or the same station calls twice.
    CallNotNeeded = 13,
}

// How an event is answered that is not refused. A discriminant is the answer's number.
#[derive(Clone, Copy, Debug, PartialEq, Eq)]
pub enum Outcome {
    Accepted = 0,
    // A train passed the stop signal at on.
    PassedAtOn = 90,
    // Axles left a line that no train had used.
    LeftUnexpected = 91,
}

// What an event is answered with.
pub type Answer = Result<Outcome, Refusal>;

impl From<Refusal> for u16 {
    ghost from_gives = { λ refusal n. n ≡ refusal_number refusal };

    fn from(refusal: Refusal) -> u16 {
        refusal as u16
    }
}

impl From<Outcome> for u16 {
    ghost from_gives = { λ outcome n. n ≡ outcome_number outcome };

    fn from(outcome: Outcome) -> u16 {
        outcome as u16
    }
}

// The number that stands for an answer.
pub fn number_of(answer: Answer) -> u16
    ensures { result ≡ answer_number answer }
{
    answer.map_or_else(u16::from, u16::from)
}

// One need of an event: where it does not hold, the event is refused for it.
pub fn need(holds: bool, refusal: Refusal) -> Result<(), Refusal>
    ensures { result ≡ checked ((holds, refusal) ∷ []) }
{
    if holds { Ok(()) } else { Err(refusal) }
}

// Needs are looked at in their order, and the first that does not hold is the refusal. Where they need not all be worked out,
// one `need` after another says the same.
pub fn first_failing(needs: &[(bool, Refusal)]) -> Result<(), Refusal>
    ensures { result ≡ checked needs.now }
{
    for (holds, refusal) in needs {
        need(*holds, *refusal)?;
    }
    Ok(())
}
