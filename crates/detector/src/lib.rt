// What an occupancy detector is. Whatever the kind, its calls are known by what they make of its
// meaning; each kind is a crate of its own.
#![tactic(auto)]

ghost use Rattle.std.specs.Prelude.{◌≡◌, ◌≤◌};
ghost use Rattle.detector.specs.Meaning.{Meaning, counting, limit, fresh, reading_of};
ghost use Rattle.detector.specs.Meaning.{counted_in, counted_out, failing, restored, rolled};

// The most axles that a detector counts.
pub const LIMIT: u16 = 1000;

// What a detector shows.
#[derive(Clone, Copy, Debug, PartialEq, Eq)]
pub enum Reading {
    Clear,
    Occupied,
    Failed,
}

impl Reading {
    // What a detector shows that counts so many axles, failed or not.
    pub fn of(axles: u16, failed: bool) -> Reading
        ensures { result ≡ reading_of (counting axles failed) }
    {
        if failed {
            Reading::Failed
        } else if axles == 0 {
            Reading::Clear
        } else {
            Reading::Occupied
        }
    }
}

// What a detector is told, as a value: a line's answer carries it to the detector's bank.
#[derive(Clone, Copy, Debug, PartialEq, Eq)]
pub enum Action {
    CountIn(u16),
    CountOut(u16),
    Fail,
    Reset,
    Roll(u16),
}

// No call refuses: what cannot be counted leaves a detector that has failed.
pub trait Detector {
    ghost meaning: { Self → Meaning };

    fn fresh() -> Self
        ensures { meaning result ≡ fresh };

    fn count_in(&mut self, axles: u16)
        ensures { meaning self.new ≡ counted_in axles (meaning self.old) };

    fn count_out(&mut self, axles: u16)
        ensures { meaning self.new ≡ counted_out axles (meaning self.old) };

    fn fail(&mut self)
        ensures { meaning self.new ≡ failing (meaning self.old) };

    fn reset(&mut self)
        ensures { meaning self.new ≡ restored (meaning self.old) };

    fn roll(&mut self, track: u16)
        ensures { meaning self.new ≡ rolled track (meaning self.old) };

    fn read(&self) -> Reading
        ensures { result ≡ reading_of (meaning self.now) };

    ghost limited: { (d : Self) → (meaning d).axles ≤ limit };
}
