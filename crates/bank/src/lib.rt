// Detectors held by value in nested pairs, each told by its number. Past the end of a bank nothing
// happens, and nothing is read.
#![tactic(auto)]

ghost use Rattle.std.specs.Prelude.{◌≡◌, ℕ, ◌*◌, List, length, replicate};
ghost use Rattle.bank.specs.Banks.{single, paired};
ghost use Rattle.bank.specs.Places.{acted_at, read_at};
ghost use Rattle.detector.specs.Meaning.{Meaning, fresh};
ghost use Rattle.std.proofs.Common.{rules};
ghost use Rattle.bank.specs.Sizes.{length_paired};

use detector::{Action, Detector, Reading};

// A row of detectors, known by the list of what they mean.
pub trait Bank {
    ghost meanings: { Self → List Meaning };

    ghost size: { ℕ };

    fn fresh() -> Self
        ensures { meanings result ≡ replicate size fresh };

    fn act(&mut self, at: usize, action: Action)
        ensures { meanings self.new ≡ acted_at at action (meanings self.old) };

    fn read(&self, at: usize) -> Option<Reading>
        ensures { result ≡ read_at at (meanings self.now) };

    ghost sized: { (b : Self) → length (meanings b) ≡ size };
}

// One detector, whose number is 0.
#[derive(Drop)]
pub struct Single<D> {
    detector: D,
}

impl<D: Detector> Bank for Single<D> {
    ghost meanings = { single D.Detector.meaning };

    ghost size = { 1 };

    ghost sized = { Prim.search rules };

    fn fresh() -> Single<D> {
        Single {
            detector: D::fresh(),
        }
    }

    fn act(&mut self, at: usize, action: Action) {
        if at > 0 {
            return;
        }
        // What is told is a value that contracts name: a closure in its place could not be handed out by a line.
        match action {
            Action::CountIn(axles) => self.detector.count_in(axles),
            Action::CountOut(axles) => self.detector.count_out(axles),
            Action::Fail => self.detector.fail(),
            Action::Reset => self.detector.reset(),
            Action::Roll(track) => self.detector.roll(track),
        }
    }

    fn read(&self, at: usize) -> Option<Reading> {
        (at == 0).then(|| self.detector.read())
    }
}

// Two banks of one size: the even numbers are the first one's, the odd ones the second's, and half
// of a number says which detector of its bank it is.
#[derive(Drop)]
pub struct Pair<B> {
    first: B,
    second: B,
}

impl<B: Bank> Bank for Pair<B> {
    ghost meanings = { paired B.Bank.meanings };

    ghost size = { 2 * B.Bank.size };

    ghost sized = { length_paired B.Bank.meanings B.Bank.size B.Bank.sized };

    #[tactic(auto, using(crate::specs::HalvesLemmas::interleaved_replicate))]
    fn fresh() -> Pair<B> {
        Pair {
            first: B::fresh(),
            second: B::fresh(),
        }
    }

    #[tactic(auto, using(crate::specs::HalvesLemmas::acted_at_interleaved))]
    fn act(&mut self, at: usize, action: Action) {
        // Here and in `read` the half is chosen in place: a function that lends one would serve one call, and its clauses
        // would be longer than the choice.
        if at % 2 == 0 {
            self.first.act(at / 2, action);
        } else {
            self.second.act(at / 2, action);
        }
    }

    fn read(&self, at: usize) -> Option<Reading> {
        if at % 2 == 0 {
            self.first.read(at / 2)
        } else {
            self.second.read(at / 2)
        }
    }
}

// Sixteen detectors.
pub type Sixteen<D> = Pair<Pair<Pair<Pair<Single<D>>>>>;
