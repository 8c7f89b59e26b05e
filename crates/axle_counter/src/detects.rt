// The axle counter as a detector. Beside the meaning, each call says what becomes of both totals.
ghost use Rattle.std.specs.Prelude.{◌≡◌};
ghost use Rattle.axle_counter.specs.AxleCounters.{totals_of, counter_meaning};
ghost use Rattle.axle_counter.specs.Totals.{no_totals, totals_in, totals_out, totals_failing};
ghost use Rattle.detector.specs.Meaning.{fresh, counted_in, counted_out, failing, restored, rolled};
ghost use Rattle.std.proofs.Common.{rules};

use super::{AxleCounter, ROUND};
use detector::{Detector, LIMIT, Reading};

impl Detector for AxleCounter {
    ghost meaning = { counter_meaning };

    ghost limited = { Prim.search rules };

    fn fresh() -> AxleCounter
        ensures meaning { counter_meaning result ≡ fresh }
        ensures totals { totals_of result ≡ no_totals }
    {
        AxleCounter {
            in_total: 0,
            out_total: 0,
            failed: false,
        }
    }

    fn count_in(&mut self, axles: u16)
        ensures meaning { counter_meaning self.new ≡ counted_in axles (counter_meaning self.old) }
        ensures totals { totals_of self.new ≡ totals_in axles (totals_of self.old) }
    {
        let room = LIMIT - self.axles();
        self.in_total = (self.in_total + axles.min(room)) % ROUND;
        self.failed |= axles > room;
    }

    fn count_out(&mut self, axles: u16)
        ensures meaning { counter_meaning self.new ≡ counted_out axles (counter_meaning self.old) }
        ensures totals { totals_of self.new ≡ totals_out axles (totals_of self.old) }
    {
        let here = self.axles();
        self.out_total = (self.out_total + axles.min(here)) % ROUND;
        self.failed |= axles > here;
    }

    fn fail(&mut self)
        ensures meaning { counter_meaning self.new ≡ failing (counter_meaning self.old) }
        ensures totals { totals_of self.new ≡ totals_failing (totals_of self.old) }
    {
        self.failed = true;
    }

    fn reset(&mut self)
        ensures meaning { counter_meaning self.new ≡ restored (counter_meaning self.old) }
        ensures totals { totals_of self.new ≡ no_totals }
    {
        self.in_total = 0;
        self.out_total = 0;
        self.failed = false;
    }

    fn roll(&mut self, track: u16)
        ensures meaning { counter_meaning self.new ≡ rolled track (counter_meaning self.old) }
        ensures totals { totals_of self.new ≡ totals_of self.old }
    {
        // The totals do not tell one track from another.
    }

    fn read(&self) -> Reading {
        // One that has failed need not be reckoned out.
        if self.failed {
            return Reading::Failed;
        }
        Reading::of(self.axles(), false)
    }
}
