// A detector that keeps a total of the axles that went in and one of those that came out.
// `detects` has its calls, and what each makes of both totals.
#![tactic(auto)]

ghost use Rattle.std.specs.Prelude.{◌≡◌, ◌<◌, ◌≤◌};
ghost use Rattle.axle_counter.specs.Totals.{round, axles_between};
ghost use Rattle.detector.specs.Meaning.{limit};

pub mod detects;

// Where a total goes round to 0. A count this large would look like none, so the type also keeps
// the limit, which lies below.
const ROUND: u16 = 1024;

// The limit is law for every detector, and a law sees ghost fields but no model's invariant: so the fields are seen.
// It goes on counting once it has failed, so the flag stands beside the totals.
#[derive(Drop)]
pub struct AxleCounter {
    in_total: u16,
    out_total: u16,
    failed: bool,
    ghost in_below: { in_total < round },
    ghost out_below: { out_total < round },
    ghost few: { axles_between in_total out_total ≤ limit },
}

impl AxleCounter {
    fn axles(&self) -> u16
        ensures { result ≡ axles_between self.now.in_total self.now.out_total }
    {
        (self.in_total + ROUND - self.out_total) % ROUND
    }
}
