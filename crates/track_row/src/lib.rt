// A detector that keeps the axles on eight tracks. They come in on track 0 and go out from the
// highest one. `detects` has its calls, and what each makes of every track.
#![tactic(auto)]

ghost use Rattle.std.specs.Prelude.{◌≡◌, ◌+◌, ◌-◌, ◌<◌, ◌≤◌, sum, slice_index, slice_set};
ghost use Rattle.detector.specs.Meaning.{limit};
ghost use Rattle.track_row.specs.Tracks.{track_count, with_more, taken};

pub mod detects;

use std::mem;

const TRACKS: usize = 8;

// As in an axle counter, the law of the limit needs ghost fields and no model, and counting goes on after a failure.
#[derive(Drop)]
pub struct TrackRow {
    tracks: [u16; TRACKS],
    failed: bool,
    ghost few: { sum tracks ≤ limit },
}

impl TrackRow {
    fn axles(&self) -> u16
        ensures { result ≡ sum self.now.tracks }
    {
        self.tracks.iter().sum()
    }

    // Each of the three calls below says that `failed` stays: a struct round the array alone would say it, for these three.

    // Puts axles on one track.
    fn put_on(&mut self, at: usize, axles: u16)
        requires within { at < track_count }
        requires room { sum self.old.tracks + axles ≤ limit }
        ensures tracks { self.new.tracks ≡ with_more axles at self.old.tracks }
        ensures sum { sum self.new.tracks ≡ sum self.old.tracks + axles }
        ensures failed { self.new.failed ≡ self.old.failed }
    {
        self.tracks[at] += axles;
    }

    // Empties one track, and says how many axles were on it.
    fn clear_off(&mut self, at: usize) -> u16
        requires { at < track_count }
        ensures tracks { self.new.tracks ≡ slice_set self.old.tracks at 0 }
        ensures axles { result ≡ slice_index self.old.tracks at }
        ensures sum { sum self.new.tracks + result ≡ sum self.old.tracks }
        ensures failed { self.new.failed ≡ self.old.failed }
    {
        mem::take(&mut self.tracks[at])
    }

    // Takes axles off the tracks, the highest one first, and says how many were not there to take.
    #[tactic(auto, using(crate::proofs::Taking::sum_taken))]
    fn take_off(&mut self, axles: u16) -> u16
        ensures tracks { self.new.tracks ≡ taken axles self.old.tracks }
        ensures sum { sum self.new.tracks ≡ sum self.old.tracks - axles }
        ensures missing { result ≡ axles - sum self.old.tracks }
        ensures failed { self.new.failed ≡ self.old.failed }
    {
        let mut rest = axles;
        // By number, since a proof is not told what was written through `iter_mut().rev()`.
        for track in (0..TRACKS).rev() {
            let off = rest.min(self.tracks[track]);
            self.tracks[track] -= off;
            rest -= off;
        }
        rest
    }
}
