// The track row as a detector. Beside the meaning, each call says what becomes of every track.
ghost use Rattle.std.specs.Prelude.{◌≡◌};
ghost use Rattle.detector.specs.Meaning.{fresh, counted_in, counted_out, failing, restored, rolled};
ghost use Rattle.track_row.specs.TrackRows.{row_meaning};
ghost use Rattle.track_row.specs.Tracks.{no_axles, tracks_in, taken, tracks_rolled};
ghost use Rattle.std.proofs.Common.{rules};

use super::{TRACKS, TrackRow};
use detector::{Detector, LIMIT, Reading};

impl Detector for TrackRow {
    ghost meaning = { row_meaning };

    ghost limited = { Prim.search rules };

    fn fresh() -> TrackRow
        ensures meaning { row_meaning result ≡ fresh }
        ensures tracks { result.tracks ≡ no_axles }
    {
        TrackRow {
            tracks: [0; TRACKS],
            failed: false,
        }
    }

    fn count_in(&mut self, axles: u16)
        ensures meaning { row_meaning self.new ≡ counted_in axles (row_meaning self.old) }
        ensures tracks { self.new.tracks ≡ tracks_in axles self.old.tracks }
    {
        let room = LIMIT - self.axles();
        self.put_on(0, axles.min(room));
        self.failed |= axles > room;
    }

    fn count_out(&mut self, axles: u16)
        ensures meaning { row_meaning self.new ≡ counted_out axles (row_meaning self.old) }
        ensures tracks { self.new.tracks ≡ taken axles self.old.tracks }
    {
        let missing = self.take_off(axles);
        self.failed |= missing > 0;
    }

    fn fail(&mut self)
        ensures meaning { row_meaning self.new ≡ failing (row_meaning self.old) }
        ensures tracks { self.new.tracks ≡ self.old.tracks }
    {
        self.failed = true;
    }

    fn reset(&mut self)
        ensures meaning { row_meaning self.new ≡ restored (row_meaning self.old) }
        ensures tracks { self.new.tracks ≡ no_axles }
    {
        self.tracks = [0; TRACKS];
        self.failed = false;
    }

    fn roll(&mut self, track: u16)
        ensures meaning { row_meaning self.new ≡ rolled track (row_meaning self.old) }
        ensures tracks { self.new.tracks ≡ tracks_rolled track self.old.tracks }
    {
        let from = usize::from(track);
        if from + 1 < TRACKS {
            let moved = self.clear_off(from);
            self.put_on(from + 1, moved);
        }
    }

    fn read(&self) -> Reading {
        // The tracks of one that has failed need not be added up.
        if self.failed {
            return Reading::Failed;
        }
        Reading::of(self.axles(), false)
    }
}
