// Tests of what is permitted on a line, and what a permission becomes.
ghost use Rattle.std.specs.Prelude.{◌≡◌};
ghost use Rattle.line.specs.Changes.{ended_at, now_ended, now_on_line, now_used};
ghost use Rattle.line.specs.Records.{clear_for_train, given, is_coming, running_trolley, train_or_trolley, unused_trolley, used_train};

use crate::row::{End, Needle, Permission, Permit};
use events::field::Place;

impl From<Place> for End {
    ghost from_gives = { λ place end. end ≡ ended_at place };

    fn from(place: Place) -> End {
        match place {
            Place::Arrived => End::Arrived,
            Place::Returned => End::Returned,
        }
    }
}

impl Permission {
    // Nothing is permitted.
    pub(crate) fn nothing() -> Permission
        ensures { result ≡ given Needle.Closed Permit.Nothing }
    {
        Permission::given(Needle::Closed, Permit::Nothing)
    }

    // A permit as it is given.
    pub(crate) fn given(needle: Needle, permit: Permit) -> Permission
        ensures { result ≡ given needle permit }
    {
        Permission {
            needle,
            permit,
            used: false,
            end: End::NotEnded,
        }
    }

    // Line clear for a train that has not entered yet.
    pub(crate) fn clear_for_train(self) -> bool
        ensures { result ≡ clear_for_train self }
    {
        self.needle == Needle::Clear && self.permit == Permit::Train && !self.used
    }

    pub(crate) fn used_train(self) -> bool
        ensures { result ≡ used_train self }
    {
        self.permit == Permit::Train && self.used
    }

    pub(crate) fn unused_trolley(self) -> bool
        ensures { result ≡ unused_trolley self }
    {
        self.permit == Permit::Trolley && !self.used
    }

    // A trolley is on the line.
    pub(crate) fn running_trolley(self) -> bool
        ensures { result ≡ running_trolley self }
    {
        self.permit == Permit::Trolley && self.used && self.end == End::NotEnded
    }

    // A train or a trolley is permitted.
    pub(crate) fn train_or_trolley(self) -> bool
        ensures { result ≡ train_or_trolley self }
    {
        matches!(self.permit, Permit::Train | Permit::Trolley)
    }

    // A train or a trolley is coming, and has not ended.
    pub(crate) fn is_coming(self) -> bool
        ensures { result ≡ is_coming self }
    {
        self.needle == Needle::TrainOnLine && self.train_or_trolley() && self.end == End::NotEnded
    }

    pub(crate) fn now_used(self) -> Permission
        ensures { result ≡ now_used self }
    {
        Permission { used: true, ..self }
    }

    pub(crate) fn now_ended(self, place: Place) -> Permission
        ensures { result ≡ now_ended (ended_at place) self }
    {
        Permission {
            end: End::from(place),
            ..self
        }
    }

    // A train's needle goes to train on line; a trolley's is there already.
    pub(crate) fn now_on_line(self) -> Permission
        ensures { result ≡ now_on_line self }
    {
        if self.permit == Permit::Train {
            Permission {
                needle: Needle::TrainOnLine,
                ..self
            }
        } else {
            self
        }
    }
}
