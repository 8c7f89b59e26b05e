// Examples of sheets and of detectors, run as well as proved.
use axle_counter::AxleCounter;
use detector::{Detector, Reading as Shown};
use events::event::{Event, LocatedEvent};
use format::fault::{RunFault, Stop};
use reader::reading::Reading;
use track_row::TrackRow;

fn is_call(located: &LocatedEvent) -> bool {
    matches!(located.told.event, Event::Call { .. })
}

#[test]
fn a_sound_sheet_is_told_whole(rt: HostRuntime) {
    let mut reading = Reading::new(rt.alloc());
    assert!(rt; reading.read(&[2, 0, 129, 0, 1, 7, 1, 0, 129, 122]).is_ok());
    assert!(rt; reading.sections == Some(2));
    assert!(rt; reading.events.len() == 2);
    assert!(rt; is_call(&reading.events[0]));
    assert!(rt; reading.events[0].told.section == 128);
    assert!(rt; reading.events[1].offset == 5);
}

#[test]
fn events_before_a_fault_are_kept(rt: HostRuntime) {
    let mut reading = Reading::new(rt.alloc());
    let fault = reading.read(&[1, 0, 0, 0, 15]).err();
    assert_eq!(rt;
        fault.and_then(RunFault::stop),
        Some(Stop {
            number: 3,
            offset: 4
        })
    );
    assert!(rt; reading.sections == Some(1));
    assert!(rt; reading.events.len() == 1);
}

#[test]
fn nine_sections_are_too_many(rt: HostRuntime) {
    let mut reading = Reading::new(rt.alloc());
    assert_eq!(rt; reading.read(&[9]), Err(RunFault::Sections));
    assert!(rt; reading.sections.is_none());
}

// A counter goes round, and a row is emptied from its highest track: both show the same.
fn through<D: Detector>(detector: &mut D) -> [Shown; 4] {
    detector.count_in(1000);
    let full = detector.read();
    detector.count_out(1000);
    detector.count_in(40);
    detector.roll(0);
    let rolled = detector.read();
    detector.count_out(40);
    let empty = detector.read();
    detector.count_out(1);
    [full, rolled, empty, detector.read()]
}

const SHOWN: [Shown; 4] = [
    Shown::Occupied,
    Shown::Occupied,
    Shown::Clear,
    Shown::Failed,
];

#[test]
fn every_detector_shows_the_same(rt: HostRuntime) {
    let mut counter = AxleCounter::fresh();
    let mut row = TrackRow::fresh();
    assert_eq!(rt; through(&mut counter), SHOWN);
    assert_eq!(rt; through(&mut row), SHOWN);
    counter.reset();
    assert_eq!(rt; counter.read(), Shown::Clear);
}
