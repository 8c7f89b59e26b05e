// The words in which an event is told.
#![tactic(auto)]

pub mod event_words;
