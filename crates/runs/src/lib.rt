// The rules of the bench, the history of a run, and the laws that hold over every run. No code runs here: what runs is
// proved against these pages.
#![tactic(auto)]

ghost use Rattle.runs.specs.Laws.{Laws};

// Stands for the theorem that its contract states.
pub fn every_run_is_lawful()
    ensures { Laws }
{}
