// The worked cases of the rules as one statement, and examples that are run.
#![tactic(auto)]

ghost use Rattle.worked.specs.Cases.{WorkedCases};

#[cfg(test)]
mod tests;

// Stands for the theorem that its contract states.
pub fn worked_cases_stand()
    ensures { WorkedCases }
{}
