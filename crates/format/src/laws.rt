// What holds of the format as a whole. Each function stands for a theorem, which its contract states.
ghost use Rattle.format.specs.Sheets.{OneTelling};

// The answers that a sheet can get exclude one another, and so does what is told before them.
pub fn sheets_are_told_in_one_way()
    ensures { OneTelling }
{}
