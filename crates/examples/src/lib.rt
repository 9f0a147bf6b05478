// Worked lines, by the definitions of what a sheet's trees are, what a take tells, what a file holds and what brackets show.
#![tactic(auto)]

ghost use Rattle.examples.specs.Lines.{Right};
ghost use Rattle.examples.specs.Worked.{worked_lines};
ghost use Rattle.std.specs.List.{AllByRecursion};

/// Each line has just the answers that are listed.
pub fn worked_lines()
    ensures { AllByRecursion Right worked_lines }
{}
