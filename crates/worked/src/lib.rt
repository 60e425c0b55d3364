// Worked cases of the definitions, proved together as one assertion.
#![tactic(auto)]

ghost use Rattle.std.specs.List.{AllByRecursion};
ghost use Rattle.worked.specs.Cases.{Holds, worked_cases};

// Each case of the list holds.
pub fn worked_cases_hold()
    ensures { AllByRecursion Holds worked_cases }
{}
