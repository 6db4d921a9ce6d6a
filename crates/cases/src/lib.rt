// Cases that every change has to keep, from the text to what it gives: one theorem over their list.
#![tactic(auto)]

ghost use Rattle.cases.specs.Cases.{AllHold, marked_cases};

// Every case of the list holds.
pub fn marked_cases_hold()
    ensures { AllHold marked_cases }
{}
