//! Laws of what a reference says, each the contract of a call that does nothing.

ghost use Rattle.reference_oracle.specs.Laws.{ReferencesAnswer, ReferencesCanBeAsked, VerdictsAreTested};

/// The test of verdicts, by which a dialog judges, says what verdicts are.
pub fn verdicts_are_tested()
    ensures { VerdictsAreTested }
{}

/// Where a call fits a reference, the reference can be asked, and it answers.
pub fn references_answer()
    ensures asked { ReferencesCanBeAsked }
    ensures answer { ReferencesAnswer }
{}
