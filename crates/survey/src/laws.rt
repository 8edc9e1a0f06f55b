//! A law of surveys.

ghost use Rattle.std.specs.Prelude.{List, ℕ};
ghost use Rattle.survey.specs.Laws.{HasOneSurvey};

/// What is told of the bytes of a job by the definition is one list of refusals.
pub fn one_survey()
    ensures { (job : List ℕ) → HasOneSurvey job }
{}
