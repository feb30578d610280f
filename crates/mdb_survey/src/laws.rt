//! Laws of what is surveyed, in whatever form its lines are. Each function's contract is the law,
//! and its body calls the laws that it rests on.

ghost use Rattle.std.specs.Prelude.{◌≡◌, ℕ, List, Result};
ghost use Rattle.mdb_bus.specs.declared.scope.Scope.{Scope};
ghost use Rattle.mdb_surveyor.specs.declared.summary.Summary.{Summary};
ghost use Rattle.mdb_verdict.specs.declared.fault.RunFault.{RunFault};
ghost use Rattle.mdb_surveyor.specs.Lines.{LineForm};
ghost use Rattle.mdb_survey.specs.Survey.{IsSurveying};
ghost use Rattle.mdb_verdict.specs.Telling.{IsOwnAnswer};

use mdb_surveyor::laws as stretches;

/// The records of a text are surveyed in at most one way of their own: what is answered, and what
/// is written.
pub fn texts_are_surveyed_in_one_way()
    ensures { (form : LineForm) (scope : Scope) (records : List (List (List ℕ)))
        (read more : ℕ) (a b : Result Summary RunFault) (s t : List ℕ)
        → IsSurveying form scope records read a s → IsSurveying form scope records more b t
        → IsOwnAnswer a → IsOwnAnswer b → (a ≡ b) × (s ≡ t) }
{
    stretches::rows_have_one_survey();
}

/// Records that are surveyed in one form, with whatever answer, are surveyed in any other with the
/// same answer: so what is told differs in its form alone.
pub fn texts_are_surveyed_alike_in_all_forms()
    ensures { (form other : LineForm) (scope : Scope) (records : List (List (List ℕ)))
        (read : ℕ) (answer : Result Summary RunFault) (text : List ℕ)
        → IsSurveying form scope records read answer text
        → (same : List ℕ) × IsSurveying other scope records read answer same }
{}
