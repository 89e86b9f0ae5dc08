//! What the answer of a table is, said of its rows one by one.
ghost use Rattle.std.specs.Prelude.{ℕ, ◌≡◌, List, Some};
ghost use Rattle.pat_cases.specs.Cases.{first_answer};
ghost use Rattle.pat_cases.specs.Matches.{AnswersFirst};
ghost use Rattle.pat_cases.specs.declared.case.Case.{Case};

/// A table answers what a row at some place answers which matches the facts, where no row before it does; and it answers that wherever
/// there is such a row.
pub fn the_first_match_answers()
    ensures answered { (facts : ℕ) (rows : List Case) (answer : ℕ)
        → first_answer facts rows ≡ Some answer → AnswersFirst facts rows answer }
    ensures answers { (facts : ℕ) (rows : List Case) (answer : ℕ)
        → AnswersFirst facts rows answer → first_answer facts rows ≡ Some answer }
{}
