//! Rows and tables of cases.
ghost use Rattle.std.specs.Prelude.{◌≡◌, ◌↔◌, IsTrue, IsSome, IsNone, All, false};
ghost use Rattle.pat_cases.specs.Cases.{matches, first_answer, is_closed};

/// One row of a table: an answer, and the facts that it is for. Facts are a word with a bit for each.
#[derive(Clone, Copy, PartialEq, Eq)]
pub struct Case {
    /// The facts that the row looks at.
    pub mask: u32,
    /// Those of them that are to hold; the others of the mask are not to.
    pub wanted: u32,
    /// What it answers.
    pub answer: u16,
}

/// Rows in order, of which the first that matches gives the answer. `cases!` writes one.
#[derive(Clone, Copy, PartialEq, Eq)]
pub struct CaseTable<const N: usize> {
    /// The rows, first to last.
    pub rows: [Case; N],
}

impl Case {
    /// Whether the row is for these facts: within its mask just those hold that it wants.
    fn matches(self, facts: u32) -> bool
        ensures { result ≡ matches facts self }
    {
        facts & self.mask == self.wanted
    }
}

impl<const N: usize> CaseTable<N> {
    /// The answer of the first row that matches; `None` exactly where no row does, and so never of a closed table.
    pub fn first(&self, facts: u32) -> Option<u16>
        ensures first { result ≡ first_answer facts self.now.rows }
        ensures none { IsNone result ↔ All (λ row. matches facts row ≡ false) self.now.rows }
        ensures closed { IsTrue (is_closed self.now.rows) → IsSome result }
    {
        first_answer(&self.rows, facts)
    }

    /// Whether some row looks at no fact, and so matches all.
    pub fn closed(&self) -> bool
        ensures { result ≡ is_closed self.now.rows }
    {
        self.rows.iter().any(|row| row.mask == 0 && row.wanted == 0)
    }
}

fn first_answer(rows: &[Case], facts: u32) -> Option<u16>
    ensures first { result ≡ first_answer facts rows.now }
    ensures none { IsNone result ↔ All (λ row. matches facts row ≡ false) rows.now }
{
    rows.iter()
        .find(|row| row.matches(facts))
        .map(|row| row.answer)
}
