//! What reaches outside, by two meanings: a count of faults that never falls and, where it is told, the content.
ghost use Rattle.std.specs.Prelude.{ℕ, ◌≡◌, ◌<◌, ◌≤◌, ◌-◌, ◌++◌, List, length, take, drop, Option, Some, IfOk, IsOk, IsOkAnd, OnErr};
ghost use Rattle.pat_outside.specs.Outside.{Known, Rose};

/// A call that reaches outside failed: the count of faults of its object rose.
#[derive(Clone, Copy, Debug, PartialEq, Eq)]
pub struct Failed;

/// Where bytes come from.
pub trait Source {
    // The bytes still to come, where they are told.
    ghost rest: { Self → Option (List ℕ) };

    // How many calls failed.
    ghost faults: { Self → ℕ };

    // No call fails from now on.
    ghost is_reliable: { Self → Type 0 };

    /// Reads some of the next bytes into the front of the buffer, and answers how many. A call with a
    /// buffer that isn't empty answers 0 exactly at the end of the content, where that is told.
    fn read(&mut self, buf: &mut [u8]) -> Result<usize, Failed>
        ensures within { IfOk result (λ count. count ≤ length buf.old) }
        ensures bytes { IfOk result (λ count. Known (rest self.old) (λ all. (count ≤ length all) × (take count buf.new ≡ take count all))) }
        ensures after { IfOk result (λ count. Known (rest self.old) (λ all. rest self.new ≡ Some (drop count all))) }
        ensures end { IfOk result (λ count. Known (rest self.old) (λ all. count ≡ 0 → 0 < length buf.old → length all ≡ 0)) }
        ensures same { OnErr result (rest self.new ≡ rest self.old) }
        ensures failed { OnErr result (Rose (faults self.old) (faults self.new)) }
        ensures grows { faults self.old ≤ faults self.new }
        ensures reliable { is_reliable self.old → IsOk result × is_reliable self.new };
}

/// Where bytes go.
pub trait Sink {
    // The bytes that it holds, where they are told.
    ghost content: { Self → Option (List ℕ) };

    // How many calls failed.
    ghost faults: { Self → ℕ };

    // The next so many bytes are taken without a fault.
    ghost can_take: { Self → ℕ → Type 0 };

    /// Writes some of the piece from its front, and answers how many bytes: at least one of a piece that isn't empty.
    fn write(&mut self, piece: &[u8]) -> Result<usize, Failed>
        ensures within { IfOk result (λ count. count ≤ length piece.now) }
        ensures some { IfOk result (λ count. 0 < length piece.now → 0 < count) }
        ensures grown { IfOk result (λ count. Known (content self.old) (λ had. content self.new ≡ Some (had ++ take count piece.now))) }
        ensures same { OnErr result (content self.new ≡ content self.old) }
        ensures failed { OnErr result (Rose (faults self.old) (faults self.new)) }
        ensures grows { faults self.old ≤ faults self.new }
        ensures room { (n : ℕ) → can_take self.old n → length piece.now ≤ n → IsOkAnd result (λ count. can_take self.new (n - count)) };
}
