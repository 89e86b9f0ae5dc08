//! Laws of doors. Each is a function without a body whose contract is what is proved.
ghost use Rattle.std.specs.Prelude.{ℕ, ◌≡◌, ◌+◌, ◌++◌, [], ◌∷◌, List};
ghost use Rattle.pat_door.specs.Doors.{DoorFacts, after_read, after_write};

/// What was answered on earlier connections stays: a write adds at the end of the last answer, that of the present
/// connection, and changes no other.
pub fn earlier_answers_stay()
    ensures { (facts : DoorFacts) (piece answer : List ℕ) (earlier : List (List ℕ)) → facts.answered ≡ earlier ++ answer ∷ []
        → (after_write piece facts).answered ≡ earlier ++ (answer ++ piece) ∷ [] }
{}

/// It doesn't matter in how many pieces a connection is answered, or read; and a piece of nothing changes nothing.
pub fn pieces_make_the_whole()
    ensures nothing { (facts : DoorFacts) → after_write [] facts ≡ facts }
    ensures written { (facts : DoorFacts) (piece next : List ℕ) → after_write next (after_write piece facts) ≡ after_write (piece ++ next) facts }
    ensures read { (facts : DoorFacts) (count more : ℕ) → after_read more (after_read count facts) ≡ after_read (count + more) facts }
{}
