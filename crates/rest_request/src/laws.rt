//! Laws of what is read from a connection. Each is a function without a body whose contract is what is proved.
ghost use Rattle.std.specs.Prelude.{◌≡◌, ◌≢◌, ◌⊎◌, ◌++◌, List, ℕ, Ok, Err, None};
ghost use Rattle.httparse.specs.Grammar.{EndsInTarget, NeverHasRequest};
ghost use Rattle.rest_request.specs.declared.fault.RequestFault.TheVariants.{BadHead};
ghost use Rattle.rest_request.specs.Reading.{Begun, IsBegun, answer_of, head_room};

/// Bytes are one thing: they begin with one whole head, or may still become one, or never will. Only where they end within a
/// target may both of the last two be so.
pub fn bytes_are_one_thing()
    ensures { (bytes : List ℕ) (one other : Begun) → IsBegun bytes one → IsBegun bytes other
        → (one ≡ other) ⊎ EndsInTarget (head_room bytes) }
{}

/// However a connection cuts the bytes: what was answered to some of them is answered to them with any more behind them,
/// unless more were asked for.
pub fn answers_stay()
    ensures { (bytes more : List ℕ) (begun : Begun) → IsBegun bytes begun → answer_of bytes begun ≢ Ok None
        → (later : Begun) × IsBegun (bytes ++ more) later × (answer_of (bytes ++ more) later ≡ answer_of bytes begun) }
{}

/// Bytes are refused as a bad head only where no bytes behind those within the limit make them a head.
pub fn bad_heads_never_become_heads()
    ensures { (bytes : List ℕ) (begun : Begun) → IsBegun bytes begun → answer_of bytes begun ≡ Err BadHead
        → NeverHasRequest (head_room bytes) }
{}

/// Where no bytes behind those within the limit make them a head, they are refused as a bad one, unless they end within a
/// target, where more may be asked for.
pub fn what_never_becomes_a_head_is_a_bad_head()
    ensures { (bytes : List ℕ) (begun : Begun) → IsBegun bytes begun → NeverHasRequest (head_room bytes)
        → (answer_of bytes begun ≡ Err BadHead) ⊎ EndsInTarget (head_room bytes) }
{}
