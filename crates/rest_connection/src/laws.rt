//! Laws of what connections ask. Each is a function without a body whose contract is what is proved.
ghost use Rattle.std.specs.Prelude.{ℕ, ◌≡◌, ◌⊎◌, ◌<◌, List, Result, length};
ghost use Rattle.httparse.specs.Grammar.{EndsInTarget};
ghost use Rattle.rest_request.specs.declared.limits.TheConstants.{HEAD_LIMIT};
ghost use Rattle.rest_request.specs.declared.fault.RequestFault.{RequestFault};
ghost use Rattle.rest_request.specs.Reading.{head_room};
ghost use Rattle.rest_message.specs.Requests.{RequestText};
ghost use Rattle.rest_connection.specs.Connections.{IsRequested};

/// However a connection cuts its bytes, they ask one thing. Only where there are more of them than a head may have, and
/// those within that limit end within a target, may they ask one thing or another.
pub fn cuts_change_nothing()
    ensures { (all : List ℕ) (one other : Result RequestText RequestFault) → IsRequested all one → IsRequested all other
        → (one ≡ other) ⊎ (EndsInTarget (head_room all) × (HEAD_LIMIT < length all)) }
{}
