//! What a connection asks, as what it brings to a run.
ghost use Rattle.std.specs.Prelude.{ℕ, ◌≡◌, ◌≢◌, ◌≤◌, ◌++◌, ◌∷◌, [], List, Ok, None, is_none, IfOk, IfSome, MatchOption, OnOk};
ghost use Rattle.pat_outside.specs.Outside.{Known, Rose};
ghost use Rattle.pat_door.specs.Doors.{DoorCall, Failed, Tells, after_read, bytes_here};
ghost use Rattle.rest_connection.specs.Connections.{ReadsToAnswer};
ghost use Rattle.serve_model.specs.Connections.{asks_for_a_head, first_visit};
ghost use Rattle.pat_serve.specs.Serving.{IsFaultOf, IsRead};

use cluster_model::Visit;
use pat_door::Door;
use rest_answer::Refusal;
use rest_connection::{AskError, read_request_from};
use rest_message::{Request, Verb};
use rest_request::RequestFault;
use std::alloc::{AllocError, Global};

/// What the present connection of a door asks, or why it is refused. `None`: a read of it failed.
pub(crate) fn asked_on<D: Door>(
    alloc: Global,
    door: &mut D,
) -> Result<Option<Result<Request, Refusal>>, AllocError>
    ensures asks { IfOk result (λ asks. IfSome asks (λ asks. Known (bytes_here (D.told door.old)) (λ all. IsRead all asks))) }
    ensures left { OnOk result (Tells (D.told door.old) (λ facts. (count : ℕ) × (D.told door.new ≡ Some (after_read count facts)))) }
    ensures failed { IfOk result (λ asks. asks ≡ None → Rose (D.connection_faults door.old) (D.connection_faults door.new)) }
    ensures grows { D.connection_faults door.old ≤ D.connection_faults door.new }
    ensures door { D.door_faults door.new ≡ D.door_faults door.old }
    ensures served { (n : ℕ) → D.serves door.old n → D.serves door.new n }
    ensures reliable { (n : ℕ) → D.takes door.old n → D.takes door.new n × (result ≢ Ok None) }
    ensures early { IfOk result (λ asks. ReadsToAnswer D.Door door.old door.new (is_none asks)) }
    ensures spare { (n : ℕ) → D.has_room door.old n → D.has_room door.new n }
    ensures heard { (calls : List DoorCall) → D.heard door.old calls → IfOk result (λ asks. MatchOption asks (D.heard door.new (calls ++ Failed ∷ [])) (λ _. D.heard door.new calls)) }
{
    match read_request_from(alloc, door) {
        Ok(request) => Ok(Some(Ok(request))),
        Err(AskError::Bytes(fault)) => Ok(Some(Err(refusal_of(fault)?))),
        Err(AskError::Connection) => Ok(None),
    }
}

/// Why bytes with this fault are refused. It fails where memory was wanting for them.
fn refusal_of(fault: RequestFault) -> Result<Refusal, AllocError>
    ensures { IfOk result (λ refusal. IsFaultOf refusal fault) }
{
    match fault {
        RequestFault::BadHead => Ok(Refusal::BadHead),
        RequestFault::TooLong => Ok(Refusal::TooLong),
        RequestFault::BadLength => Ok(Refusal::BadLength),
        RequestFault::Memory => Err(AllocError),
    }
}

/// Whether what is replied goes without its body (RFC 9110, section 9.3.2).
pub(crate) fn asks_for_a_head(asks: &Result<Request, Refusal>) -> bool
    ensures { result ≡ asks_for_a_head asks.now }
{
    match asks {
        Ok(request) => request.method == Verb::Head,
        Err(_) => false,
    }
}

/// What a connection brings first.
pub(crate) fn first_visit(asks: Result<Request, Refusal>) -> Visit
    ensures { result ≡ first_visit asks }
{
    match asks {
        Ok(request) => Visit::Request(request),
        Err(refusal) => Visit::Refusal(refusal),
    }
}
