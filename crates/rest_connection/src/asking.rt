//! What a connection asks.
ghost use Rattle.std.specs.Prelude.{ℕ, ◌≡◌, ◌≢◌, ◌≤◌, ◌+◌, ◌++◌, ◌⊎◌, ⊤, List, length, take, Some, Result, Err, IfOk, IfSome, OnOk, IsErrOf, MatchResult, IsSome};
ghost use Rattle.pat_outside.specs.Outside.{Known, Rose};
ghost use Rattle.pat_door.specs.Doors.{DoorCall, ReadCounts, Tells, bytes_here, after_read, read_more};
ghost use Rattle.rest_request.specs.declared.fault.RequestFault.{RequestFault};
ghost use Rattle.rest_request.specs.declared.fault.RequestFault.TheVariants as faults;
ghost use Rattle.rest_request.specs.declared.limits.TheConstants.{HEAD_LIMIT, BODY_LIMIT};
ghost use Rattle.rest_message.specs.Requests.{RequestText};
ghost use Rattle.rest_connection.specs.declared.asking.AskError.TheVariants.{Bytes, Connection};
ghost use Rattle.rest_connection.specs.declared.asking.TheConstants.{PIECE};
ghost use Rattle.rest_connection.specs.Connections.{IsRequested, LeavesRest, ReadsToAnswer, read_failed, seen, with_failed_read};

use pat_door::Door;
use pat_outside::Failed;
use rest_message::Request;
use rest_request::{RequestFault, read_request};
use std::alloc::{AllocError, Global};
use thiserror::Error;

/// How many bytes of a connection are asked for in one read.
const PIECE: usize = 4_096;

/// Why no request was read from a connection.
#[derive(Clone, Copy, Debug, PartialEq, Eq, Error)]
pub enum AskError {
    /// The bytes are no request, which is answered 400 (RFC 9110, section 15.5.1), or memory was wanting.
    #[error("{0}")]
    Bytes(RequestFault),
    /// A read of the door failed.
    #[error("connection failed")]
    Connection,
}

impl From<AllocError> for AskError {
    ghost from_gives = { λ _ e. e ≡ Bytes faults.Memory };

    fn from(_: AllocError) -> Self {
        AskError::Bytes(RequestFault::Memory)
    }
}

impl From<RequestFault> for AskError {
    ghost from_gives = { λ fault e. e ≡ Bytes fault };

    fn from(fault: RequestFault) -> Self {
        AskError::Bytes(fault)
    }
}

impl From<Failed> for AskError {
    ghost from_gives = { λ _ e. e ≡ Connection };

    fn from(_: Failed) -> Self {
        AskError::Connection
    }
}

/// The request with which the bytes of the present connection begin, read in as many pieces as it takes (RFC 9112,
/// section 2.2). Where they end before it is whole the fault is `BadHead`. Nothing depends on how the connection cuts them,
/// but where there are more than `HEAD_LIMIT` of which the first end within a target (`cuts_change_nothing`). No read is begun once the bytes
/// have an answer, since a client that waits for it may send no more. What the last read brings behind the request is lost.
pub fn read_request_from<D: Door>(alloc: Global, door: &mut D) -> Result<Request, AskError>
    ensures asked { Known (bytes_here (D.told door.old)) (λ all. (answer : Result RequestText RequestFault) → seen result ≡ Some answer → IsRequested all answer) }
    ensures present { (answer : Result RequestText RequestFault) → seen result ≡ Some answer → Tells (D.told door.old) (λ facts. IsSome facts.here) }
    ensures left { Tells (D.told door.old) (λ facts. LeavesRest (HEAD_LIMIT + (BODY_LIMIT + PIECE)) facts (D.told door.new) (seen result)) }
    ensures failed { IsErrOf result Connection → Rose (D.connection_faults door.old) (D.connection_faults door.new) }
    ensures grows { D.connection_faults door.old ≤ D.connection_faults door.new }
    ensures door { D.door_faults door.new ≡ D.door_faults door.old }
    ensures served { (n : ℕ) → D.serves door.old n → D.serves door.new n }
    ensures reliable { (n : ℕ) → D.takes door.old n → D.takes door.new n × (result ≢ Err Connection) }
    ensures early { IfSome (read_failed result) (λ failed. ReadsToAnswer D.Door door.old door.new failed) }
    ensures spare { (n : ℕ) → D.has_room door.old n → D.has_room door.new n }
    ensures heard { (calls : List DoorCall) → D.heard door.old calls → MatchResult result (λ _. D.heard door.new calls) (λ error. D.heard door.new (with_failed_read error calls)) }
{
    let mut bytes = Vec::new(alloc);
    loop {
        if let Some(request) = read_request(alloc, &bytes)? {
            return Ok(request);
        }
        if read_more(door, &mut bytes)? == 0 {
            return Err(AskError::Bytes(RequestFault::BadHead));
        }
    }
}

/// Reads some of the next bytes of the present connection to the end of the list. No bytes: the connection is at its end.
fn read_more<D: Door>(door: &mut D, bytes: &mut Vec<u8>) -> Result<usize, AskError>
    ensures within { IfOk result (λ count. count ≤ PIECE) }
    ensures added { IfOk result (λ count. length bytes.new.items ≡ length bytes.old.items + count) }
    ensures present { OnOk result (Tells (D.told door.old) (λ facts. IsSome facts.here)) }
    ensures bytes { IfOk result (λ count. Known (bytes_here (D.told door.old)) (λ all. (count ≤ length all) × (bytes.new.items ≡ bytes.old.items ++ take count all))) }
    ensures after { IfOk result (λ count. Tells (D.told door.old) (λ facts. D.told door.new ≡ Some (after_read count facts))) }
    ensures end { IfOk result (λ count. Known (bytes_here (D.told door.old)) (λ all. count ≡ 0 → length all ≡ 0)) }
    ensures left { Tells (D.told door.old) (λ facts. (count : ℕ) × (count ≤ PIECE) × (D.told door.new ≡ Some (after_read count facts))) }
    ensures errors { MatchResult result (λ _. ⊤) (λ error. (error ≡ Bytes faults.Memory) ⊎ (error ≡ Connection)) }
    ensures failed { IsErrOf result Connection → Rose (D.connection_faults door.old) (D.connection_faults door.new) }
    ensures grows { D.connection_faults door.old ≤ D.connection_faults door.new }
    ensures door { D.door_faults door.new ≡ D.door_faults door.old }
    ensures served { (n : ℕ) → D.serves door.old n → D.serves door.new n }
    ensures reliable { (n : ℕ) → D.takes door.old n → D.takes door.new n × (result ≢ Err Connection) }
    ensures counts { (counts : ReadCounts) → D.has_read door.old counts
        → MatchResult result (λ count. D.has_read door.new (read_more count counts)) (λ error. error ≡ Connection → D.has_read door.new counts) }
    ensures spare { (n : ℕ) → D.has_room door.old n → D.has_room door.new n }
    ensures heard { (calls : List DoorCall) → D.heard door.old calls → MatchResult result (λ _. D.heard door.new calls) (λ error. D.heard door.new (with_failed_read error calls)) }
{
    let mut buf = [0u8; PIECE];
    let count = door.read(&mut buf)?;
    bytes.extend_from_slice(&buf[..count])?;
    Ok(count)
}
