//! What is answered on a connection.
ghost use Rattle.std.specs.Prelude.{ℕ, ◌≡◌, ◌≢◌, ◌≤◌, ◌<◌, ◌-◌, ◌++◌, ◌∷◌, [], List, length, Some, Result, Err, IsOk, IsSome, MatchResult, OnOk, OnErr, IsErrOf};
ghost use Rattle.pat_outside.specs.Outside.{Rose};
ghost use Rattle.pat_door.specs.Doors.{DoorCall, Failed as LineFailed, ReadCounts, Tells, after_write};
ghost use Rattle.rest_message.specs.Replies.{reply_text};
ghost use Rattle.rest_reply.specs.Replies.{reply_bytes};
ghost use Rattle.rest_connection.specs.declared.replying.ReplyError.TheVariants.{Memory, Connection};
ghost use Rattle.rest_connection.specs.Answers.{WritesFront, with_failed_write};

use pat_door::Door;
use pat_outside::Failed;
use rest_message::Reply;
use rest_reply::print_reply;
use std::alloc::{AllocError, Global};
use thiserror::Error;

/// Why a reply wasn't written to a connection.
#[derive(Clone, Copy, Debug, PartialEq, Eq, Error)]
pub enum ReplyError {
    /// Memory was wanting, and nothing was written.
    #[error("out of memory")]
    Memory,
    /// A write of the door failed, and a front of the reply was written.
    #[error("connection failed")]
    Connection,
}

impl From<AllocError> for ReplyError {
    ghost from_gives = { λ _ e. e ≡ Memory };

    fn from(_: AllocError) -> Self {
        ReplyError::Memory
    }
}

impl From<Failed> for ReplyError {
    ghost from_gives = { λ _ e. e ≡ Connection };

    fn from(_: Failed) -> Self {
        ReplyError::Connection
    }
}

/// Writes a reply on the present connection, whole (RFC 9112, section 2.1), or with `head_only` without its body (RFC 9110,
/// section 9.3.2). Where a write fails, a front of it was written; for want of memory, nothing.
pub fn write_reply_to<D: Door>(
    alloc: Global,
    door: &mut D,
    reply: &Reply,
    head_only: bool,
) -> Result<(), ReplyError>
    ensures written { OnOk result (Tells (D.told door.old) (λ facts. D.told door.new ≡ Some (after_write (reply_bytes (reply_text reply.now) head_only) facts))) }
    ensures present { OnOk result (Tells (D.told door.old) (λ facts. IsSome facts.here)) }
    ensures front { OnErr result (WritesFront (D.told door.old) (D.told door.new) (reply_bytes (reply_text reply.now) head_only)) }
    ensures memory { IsErrOf result Memory → door.new ≡ door.old }
    ensures failed { IsErrOf result Connection → Rose (D.connection_faults door.old) (D.connection_faults door.new) }
    ensures grows { D.connection_faults door.old ≤ D.connection_faults door.new }
    ensures door { D.door_faults door.new ≡ D.door_faults door.old }
    ensures served { (n : ℕ) → D.serves door.old n → D.serves door.new n }
    ensures room { (n : ℕ) → D.takes door.old n → length (reply_bytes (reply_text reply.now) head_only) ≤ n
        → MatchResult result (λ _. D.takes door.new (n - length (reply_bytes (reply_text reply.now) head_only))) (λ error. error ≢ Connection) }
    ensures spare { (n : ℕ) → D.has_room door.old n → OnOk result (D.has_room door.new (n - length (reply_bytes (reply_text reply.now) head_only))) }
    ensures heard { (calls : List DoorCall) → D.heard door.old calls → MatchResult result (λ _. D.heard door.new calls) (λ error. D.heard door.new (with_failed_write error calls)) }
    ensures counts { (counts : ReadCounts) → D.has_read door.old counts → D.has_read door.new counts }
{
    let bytes = print_reply(alloc, reply, head_only)?;
    write_whole(door, &bytes)?;
    Ok(())
}

/// Writes all bytes on the present connection.
fn write_whole<D: Door>(door: &mut D, bytes: &[u8]) -> Result<(), Failed>
    ensures written { OnOk result (Tells (D.told door.old) (λ facts. D.told door.new ≡ Some (after_write bytes.now facts))) }
    ensures present { 0 < length bytes.now → OnOk result (Tells (D.told door.old) (λ facts. IsSome facts.here)) }
    ensures front { OnErr result (WritesFront (D.told door.old) (D.told door.new) bytes.now) }
    ensures failed { OnErr result (Rose (D.connection_faults door.old) (D.connection_faults door.new)) }
    ensures grows { D.connection_faults door.old ≤ D.connection_faults door.new }
    ensures door { D.door_faults door.new ≡ D.door_faults door.old }
    ensures served { (n : ℕ) → D.serves door.old n → D.serves door.new n }
    ensures room { (n : ℕ) → D.takes door.old n → length bytes.now ≤ n → IsOk result × D.takes door.new (n - length bytes.now) }
    ensures spare { (n : ℕ) → D.has_room door.old n → OnOk result (D.has_room door.new (n - length bytes.now)) }
    ensures heard { (calls : List DoorCall) → D.heard door.old calls → MatchResult result (λ _. D.heard door.new calls) (λ _. D.heard door.new (calls ++ LineFailed ∷ [])) }
    ensures counts { (counts : ReadCounts) → D.has_read door.old counts → D.has_read door.new counts }
{
    let mut at = 0;
    while at < bytes.len() {
        at += door.write(&bytes[at..])?;
    }
    Ok(())
}
