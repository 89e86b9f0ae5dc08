//! What an agent replied, read off events, and written to a connection.
ghost use Rattle.std.specs.Prelude.{ℕ, List, ◌≡◌, ◌≢◌, ◌≤◌, ◌-◌, Ok, Some, true, false, length, IfOk, OnOk, option_map};
ghost use Rattle.pat_outside.specs.Outside.{Rose};
ghost use Rattle.pat_door.specs.Doors.{DoorCall, ReadCounts, Tells, after_write};
ghost use Rattle.rest_message.specs.Replies.{reply_text};
ghost use Rattle.rest_reply.specs.Replies.{reply_bytes};
ghost use Rattle.serve_model.specs.Connections.{IsSent, reply_by, reply_in};
ghost use Rattle.pat_serve.specs.Serving.{calls_by, course_of};

use event_book::{Event, EventKind, Note};
use pat_base::MemberId;
use pat_door::Door;
use rest_connection::{ReplyError, write_reply_to};
use rest_message::Reply;
use std::alloc::{AllocError, Global};

/// The first reply of the agent of this member among events. It fails only for want of memory.
pub(crate) fn reply_in(
    alloc: Global,
    member: MemberId,
    events: &[Event],
) -> Result<Option<Reply>, AllocError>
    ensures { IfOk result (λ reply. option_map reply_text reply ≡ reply_in member events.now) }
{
    for event in events {
        if let Some(reply) = reply_by(alloc, member, &event.kind)? {
            return Ok(Some(reply));
        }
    }
    Ok(None)
}

/// What the agent of this member replies by an event, if it does.
fn reply_by(alloc: Global, member: MemberId, kind: &EventKind) -> Result<Option<Reply>, AllocError>
    ensures { IfOk result (λ reply. option_map reply_text reply ≡ reply_by member kind.now) }
{
    match kind {
        EventKind::Note(
            Note::Answered {
                agent,
                status,
                json,
                body,
            },
        ) if agent.id.number == member.number => Ok(Some(Reply {
            status: *status,
            json: *json,
            body: String::from_str(alloc, body.as_str())?,
        })),
        _ => Ok(None),
    }
}

/// Writes a reply to the present connection of a door, and answers whether all of it was written.
pub(crate) fn is_written<D: Door>(
    alloc: Global,
    door: &mut D,
    reply: &Reply,
    head_only: bool,
) -> Result<bool, AllocError>
    ensures sent { IfOk result (λ whole. Tells (D.told door.old) (λ facts. (sent : List ℕ) × IsSent (course_of whole) (reply_bytes (reply_text reply.now) head_only) sent × (D.told door.new ≡ Some (after_write sent facts)))) }
    ensures failed { IfOk result (λ whole. whole ≡ false → Rose (D.connection_faults door.old) (D.connection_faults door.new)) }
    ensures grows { D.connection_faults door.old ≤ D.connection_faults door.new }
    ensures door { D.door_faults door.new ≡ D.door_faults door.old }
    ensures served { (n : ℕ) → D.serves door.old n → D.serves door.new n }
    ensures room { (n : ℕ) → D.takes door.old n → length (reply_bytes (reply_text reply.now) head_only) ≤ n → result ≢ Ok false }
    ensures spare { (n : ℕ) → D.has_room door.old n → IfOk result (λ whole. whole ≡ true → D.has_room door.new (n - length (reply_bytes (reply_text reply.now) head_only))) }
    ensures heard { (calls : List DoorCall) → D.heard door.old calls → IfOk result (λ whole. D.heard door.new (calls_by (course_of whole) calls)) }
    ensures counts { (counts : ReadCounts) → D.has_read door.old counts → D.has_read door.new counts }
{
    match write_reply_to(alloc, door, reply, head_only) {
        Ok(()) => Ok(true),
        Err(ReplyError::Connection) => Ok(false),
        Err(ReplyError::Memory) => Err(AllocError),
    }
}
