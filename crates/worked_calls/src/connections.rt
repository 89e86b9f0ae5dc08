//! Requests read from a connection of a door, and replies written to it.
use crate::requests::request_text;
use crate::stop::{Stop, known};
use crate::words::first_word;
use pat_door::{Door, MemoryDoor};
use rest_connection::{AskError, ReplyError, read_request_from, write_reply_to};
use rest_message::{Reply, Request};
use rest_reply::print_reply;
use std::alloc::{AllocError, Global};
use worked_cases::{bytes_of, line_of};

/// What comes of a connection. `reads BYTES` and `reads-failing CALL BYTES` read a request; `reads-long COUNT CALL` one with a content of
/// so many bytes, of which their number is told; the call of this number fails, the first being that which accepts the connection.
/// `writes ROOM JSON` and `writes-head ROOM JSON` write a reply where there is room for so many bytes; `prints STATUS TEXT` and `prints-head STATUS TEXT` print one.
pub fn told(alloc: Global, asked: &str) -> Result<String, Stop> {
    let (word, rest) = first_word(asked);
    let (number, text) = first_word(rest);
    match word {
        "reads" => Ok(asked_text(alloc, &bytes_of(alloc, rest)?, 0)?),
        "reads-failing" => {
            let fails = known(number.parse().ok())?;
            Ok(asked_text(alloc, &bytes_of(alloc, text)?, fails)?)
        }
        "reads-long" => {
            let bytes = long_request(alloc, known(number.parse().ok())?)?;
            content_length(alloc, &bytes, known(text.parse().ok())?)
        }
        "writes" => written(alloc, known(number.parse().ok())?, text, false),
        "writes-head" => written(alloc, known(number.parse().ok())?, text, true),
        "prints" => printed(alloc, known(number.parse().ok())?, text, false),
        "prints-head" => printed(alloc, known(number.parse().ok())?, text, true),
        _ => Err(Stop::Unknown),
    }
}

/// A door whose one connection brings these bytes and is accepted, with room for so many bytes of an answer. The call of this
/// number fails; the first is that which accepts it.
fn accepted(
    alloc: Global,
    bytes: &[u8],
    room: usize,
    fails: u64,
) -> Result<MemoryDoor, AllocError> {
    let connection = Vec::from_slice(alloc, bytes)?;
    let connections = vec![in alloc; connection]?;
    let mut door = MemoryDoor::new(alloc, connections, room, vec![in alloc; fails]?)?;
    let _ = door.accept();
    Ok(door)
}

/// What a connection asks with these bytes, where this call fails.
fn asked(alloc: Global, bytes: &[u8], fails: u64) -> Result<Request, AskError> {
    let mut door = accepted(alloc, bytes, 0, fails)?;
    read_request_from(alloc, &mut door)
}

fn asked_text(alloc: Global, bytes: &[u8], fails: u64) -> Result<String, AllocError> {
    match asked(alloc, bytes, fails) {
        Ok(request) => request_text(alloc, &request),
        Err(fault) => format!(in alloc; "{fault}"),
    }
}

fn content_length(alloc: Global, bytes: &[u8], fails: u64) -> Result<String, Stop> {
    match asked(alloc, bytes, fails) {
        Ok(request) => Ok(format!(in alloc; "{}", request.body.len())?),
        Err(_) => Err(Stop::Unknown),
    }
}

fn long_request(alloc: Global, count: u32) -> Result<Vec<u8>, AllocError> {
    let head = format!(in alloc; "PATCH /config HTTP/1.1\r\nContent-Length: {count}\r\n\r\n")?;
    let mut bytes = Vec::from_slice(alloc, head.as_bytes())?;
    for _ in 0..count {
        bytes.push(b'x')?;
    }
    Ok(bytes)
}

fn reply_of(alloc: Global, status: u16, json: bool, text: &str) -> Result<Reply, AllocError> {
    let body = String::from_str(alloc, text)?;
    Ok(Reply { status, json, body })
}

/// What is written of a reply where there is room for so many bytes.
fn written(alloc: Global, room: usize, text: &str, head_only: bool) -> Result<String, Stop> {
    let reply = reply_of(alloc, 200, true, text)?;
    let mut door = accepted(alloc, b"", room, 0)?;
    match write_reply_to(alloc, &mut door, &reply, head_only) {
        Ok(()) => answered(alloc, &door, "whole"),
        Err(ReplyError::Connection) => answered(alloc, &door, "connection failed"),
        Err(ReplyError::Memory) => Err(Stop::Memory),
    }
}

/// A word, and what the door was given on its connection, without the feed of its last line.
fn answered(alloc: Global, door: &MemoryDoor, word: &str) -> Result<String, Stop> {
    let line = line_of(alloc, known(door.answers(0))?)?;
    let text = line.as_str().strip_suffix("\n").unwrap_or("");
    Ok(format!(in alloc; "{word}: {text}")?)
}

fn printed(alloc: Global, status: u16, text: &str, head_only: bool) -> Result<String, Stop> {
    let reply = reply_of(alloc, status, false, text)?;
    let bytes = print_reply(alloc, &reply, head_only)?;
    let line = line_of(alloc, &bytes)?;
    Ok(String::from_str(alloc, line.as_str().strip_suffix("\n").unwrap_or(""))?)
}
