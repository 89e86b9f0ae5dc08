//! Printing of replies.
ghost use Rattle.std.specs.Prelude.{◌≡◌, IfOk, string_bytes};
ghost use Rattle.rest_message.specs.Replies.{reply_text};
ghost use Rattle.rest_reply.specs.Replies.{reply_bytes, head_bytes, content_type_of, phrase_of};

use http::StatusCode;
use rest_message::Reply;
use std::alloc::{AllocError, Global};

/// A reply as it is sent (RFC 9112, sections 2.1 and 4): the status line, the fields `Content-Type`, `Content-Length` in
/// bytes and `Connection`, an empty line, and the body. With `head_only`, as `HEAD` and `OPTIONS` want it, the body is left
/// out, and its length stays. A status that RFC 9110 doesn't have gets no phrase. It fails only for want of memory.
pub fn print_reply(alloc: Global, reply: &Reply, head_only: bool) -> Result<Vec<u8>, AllocError>
    ensures { IfOk result (λ bytes. bytes.items ≡ reply_bytes (reply_text reply.now) head_only) }
{
    let phrase = phrase_of(reply.status);
    let content_type = content_type_of(reply.json);
    let length = reply.body.len();
    let head = print_head(alloc, reply.status, phrase, content_type, length)?;
    let mut bytes = Vec::from_slice(alloc, head.as_bytes())?;
    if head_only {
        return Ok(bytes);
    }
    bytes.extend_from_slice(reply.body.as_bytes())?;
    Ok(bytes)
}

/// What stands before the body.
fn print_head(
    alloc: Global,
    status: u16,
    phrase: &str,
    content_type: &str,
    length: usize,
) -> Result<String, AllocError>
    ensures { IfOk result (λ text. string_bytes text ≡ head_bytes status phrase.now content_type.now length) }
{
    format!(in alloc;
        "HTTP/1.1 {status} {phrase}\r\nContent-Type: {content_type}\r\nContent-Length: {length}\r\nConnection: close\r\n\r\n"
    )
}

/// The phrase of a status, and nothing where it has none.
#[tactic(auto, unfolding(crate::specs::Replies::phrase_of))]
fn phrase_of(status: u16) -> &'static str
    ensures { result.now ≡ phrase_of status }
{
    match StatusCode::from_u16(status) {
        Ok(code) => code.canonical_reason().unwrap_or(""),
        Err(_) => "",
    }
}

/// The type of a body.
fn content_type_of(json: bool) -> &'static str
    ensures { result.now ≡ content_type_of json }
{
    if json {
        "application/json"
    } else {
        "text/plain"
    }
}
