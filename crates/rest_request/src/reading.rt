//! Reading of requests.
ghost use Rattle.std.specs.Prelude.{◌≡◌, ◌≤◌, ◌<◌, ◌*◌, length, drop, map, IsUtf8, IfOk, string_bytes};
ghost use Rattle.httparse.specs.Spans.{IsRequestAt, IsRequestOf, IsRequestWithin, name_and_value};
ghost use Rattle.httparse.specs.Grammar.{RequestHead};
ghost use Rattle.rest_request.specs.declared.limits.TheConstants.{LEAST_FIELD};
ghost use Rattle.rest_request.specs.ContentLength.{content_length};
ghost use Rattle.rest_request.specs.Answers.{Answers};
ghost use Rattle.rest_request.specs.Reading.{Reads, answer_by, answer_before_head, head_room};

use crate::RequestFault;
use crate::content_length::content_length;
use crate::limits::{HEAD_LIMIT, LEAST_FIELD};
use crate::method::verb_of;
use httparse::Status;
use httparse::spans::{EMPTY_HEADER_SPAN, HeaderSpan, RequestSpans, parse_request};
use rest_message::Request;
use std::alloc::{AllocError, Global};
use std::str;

/// The request with which the bytes of a connection begin, and `None` where it isn't whole yet: then more bytes are to be
/// read, and all of them given again. What was answered otherwise stays, whatever follows.
///
/// Of the fields only `Content-Length` is read (RFC 9112, section 6.3): without one there is no content, and
/// `Transfer-Encoding` counts for nothing. A head is what the crate `httparse` reads, whose grammar isn't that of RFC 9112:
/// it takes the versions 1.0 and 1.1 alone, a line feed without its carriage return, any number of empty lines in front, any
/// visible bytes that are UTF-8 as a target, and a head without `Host`.
///
/// The fault is the first that applies: `BadHead` where the first `HEAD_LIMIT` bytes never become a whole head, whatever
/// follows; `TooLong` where there are more bytes than these, and the head isn't whole within them; `BadLength` where
/// `Content-Length` stands there twice or isn't a decimal number; `TooLong` where it is above `BODY_LIMIT`. Where the bytes end
/// within a target that never becomes whole, it may answer as if a head could still come. `Memory` may come at any time.
pub fn read_request(alloc: Global, bytes: &[u8]) -> Result<Option<Request>, RequestFault>
    ensures { Reads bytes.now result }
{
    let room = head_room(bytes);
    let mut headers = vec![in alloc; EMPTY_HEADER_SPAN; room.len() / LEAST_FIELD + 1]?;
    read_with(alloc, bytes, room, &mut headers)
}

/// The request with which the bytes begin, where there are places for more fields than a head in these first bytes can have.
fn read_with(
    alloc: Global,
    bytes: &[u8],
    room: &[u8],
    headers: &mut [HeaderSpan],
) -> Result<Option<Request>, RequestFault>
    requires room { room.now ≡ head_room bytes.now }
    requires many { length room.now < LEAST_FIELD * length headers.old }
    ensures { Reads bytes.now result }
{
    match parse_request(room, headers) {
        Ok(Status::Complete(head)) => request_at(
            alloc,
            room,
            after(bytes, head.len),
            &head,
            headers,
        ),
        Ok(Status::Partial) => before_head(bytes),
        Err(_) => Err(RequestFault::BadHead),
    }
}

/// The bytes within which a head has to end.
fn head_room(bytes: &[u8]) -> &[u8]
    ensures { result.now ≡ head_room bytes.now }
{
    if bytes.len() > HEAD_LIMIT {
        &bytes[..HEAD_LIMIT]
    } else {
        bytes
    }
}

/// The bytes from a place on.
fn after(bytes: &[u8], place: usize) -> &[u8]
    requires { place ≤ length bytes.now }
    ensures { result.now ≡ drop place bytes.now }
{
    &bytes[place..]
}

/// What is answered while a head may still come.
fn before_head(bytes: &[u8]) -> Result<Option<Request>, RequestFault>
    ensures { Answers result (answer_before_head bytes.now) }
{
    if bytes.len() > HEAD_LIMIT {
        return Err(RequestFault::TooLong);
    }
    Ok(None)
}

/// The request whose head was read, with what follows the head.
fn request_at(
    alloc: Global,
    room: &[u8],
    rest: &[u8],
    head: &RequestSpans,
    headers: &[HeaderSpan],
) -> Result<Option<Request>, RequestFault>
    requires within { IsRequestWithin room.now headers.now head.now }
    requires whole { IsRequestOf room.now headers.now head.now }
    ensures { (h : RequestHead) → IsRequestAt room.now headers.now head.now h
        → Answers result (answer_by h rest.now (content_length (map name_and_value h.fields))) }
{
    let length = content_length(room, &headers[..head.headers])?;
    if rest.len() < length {
        return Ok(None);
    }
    let method = verb_of(alloc, head.method.of(room))?;
    let target = text_of(alloc, head.path.of(room))?;
    let body = Vec::from_slice(alloc, &rest[..length])?;
    Ok(Some(Request {
        method,
        target,
        body,
    }))
}

/// A copy of a text.
fn text_of(alloc: Global, bytes: &[u8]) -> Result<String, AllocError>
    requires { IsUtf8 bytes.now }
    ensures { IfOk result (λ text. string_bytes text ≡ bytes.now) }
{
    match str::from_utf8(bytes) {
        Ok(text) => String::from_str(alloc, text),
        Err(_) => unreachable!(),
    }
}
