//! Whether a request is from the port's own page.
ghost use Rattle.std.specs.Prelude.{◌≡◌, ◌≤◌, ◌<◌, ◌*◌, All, IfOk, map, length};
ghost use Rattle.std.specs.List.{list_any, list_all};
ghost use Rattle.httparse.specs.Spans.{IsHeaderWithin, header_bytes};
ghost use Rattle.rest_request.specs.Reading.{head_room};
ghost use Rattle.live_page.specs.Origins.{IsJudged, has_name, names_no_other, is_from_own_page};
ghost use Rattle.live_page.specs.declared.origin.TheConstants.{LEAST_FIELD};

use crate::OwnHosts;
use httparse::Status;
use httparse::spans::{EMPTY_HEADER_SPAN, HeaderSpan, parse_request};
use rest_request::HEAD_LIMIT;
use std::alloc::{AllocError, Global};

/// The fewest bytes of a field line: a name of one byte, a colon and a line feed.
const LEAST_FIELD: usize = 3;

/// Whether the head with which these bytes begin is from the port's own page. It fails only for want of memory.
pub(crate) fn is_own(alloc: Global, bytes: &[u8], hosts: &OwnHosts) -> Result<bool, AllocError>
    ensures { IfOk result (IsJudged (head_room bytes.now) hosts.now) }
{
    let room = head_room(bytes);
    let mut headers = vec![in alloc; EMPTY_HEADER_SPAN; room.len() / LEAST_FIELD + 1]?;
    Ok(is_own_in(room, &mut headers, hosts))
}

/// The bytes within which a head has to end.
fn head_room(bytes: &[u8]) -> &[u8]
    ensures { result.now ≡ head_room bytes.now }
{
    if bytes.len() > HEAD_LIMIT {
        &bytes[..HEAD_LIMIT]
    } else {
        bytes
    }
}

/// The same, with places for more fields than these bytes can have.
fn is_own_in(room: &[u8], headers: &mut [HeaderSpan], hosts: &OwnHosts) -> bool
    requires { length room.now < LEAST_FIELD * length headers.old }
    ensures { IsJudged room.now hosts.now result }
{
    match parse_request(room, headers) {
        Ok(Status::Complete(head)) => is_from_own_page(room, &headers[..head.headers], hosts),
        Ok(Status::Partial) => false,
        Err(_) => false,
    }
}

/// Whether these fields are those of a request from the port's own page.
fn is_from_own_page(bytes: &[u8], headers: &[HeaderSpan], hosts: &OwnHosts) -> bool
    requires { All (IsHeaderWithin (length bytes.now)) headers.now }
    ensures { result ≡ is_from_own_page hosts.now (map (header_bytes bytes.now) headers.now) }
{
    has_field(bytes, headers, b"live-line")
        && has_field(bytes, headers, b"host")
        && has_no_other_host(bytes, headers, hosts)
}

/// Whether a field has this name.
fn has_field(bytes: &[u8], headers: &[HeaderSpan], name: &[u8]) -> bool
    requires { All (IsHeaderWithin (length bytes.now)) headers.now }
    ensures { result ≡ list_any (has_name name.now) (map (header_bytes bytes.now) headers.now) }
{
    for header in headers {
        if has_name(bytes, header, name) {
            return true;
        }
    }
    false
}

/// Whether no field names another host.
fn has_no_other_host(bytes: &[u8], headers: &[HeaderSpan], hosts: &OwnHosts) -> bool
    requires { All (IsHeaderWithin (length bytes.now)) headers.now }
    ensures { result ≡ list_all (names_no_other hosts.now) (map (header_bytes bytes.now) headers.now) }
{
    for header in headers {
        if !names_no_other(bytes, header, hosts) {
            return false;
        }
    }
    true
}

/// Whether a field has this name.
fn has_name(bytes: &[u8], header: &HeaderSpan, name: &[u8]) -> bool
    requires { IsHeaderWithin (length bytes.now) header.now }
    ensures { result ≡ has_name name.now (header_bytes bytes.now header.now) }
{
    header.name.of(bytes).eq_ignore_ascii_case(name)
}

/// Whether a field is no `Host`, or one of the own.
fn names_no_other(bytes: &[u8], header: &HeaderSpan, hosts: &OwnHosts) -> bool
    requires { IsHeaderWithin (length bytes.now) header.now }
    ensures { result ≡ names_no_other hosts.now (header_bytes bytes.now header.now) }
{
    !has_name(bytes, header, b"host") || hosts.has(header.value.of(bytes))
}
