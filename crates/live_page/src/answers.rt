//! Answers to browsers, as bytes.
ghost use Rattle.std.specs.Prelude.{[], codes, ◌≡◌, IfOk, string_bytes};
ghost use Rattle.live_page.specs.declared.document.TheConstants.{DOCUMENT};
ghost use Rattle.live_page.specs.Answers.{answer_bytes, denial_bytes, head_text, page_bytes, picture_bytes, text_bytes};

use crate::denial::{allow_text, body_text, status_text};
use crate::{DOCUMENT, Denial};
use std::alloc::{AllocError, Global};

/// What stands in a head, beside the length of the body.
#[derive(Clone, Copy)]
struct Front<'a> {
    /// The status with its phrase.
    status: &'a str,
    /// A whole line, or nothing.
    allow: &'a str,
    /// The type of the body.
    kind: &'a str,
}

/// The page as it is sent: always the same. With `head_only`, as `HEAD` wants it, the body is left out, here as in each of these.
/// Each fails only for want of memory.
pub fn print_page(alloc: Global, head_only: bool) -> Result<Vec<u8>, AllocError>
    ensures { IfOk result (λ bytes. bytes.items ≡ page_bytes DOCUMENT.now head_only) }
{
    print(
        alloc,
        found("text/html; charset=utf-8"),
        DOCUMENT,
        head_only,
    )
}

/// A text as it is sent: the state, the last events, or what a line brought. A browser takes it for nothing else.
pub fn print_text(alloc: Global, text: &str, head_only: bool) -> Result<Vec<u8>, AllocError>
    ensures { IfOk result (λ bytes. bytes.items ≡ text_bytes text.now head_only) }
{
    print(alloc, found("text/plain; charset=utf-8"), text, head_only)
}

/// A picture as it is sent: a document of SVG.
pub fn print_picture(alloc: Global, picture: &str, head_only: bool) -> Result<Vec<u8>, AllocError>
    ensures { IfOk result (λ bytes. bytes.items ≡ picture_bytes picture.now head_only) }
{
    print(alloc, found("image/svg+xml"), picture, head_only)
}

/// A denial as it is sent.
pub fn print_denial(alloc: Global, denial: Denial, head_only: bool) -> Result<Vec<u8>, AllocError>
    ensures { IfOk result (λ bytes. bytes.items ≡ denial_bytes denial head_only) }
{
    let front = Front {
        status: status_text(denial),
        allow: allow_text(denial),
        kind: "text/plain; charset=utf-8",
    };
    print(alloc, front, body_text(denial), head_only)
}

/// What stands in the head of what is there.
fn found(kind: &str) -> Front<'_>
    ensures status { result.status.now ≡ codes "200 OK" }
    ensures allow { result.allow.now ≡ [] }
    ensures kind { result.kind.now ≡ kind.entry.now }
{
    Front {
        status: "200 OK",
        allow: "",
        kind,
    }
}

/// A head, and the body behind it unless that is left out.
fn print(
    alloc: Global,
    front: Front<'_>,
    body: &str,
    head_only: bool,
) -> Result<Vec<u8>, AllocError>
    ensures { IfOk result (λ bytes. bytes.items ≡ answer_bytes front.entry.status.now front.entry.allow.now front.entry.kind.now body.now head_only) }
{
    let head = print_head(alloc, front, body.len())?;
    let mut bytes = Vec::from_slice(alloc, head.as_bytes())?;
    if head_only {
        return Ok(bytes);
    }
    bytes.extend_from_slice(body.as_bytes())?;
    Ok(bytes)
}

/// What stands before a body of this length.
fn print_head(alloc: Global, front: Front<'_>, length: usize) -> Result<String, AllocError>
    ensures { IfOk result (λ text. string_bytes text ≡ head_text front.entry.status.now front.entry.allow.now front.entry.kind.now length) }
{
    let (status, allow, kind) = (front.status, front.allow, front.kind);
    format!(in alloc;
        "HTTP/1.1 {status}\r\n{allow}Content-Type: {kind}\r\nContent-Length: {length}\r\nX-Content-Type-Options: nosniff\r\nX-Frame-Options: DENY\r\nCache-Control: no-store\r\nConnection: close\r\n\r\n"
    )
}
