//! Replies that the agent has no part in.
ghost use Rattle.std.specs.Prelude.{◌≡◌, IfOk};
ghost use Rattle.rest_answer.specs.Refusals.{refusal_reply, refusal_status, refusal_words};
ghost use Rattle.rest_message.specs.Replies.{reply_text};

use operator_answers::{BAD_REQUEST, SERVICE_UNAVAILABLE};
use rest_message::Reply;
use std::alloc::{AllocError, Global};

/// Why a connection is replied to without the agent of its member.
#[derive(Clone, Copy, PartialEq, Eq)]
pub enum Refusal {
    /// `BadHead`: what was read begins with no whole request: it never becomes a head, or ends before head or body does (RFC 9110,
    /// "400 Bad Request").
    BadHead,
    /// `TooLong`: its head or its content is longer than is read (there too).
    TooLong,
    /// `BadLength`: it doesn't say in one decimal number how long its content is (there too).
    BadLength,
    /// `No agent`: the agent doesn't run, or is suspended (RFC 9110, "503 Service Unavailable").
    NoAgent,
    /// `No result in time`: the agent has owed its answer for 600 ticks (there too).
    NoResult,
}

/// What is replied for this reason. It fails only for want of memory.
pub fn refusal_reply(alloc: Global, refusal: Refusal) -> Result<Reply, AllocError>
    ensures { IfOk result (λ reply. reply_text reply ≡ refusal_reply refusal) }
{
    Ok(Reply {
        status: refusal_status(refusal),
        json: false,
        body: String::from_str(alloc, refusal_words(refusal))?,
    })
}

fn refusal_status(refusal: Refusal) -> u16
    ensures { result ≡ refusal_status refusal }
{
    match refusal {
        Refusal::BadHead | Refusal::TooLong | Refusal::BadLength => BAD_REQUEST,
        Refusal::NoAgent | Refusal::NoResult => SERVICE_UNAVAILABLE,
    }
}

fn refusal_words(refusal: Refusal) -> &'static str
    ensures { result.now ≡ refusal_words refusal }
{
    match refusal {
        Refusal::BadHead => "BadHead",
        Refusal::TooLong => "TooLong",
        Refusal::BadLength => "BadLength",
        Refusal::NoAgent => "No agent",
        Refusal::NoResult => "No result in time",
    }
}
