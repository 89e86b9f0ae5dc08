//! What agents ask.
ghost use Rattle.std.specs.Prelude.{◌≡◌, IfOk};
ghost use Rattle.event_book.specs.declared.message.Body.TheVariants as bodies;

use event_book::Body;
use pat_base::{Shared, Ticks};
use std::alloc::{AllocError, Global};
use std::marker::Model;
use store_keys::Txn;

/// What an agent asks the key store or another member. A clause sees what the message says that asks it. An agent takes no memory, so a
/// request comes to where it can be shared only once that message is made.
#[derive(Drop)]
pub struct Inquiry {
    kind: InquiryKind,
}

/// The kinds of what agents ask.
#[derive(Drop)]
pub(crate) enum InquiryKind {
    Read,
    Request(Txn),
    Ask,
    FailsafeRequest { ttl: Ticks },
}

impl Model for Inquiry {
    ghost use Rattle.event_book.specs.declared.message.Body.{Body};
    ghost use Rattle.agent_model.specs.Inquiries.{body_of};

    ghost Value = { Body };

    ghost view = { λ inquiry. body_of inquiry.kind };
}

impl Inquiry {
    /// To the store: what do you hold?
    pub fn read() -> Inquiry
        ensures { result ≡ bodies.Read }
    {
        Inquiry {
            kind: InquiryKind::Read,
        }
    }

    /// To the store: decide on this.
    pub fn request(txn: Txn) -> Inquiry
        ensures { result ≡ bodies.Request txn }
    {
        Inquiry {
            kind: InquiryKind::Request(txn),
        }
    }

    /// To another agent: how far is your server?
    pub fn ask() -> Inquiry
        ensures { result ≡ bodies.Ask }
    {
        Inquiry {
            kind: InquiryKind::Ask,
        }
    }

    /// To another agent, by a leader that can't reach the store: may I stay primary for `ttl` ticks from now on?
    pub fn failsafe_request(ttl: Ticks) -> Inquiry
        ensures { result ≡ bodies.FailsafeRequest ttl }
    {
        Inquiry {
            kind: InquiryKind::FailsafeRequest { ttl },
        }
    }

    /// What the message says that asks it. It fails only for want of memory.
    pub fn into_body(self, alloc: Global) -> Result<Body, AllocError>
        ensures { IfOk result (λ body. body ≡ self) }
    {
        match self.kind {
            InquiryKind::Read => Ok(Body::Read),
            InquiryKind::Request(txn) => {
                let txn = Shared::new(alloc, txn)?;
                Ok(Body::Request(txn))
            }
            InquiryKind::Ask => Ok(Body::Ask),
            InquiryKind::FailsafeRequest { ttl } => Ok(Body::FailsafeRequest { ttl }),
        }
    }
}
