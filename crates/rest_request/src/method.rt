//! Methods as heads have them.
ghost use Rattle.std.specs.Prelude.{◌≡◌, IfOk};
ghost use Rattle.httparse.specs.Grammar.{IsToken};
ghost use Rattle.rest_message.specs.Verbs.{verb_of};

use http::Method;
use http::method::MethodError;
use rest_message::Verb;
use std::alloc::{AllocError, Global};

/// The verb of this token. A token of more than 15 bytes takes memory, and fails only for want of it.
pub(crate) fn verb_of(alloc: Global, token: &[u8]) -> Result<Verb, AllocError>
    requires { IsToken token.now }
    ensures { IfOk result (λ verb. verb ≡ verb_of token.now) }
{
    match Method::from_bytes(alloc, token) {
        Ok(method) => Ok(Verb::of(method.as_str().as_bytes())),
        Err(MethodError::Invalid) => unreachable!(),
        Err(MethodError::OutOfMemory) => Err(AllocError),
    }
}
