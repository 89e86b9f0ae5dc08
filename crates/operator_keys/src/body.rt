//! The bodies of requests.
ghost use Rattle.std.specs.Prelude.{◌≡◌, ◌≢◌, Ok, Err, is_some, IfOk, IfErr, option_map, option_copied};
ghost use Rattle.serde_json.specs.Find.{get};
ghost use Rattle.serde_json.specs.View.{view};
ghost use Rattle.cluster_config.specs.ConfigReading.{json_of};
ghost use Rattle.operator_keys.specs.Bodies.{text_at, is_text_or_absent, is_request, bad_body, body_of};
ghost use Rattle.operator_keys.specs.Refusals.{with_fault};
ghost use Rattle.operator_keys.specs.declared.refusal.CheckFault.TheVariants as faults;

use crate::{CheckFault, Refused};
use operator_answers::{BAD_REQUEST, Text};
use serde_json::{Category, Value};
use std::alloc::{AllocError, Global};

/// The request that bytes are.
pub(crate) fn body_of(alloc: Global, bytes: &[u8]) -> Result<Value, CheckFault>
    ensures ok { IfOk result (λ body. body_of bytes.now ≡ Ok (view body)) }
    ensures err { IfErr result (λ e. e ≢ faults.Memory → with_fault (body_of bytes.now) ≡ Err e) }
{
    match json_of(alloc, bytes)? {
        Some(body) if is_request(&body) => Ok(body),
        _ => Err(CheckFault::Refused(bad_body())),
    }
}

/// What a body is refused with that doesn't ask what it is to ask.
pub(crate) fn bad_body() -> Refused
    ensures { result ≡ bad_body }
{
    Refused {
        status: BAD_REQUEST,
        text: Text::BadBody,
    }
}

/// The JSON value that bytes are. It fails only for want of memory.
pub(crate) fn json_of(alloc: Global, bytes: &[u8]) -> Result<Option<Value>, AllocError>
    ensures { IfOk result (λ o. option_map view o ≡ json_of bytes.now) }
{
    match Value::from_slice(alloc, bytes) {
        Ok(value) => Ok(Some(value)),
        Err(e) => match e.classify() {
            Category::Memory => Err(AllocError),
            _ => Ok(None),
        },
    }
}

/// Whether a value is an object that names its leader and its candidate by texts, where it names them.
fn is_request(body: &Value) -> bool
    ensures { result ≡ is_request (view body.now) }
{
    body.is_object()
        && is_text_or_absent(body.get("leader"))
        && is_text_or_absent(body.get("candidate"))
}

fn is_text_or_absent(value: Option<&Value>) -> bool
    ensures { result ≡ is_text_or_absent (option_map (λ v. view v.now) value.entry) }
{
    match value {
        None => true,
        Some(value) => value.as_str().is_some(),
    }
}

/// The text at a name of an object, if there is one.
pub(crate) fn text_at<'a>(name: &str, body: &'a Value) -> Option<&'a str>
    ensures { option_copied result ≡ text_at name.now (view body.now) }
{
    body.get(name)?.as_str()
}

/// Whether an object has this name.
pub(crate) fn is_there(name: &str, body: &Value) -> bool
    ensures { result ≡ is_some (get name.now (view body.now)) }
{
    body.get(name).is_some()
}
