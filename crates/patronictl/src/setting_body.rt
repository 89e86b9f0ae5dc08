//! The body of the request that changes a setting.
ghost use Rattle.std.specs.Prelude.{◌≡◌, ◌++◌, IfOk, OnOk, is_some, map, string_bytes};
ghost use Rattle.serde_json.specs.Read.{read};
ghost use Rattle.ctl_command.specs.Settings.{setting_text};
ghost use Rattle.patronictl.specs.Settings.{nested, opened, quoted, setting_body, value_text};

use ctl_command::Setting;
use serde_json::{Category, Value};
use std::alloc::{AllocError, Global};

/// An object for each part of the key, each in the one before, and the value in the last.
pub(crate) fn setting_body(alloc: Global, setting: &Setting<'_>) -> Result<String, AllocError>
    ensures { IfOk result (λ body. string_bytes body ≡ setting_body (setting_text setting.now)) }
{
    let path = setting.path(alloc)?;
    let value = value_text(alloc, setting.value)?;
    nested(alloc, &path, value.as_str())
}

fn nested(alloc: Global, path: &[&str], value: &str) -> Result<String, AllocError>
    ensures { IfOk result (λ body. string_bytes body ≡ nested (map (λ part. part.now) path.now) value.now) }
{
    let mut body = String::new(alloc);
    for part in path {
        push_opened(&mut body, alloc, part)?;
    }
    body.push_str(value)?;
    for _step in 0..path.len() {
        body.push_str("}")?;
    }
    Ok(body)
}

/// Puts the beginning of an object at the end, up to the value at this name.
fn push_opened(body: &mut String, alloc: Global, name: &str) -> Result<(), AllocError>
    ensures { OnOk result (string_bytes body.new ≡ string_bytes body.old ++ opened name.now) }
{
    let name = quoted(alloc, name)?;
    body.push_str("{")?;
    body.push_str(name.as_str())?;
    body.push_str(":")
}

/// A value as it is written, where that is JSON, and else as a text.
fn value_text(alloc: Global, value: &str) -> Result<String, AllocError>
    ensures { IfOk result (λ text. string_bytes text ≡ value_text value.now) }
{
    if is_json(alloc, value)? {
        String::from_str(alloc, value)
    } else {
        quoted(alloc, value)
    }
}

fn is_json(alloc: Global, text: &str) -> Result<bool, AllocError>
    ensures { IfOk result (λ is. is ≡ is_some (read text.now)) }
{
    match Value::from_str(alloc, text) {
        Ok(_) => Ok(true),
        Err(e) => match e.classify() {
            Category::Memory => Err(AllocError),
            _ => Ok(false),
        },
    }
}

/// A text as JSON has it (RFC 8259, section 7).
fn quoted(alloc: Global, text: &str) -> Result<String, AllocError>
    ensures { IfOk result (λ written. string_bytes written ≡ quoted text.now) }
{
    Value::try_from_str(alloc, text)?.to_string(alloc)
}
