//! The parts of a setting.
ghost use Rattle.std.specs.Prelude.{◌≡◌, option_map};
ghost use Rattle.std.specs.Option.{option_copied};
ghost use Rattle.ctl_command.specs.Settings.{is_empty_text, has_empty_part, setting_by, setting_in, setting_text};

use crate::Setting;
use crate::cutting::cut_once;
use std::alloc::{AllocError, Global};

fn is_empty_text(text: &str) -> bool
    ensures { result ≡ is_empty_text text.now }
{
    text.is_empty()
}

/// Whether one of the parts between dots is empty.
fn has_empty_part(key: &str) -> bool
    ensures { result ≡ has_empty_part key.now }
{
    key.split('.').any(|part| is_empty_text(part))
}

fn setting_by<'a>(key: &'a str, value: Option<&'a str>) -> Option<Setting<'a>>
    ensures { option_map setting_text result ≡ setting_by key.now (option_copied value.entry) }
{
    let Some(value) = value else {
        return None;
    };
    if has_empty_part(key) {
        return None;
    }
    Some(Setting { key, value })
}

/// The setting that `KEY=VALUE` is. The value begins behind the first `=`.
pub fn setting_in(text: &str) -> Option<Setting<'_>>
    ensures { option_map setting_text result ≡ setting_in text.now }
{
    let (key, value) = cut_once('=', text);
    setting_by(key, value)
}

impl<'a> Setting<'a> {
    ghost use Rattle.std.specs.Prelude.{◌≡◌, map, IfOk};
    ghost use Rattle.ctl_command.specs.Settings.{parts_of};

    /// The parts of the key between its dots: the names of the objects in which the setting stands, the outermost first,
    /// and then its own. It fails only for want of memory.
    pub fn path(&self, alloc: Global) -> Result<Vec<&'a str>, AllocError>
        ensures { IfOk result (λ parts. map (λ part. part.now) parts.items ≡ parts_of self.now.key.now) }
    {
        self.key.split('.').collect(alloc)
    }
}
