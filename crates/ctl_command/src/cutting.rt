//! Texts, cut at a mark.
ghost use Rattle.std.specs.Prelude.{◌≡◌, ◌<◌};
ghost use Rattle.std.specs.Option.{option_copied};
ghost use Rattle.ctl_command.specs.Words.{cut_once};

/// What stands before the first such mark, and what stands behind it, if there is one.
pub fn cut_once(mark: char, text: &str) -> (&str, Option<&str>)
    requires { mark < 128 }
    ensures { (result.0.now, option_copied result.1) ≡ cut_once mark text.now }
{
    match text.split_once(mark) {
        None => (text, None),
        Some((before, behind)) => (before, Some(behind)),
    }
}
