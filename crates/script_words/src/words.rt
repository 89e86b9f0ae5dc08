//! Words between blanks.
ghost use Rattle.std.specs.Prelude.{◌≡◌};
ghost use Rattle.std.specs.Option.{option_copied};
ghost use Rattle.script_words.specs.Words.{cut_word};

use crate::lines::first_at;

/// The word before the first blank, and what stands behind that blank, if there is one.
pub fn cut_word(bytes: &[u8]) -> (&[u8], Option<&[u8]>)
    ensures { (result.0.now, option_copied result.1) ≡ cut_word bytes.now }
{
    match first_at(b' ', bytes) {
        None => (bytes, None),
        Some(end) => (&bytes[..end], Some(&bytes[end + 1..])),
    }
}
