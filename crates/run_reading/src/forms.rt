//! The words of lines.
ghost use Rattle.std.specs.Prelude.{◌≡◌};
ghost use Rattle.std.specs.Option.{option_copied};
ghost use Rattle.run_reading.specs.Forms.{behind, is_form, is_tail, named_of};

use crate::happening::{Happening, NAMED, Tail, tail_of, words_of};
use pat_base::Name;
use script_words::number;

/// What words tell that stand behind a name.
#[tactic(auto, unfolding(crate::specs::Forms::named_of))]
pub(crate) fn named_of(words: &[u8]) -> Option<Happening>
    ensures { result ≡ named_of words.now }
{
    NAMED
        .iter()
        .copied()
        .find(|happening| is_form(words, *happening))
}

fn is_form(words: &[u8], happening: Happening) -> bool
    ensures { result ≡ is_form words.now happening }
{
    match behind(words_of(happening).as_bytes(), words) {
        None => false,
        Some(rest) => is_tail(tail_of(happening), rest),
    }
}

fn is_tail(tail: Tail, bytes: &[u8]) -> bool
    ensures { result ≡ is_tail tail bytes.now }
{
    match tail {
        Tail::Nothing => bytes.is_empty(),
        Tail::Number => number(bytes).is_some(),
        Tail::Name => Name::read(bytes).is_some(),
        Tail::Text => true,
    }
}

/// What stands behind a front.
pub(crate) fn behind<'a>(front: &[u8], bytes: &'a [u8]) -> Option<&'a [u8]>
    ensures { option_copied result ≡ behind front.now bytes.now }
{
    if bytes.starts_with(front) {
        Some(&bytes[front.len()..])
    } else {
        None
    }
}
