//! What the tests share. Comparisons stand here alone: what a test proves would grow with each of them.
use std::alloc::Global;
use std::fmt::{Debug, Display};
use std::process::Abort;

/// Holds what is told against what is wanted of it.
pub(crate) fn has<T: PartialEq + Debug>(rt: &impl Abort, told: &T, wanted: &T) {
    assert_eq!(rt; told, wanted);
}

/// Holds the text of a value against these words.
pub(crate) fn has_words(rt: &impl Abort, alloc: Global, told: &impl Display, words: &str) {
    let text = format!(in alloc; "{told}").expect(rt, "memory");
    has(rt, &text.as_str(), &words);
}
