//! What a line of the closing summary answers.
ghost use Rattle.std.specs.Prelude.{◌≡◌};
ghost use Rattle.std.specs.List.{find};
ghost use Rattle.script_words.specs.Words.{cut_word};
ghost use Rattle.run_reading.specs.Answers.{begins_as, caused_at, front_of, moment_behind, moment_of, never_or};

use crate::forms::behind;
use script_words::{cut_word, number};

/// What the closing summary answers, a line each.
#[derive(Clone, Copy, Debug, PartialEq, Eq)]
pub enum Answer {
    End,
    Premises,
    Synchronous,
    TwoWriters,
    Writers,
    Acknowledged,
    Lost,
}

/// All answers.
pub(crate) const ANSWERS: [Answer; 7] = [
    Answer::End,
    Answer::Premises,
    Answer::Synchronous,
    Answer::TwoWriters,
    Answer::Writers,
    Answer::Acknowledged,
    Answer::Lost,
];

/// An answer, with the moment that it tells, in ticks of 100 ms: that of the end, or when something broke or was so first.
#[derive(Clone, Copy, Debug, PartialEq, Eq)]
pub struct Answered {
    pub answer: Answer,
    pub moment: Option<u64>,
}

impl Answered {
    ghost use Rattle.std.specs.Prelude.{◌≡◌};
    ghost use Rattle.run_reading.specs.Answers.{answered_of};

    /// What a line answers. `None` where it isn't one of a closing summary.
    pub fn read(line: &[u8]) -> Option<Answered>
        ensures { result ≡ answered_of line.now }
    {
        let answer = answer_of(line)?;
        let words = behind(front_of(answer).as_bytes(), line)?;
        let moment = moment_of(answer, words)?;
        Some(Answered { answer, moment })
    }
}

/// Which answer a line begins as.
fn answer_of(line: &[u8]) -> Option<Answer>
    ensures { result ≡ find (begins_as line.now) ANSWERS }
{
    ANSWERS
        .iter()
        .copied()
        .find(|answer| line.starts_with(front_of(*answer).as_bytes()))
}

/// How a line of the summary begins.
fn front_of(answer: Answer) -> &'static str
    ensures { result.now ≡ front_of answer }
{
    match answer {
        Answer::End => "end at ",
        Answer::Premises => "premises ",
        Answer::Synchronous => "synchronous ",
        Answer::TwoWriters => "two writers ",
        Answer::Writers => "writers ",
        Answer::Acknowledged => "acknowledged ",
        Answer::Lost => "lost ",
    }
}

/// The moment that the words of an answer tell, if they are such.
fn moment_of(answer: Answer, words: &[u8]) -> Option<Option<u64>>
    ensures { result ≡ moment_of answer words.now }
{
    match answer {
        Answer::End => moment_behind(b"", words),
        Answer::Premises => premises_moment(words),
        Answer::Synchronous => synchronous_moment(words),
        Answer::TwoWriters | Answer::Lost => never_or(b"never", b"first at ", words),
        Answer::Writers => Some(None),
        Answer::Acknowledged => {
            let _count = number(words)?;
            Some(None)
        }
    }
}

fn premises_moment(words: &[u8]) -> Option<Option<u64>>
    ensures { result ≡ moment_of Answer.Premises words.now }
{
    if words == b"met".as_slice() {
        return Some(None);
    }
    caused_at(behind(b"broken at ", words)?)
}

fn synchronous_moment(words: &[u8]) -> Option<Option<u64>>
    ensures { result ≡ moment_of Answer.Synchronous words.now }
{
    if words == b"on".as_slice() {
        return Some(None);
    }
    never_or(b"off", b"broken at ", words)
}

/// A moment, with its cause behind it.
fn caused_at(words: &[u8]) -> Option<Option<u64>>
    ensures { result ≡ caused_at (cut_word words.now) }
{
    let (tick, cause) = cut_word(words);
    if !cause?.starts_with(b"by ") {
        return None;
    }
    Some(Some(number(tick)?))
}

/// That it never was so, in these words, or a moment behind a front.
fn never_or(never: &[u8], front: &[u8], words: &[u8]) -> Option<Option<u64>>
    ensures { result ≡ never_or never.now front.now words.now }
{
    if words == never {
        return Some(None);
    }
    moment_behind(front, words)
}

fn moment_behind(front: &[u8], words: &[u8]) -> Option<Option<u64>>
    ensures { result ≡ moment_behind front.now words.now }
{
    Some(Some(number(behind(front, words)?)?))
}
