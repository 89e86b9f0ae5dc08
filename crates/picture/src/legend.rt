//! What stands below the axis.
ghost use Rattle.std.specs.Prelude.{◌≡◌, ◌++◌, ◌<◌, ◌≤◌, ◌^◌, OnOk, length, string_bytes};
ghost use Rattle.svg.specs.Forests.{forest_text};
ghost use Rattle.picture.specs.Legend.{answer_paint, answer_tree, answers_tree, key_tree, keys_tree, left_tree, legend_tree, square_tree, word_tree};
ghost use Rattle.run_reading.specs.declared.run.TheConstants.{MOST_ANSWERS};

use crate::alarms::alarm_of;
use run_reading::{AnswerLine, MOST_ANSWERS};
use std::alloc::{AllocError, Global};
use svg::{Area, Paint, Spot, class_word, push_label, push_rect};

/// What is explained, from left to right.
pub(crate) const KEYS: [Paint; 12] = [
    Paint::Replica,
    Paint::Starting,
    Paint::Primary,
    Paint::Stopping,
    Paint::Crashed,
    Paint::Wiped,
    Paint::Holder,
    Paint::Held,
    Paint::Killed,
    Paint::Paused,
    Paint::Shortened,
    Paint::Alarm,
];

/// How wide an explained colour is, and how high a line of the legend, in pixels.
pub(crate) const KEY: u64 = 96;

pub(crate) const LINE: u64 = 16;

/// Appends the legend: the colours, the lines of the closing summary, and how many lines aren't drawn.
pub(crate) fn push_legend(
    out: &mut String,
    alloc: Global,
    y: u64,
    answers: &[AnswerLine],
    left_out: u64,
) -> Result<(), AllocError>
    requires y { y < 2 ^ 32 }
    requires answers { length answers.now ≤ MOST_ANSWERS }
    ensures { OnOk result (string_bytes out.new ≡ string_bytes out.old ++ forest_text (legend_tree y answers.now left_out)) }
{
    push_keys(out, y)?;
    push_left(out, alloc, y + 2 * LINE, left_out)?;
    push_answers(out, y + 3 * LINE, answers)?;
    Ok(())
}

#[tactic(auto, unfolding(crate::specs::Legend::keys_tree))]
fn push_keys(out: &mut String, y: u64) -> Result<(), AllocError>
    requires { y < 2 ^ 32 }
    ensures { OnOk result (string_bytes out.new ≡ string_bytes out.old ++ forest_text (keys_tree y)) }
{
    for (place, paint) in KEYS.iter().enumerate() {
        push_key(out, place, y, *paint)?;
    }
    Ok(())
}

fn push_key(out: &mut String, place: usize, y: u64, paint: Paint) -> Result<(), AllocError>
    requires place { place < 2 ^ 32 }
    requires y { y < 2 ^ 32 }
    ensures { OnOk result (string_bytes out.new ≡ string_bytes out.old ++ forest_text (key_tree place y paint)) }
{
    push_square(out, 8 + place as u64 * KEY, y, paint)?;
    push_word(out, 24 + place as u64 * KEY, y + 10, paint)?;
    Ok(())
}

#[tactic(auto, unfolding(crate::specs::Legend::square_tree))]
fn push_square(out: &mut String, x: u64, y: u64, paint: Paint) -> Result<(), AllocError>
    ensures { OnOk result (string_bytes out.new ≡ string_bytes out.old ++ forest_text (square_tree x y paint)) }
{
    let area = Area {
        x,
        y,
        width: 12,
        height: 12,
    };
    push_rect(out, area, paint, class_word(paint).as_bytes())
}

#[tactic(auto, unfolding(crate::specs::Legend::word_tree))]
fn push_word(out: &mut String, x: u64, y: u64, paint: Paint) -> Result<(), AllocError>
    ensures { OnOk result (string_bytes out.new ≡ string_bytes out.old ++ forest_text (word_tree x y paint)) }
{
    push_label(
        out,
        Spot { x, y },
        Paint::Label,
        class_word(paint).as_bytes(),
    )
}

/// Appends the lines of the closing summary; those that tell when a promise ended are red.
#[tactic(auto, unfolding(crate::specs::Legend::answers_tree))]
fn push_answers(out: &mut String, y: u64, answers: &[AnswerLine]) -> Result<(), AllocError>
    requires y { y < 2 ^ 33 }
    requires answers { length answers.now ≤ MOST_ANSWERS }
    ensures { OnOk result (string_bytes out.new ≡ string_bytes out.old ++ forest_text (answers_tree y answers.now)) }
{
    for (place, line) in answers.iter().enumerate() {
        push_answer(out, y + place as u64 * LINE, line)?;
    }
    Ok(())
}

#[tactic(auto, unfolding(crate::specs::Legend::answer_tree))]
fn push_answer(out: &mut String, y: u64, line: &AnswerLine) -> Result<(), AllocError>
    ensures { OnOk result (string_bytes out.new ≡ string_bytes out.old ++ forest_text (answer_tree y line.now)) }
{
    push_label(out, Spot { x: 8, y }, answer_paint(line), line.line())
}

fn answer_paint(line: &AnswerLine) -> Paint
    ensures { result ≡ answer_paint line.now }
{
    match alarm_of(line) {
        Some(_) => Paint::Alarm,
        None => Paint::Label,
    }
}

#[tactic(auto, unfolding(crate::specs::Legend::left_tree))]
fn push_left(out: &mut String, alloc: Global, y: u64, left_out: u64) -> Result<(), AllocError>
    ensures { OnOk result (string_bytes out.new ≡ string_bytes out.old ++ forest_text (left_tree y left_out)) }
{
    let text = format!(in alloc; "lines that are not drawn: {left_out}")?;
    push_label(out, Spot { x: 8, y }, Paint::Label, text.as_bytes())?;
    Ok(())
}
