//! Marks with their texts.
ghost use Rattle.std.specs.Prelude.{◌≡◌, ◌++◌, ◌<◌, ◌≤◌, ◌^◌, OnOk, IfSome, length, nat_le, string_bytes};
ghost use Rattle.std.specs.List.{position};
ghost use Rattle.svg.specs.Forests.{forest_text};
ghost use Rattle.picture.specs.Marks.{is_marked, is_shown, label_in, label_of, mark_if, mark_in, mark_paint, mark_tree, marks_tree, no_labels, rows_after, rows_if, rows_with, skip_word, stroke_tree, words_behind};

use crate::band::is_in;
use crate::frame::Frame;
use run_reading::{Happening, Sight};
use script_words::cut_word;
use std::alloc::AllocError;
use svg::{Area, Paint, Spot, push_label, push_rect};

/// A lane has so many rows of texts.
pub(crate) const ROWS: usize = 4;

/// A text has so many bytes at most; the title of its mark has the line whole.
pub(crate) const LONGEST_LABEL: usize = 28;

/// How wide a byte of a text is, and how high a row of texts, in pixels.
pub(crate) const LETTER: u64 = 6;

pub(crate) const ROW: u64 = 12;

/// Appends a mark for each line of a lane that has one, with its text in the first row that is free there; where none is, there is no text.
pub(crate) fn push_marks(
    out: &mut String,
    frame: Frame,
    lane: Option<usize>,
    y: u64,
    sights: &[Sight],
) -> Result<(), AllocError>
    requires { y < 2 ^ 32 }
    ensures { OnOk result (string_bytes out.new ≡ string_bytes out.old ++ forest_text (marks_tree frame.end lane y no_labels sights.now)) }
{
    let mut free = [0; ROWS];
    for sight in sights {
        push_mark_if(out, frame, lane, y, &mut free, sight)?;
    }
    Ok(())
}

/// Appends the mark of a line, if it has one in this lane.
fn push_mark_if(
    out: &mut String,
    frame: Frame,
    lane: Option<usize>,
    y: u64,
    free: &mut [u64],
    sight: &Sight,
) -> Result<(), AllocError>
    requires y { y < 2 ^ 32 }
    requires rows { length free.old ≤ ROWS }
    ensures text { OnOk result (string_bytes out.new ≡ string_bytes out.old ++ forest_text (mark_if frame.end y free.old sight.now (is_shown lane sight.now))) }
    ensures rows { OnOk result (free.new ≡ rows_if frame.end free.old sight.now (is_shown lane sight.now)) }
{
    if is_shown(lane, sight) {
        push_mark(out, frame, y, free, sight)
    } else {
        Ok(())
    }
}

/// Whether a line has a mark in a lane.
fn is_shown(lane: Option<usize>, sight: &Sight) -> bool
    ensures { result ≡ is_shown lane sight.now }
{
    is_in(sight.lane(), lane) && is_marked(sight.happening())
}

/// Whether a mark shows it. The others are seen by a bar that begins or ends.
fn is_marked(happening: Happening) -> bool
    ensures { result ≡ is_marked happening }
{
    match happening {
        Happening::TakesKey
        | Happening::ReleasesKey
        | Happening::KeyExpires
        | Happening::Arms
        | Happening::Feeds
        | Happening::Follows
        | Happening::AcceptsNoMore
        | Happening::StartsAsReplica
        | Happening::IsHeld
        | Happening::Resumes
        | Happening::IsKilled
        | Happening::IsStarted => false,
        _ => true,
    }
}

/// Appends a mark, and its text in the first row that is free; that row is free again behind the text.
#[tactic(auto, unfolding(crate::specs::Marks::mark_tree, crate::specs::Marks::rows_after))]
fn push_mark(
    out: &mut String,
    frame: Frame,
    y: u64,
    free: &mut [u64],
    sight: &Sight,
) -> Result<(), AllocError>
    requires y { y < 2 ^ 32 }
    requires rows { length free.old ≤ ROWS }
    ensures text { OnOk result (string_bytes out.new ≡ string_bytes out.old ++ forest_text (mark_tree frame.end y free.old sight.now)) }
    ensures rows { OnOk result (free.new ≡ rows_after frame.end free.old sight.now) }
{
    let x = frame.x(sight.offset());
    let label = label_of(sight);
    let row = row_at(free, x);
    push_mark_in(out, x, y, row, sight, label)?;
    take_row(free, row, x, label.len());
    Ok(())
}

/// The first row that is free at this place.
fn row_at(free: &[u64], x: u64) -> Option<usize>
    ensures row { result ≡ position (λ from. nat_le from x) free.now }
    ensures within { IfSome result (λ row. row < length free.now) }
{
    free.iter().position(|from| *from <= x)
}

/// A row that is free behind a text of so many bytes again.
fn take_row(free: &mut [u64], row: Option<usize>, x: u64, bytes: usize)
    requires x { x < 2 ^ 60 }
    requires bytes { bytes ≤ LONGEST_LABEL }
    requires row { IfSome row (λ r. r < length free.old) }
    ensures { free.new ≡ rows_with free.old row x bytes }
{
    if let Some(row) = row {
        free[row] = x + (bytes as u64 + 2) * LETTER;
    }
}

/// Appends a mark, with its text in this row.
fn push_mark_in(
    out: &mut String,
    x: u64,
    y: u64,
    row: Option<usize>,
    sight: &Sight,
    label: &[u8],
) -> Result<(), AllocError>
    requires x { x < 2 ^ 60 }
    requires y { y < 2 ^ 32 }
    requires row { IfSome row (λ r. r < ROWS) }
    ensures { OnOk result (string_bytes out.new ≡ string_bytes out.old ++ forest_text (mark_in x y row sight.now label.now)) }
{
    let Some(row) = row else {
        return push_stroke(out, x, y, 34, sight);
    };
    push_stroke(out, x, y, 40 + row as u64 * ROW, sight)?;
    push_label_in(out, x, y, row, label)?;
    Ok(())
}

/// Appends the text of a mark in this row.
#[tactic(auto, unfolding(crate::specs::Marks::label_in))]
fn push_label_in(
    out: &mut String,
    x: u64,
    y: u64,
    row: usize,
    label: &[u8],
) -> Result<(), AllocError>
    requires x { x < 2 ^ 60 }
    requires y { y < 2 ^ 32 }
    requires row { row < ROWS }
    ensures { OnOk result (string_bytes out.new ≡ string_bytes out.old ++ forest_text (label_in x y row label.now)) }
{
    let spot = Spot {
        x: x + 4,
        y: y + 58 + row as u64 * ROW,
    };
    push_label(out, spot, Paint::Label, label)
}

#[tactic(auto, unfolding(crate::specs::Marks::stroke_tree))]
fn push_stroke(
    out: &mut String,
    x: u64,
    y: u64,
    height: u64,
    sight: &Sight,
) -> Result<(), AllocError>
    requires { y < 2 ^ 32 }
    ensures { OnOk result (string_bytes out.new ≡ string_bytes out.old ++ forest_text (stroke_tree x y height sight.now)) }
{
    let paint = mark_paint(sight.lane());
    let area = Area {
        x,
        y: y + 16,
        width: 2,
        height,
    };
    push_rect(out, area, paint, sight.line())
}

fn mark_paint(lane: Option<usize>) -> Paint
    ensures { result ≡ mark_paint lane }
{
    match lane {
        None => Paint::Commit,
        Some(_) => Paint::Mark,
    }
}

/// The text of a mark: what the line tells behind its moment and its name, cut where it is long.
#[tactic(auto, unfolding(crate::specs::Marks::label_of))]
fn label_of(sight: &Sight) -> &[u8]
    ensures text { result.now ≡ label_of sight.now }
    ensures short { length result.now ≤ LONGEST_LABEL }
{
    let words = words_behind(sight.lane(), sight.line());
    &words[..LONGEST_LABEL.min(words.len())]
}

fn words_behind(lane: Option<usize>, line: &[u8]) -> &[u8]
    ensures { result.now ≡ words_behind lane line.now }
{
    match lane {
        None => skip_word(line),
        Some(_) => skip_word(skip_word(line)),
    }
}

fn skip_word(bytes: &[u8]) -> &[u8]
    ensures { result.now ≡ skip_word bytes.now }
{
    cut_word(bytes).1.unwrap_or(&[])
}
