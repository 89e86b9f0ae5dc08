//! Where promises end.
ghost use Rattle.std.specs.Prelude.{◌≡◌, ◌++◌, OnOk, string_bytes};
ghost use Rattle.svg.specs.Forests.{forest_text};
ghost use Rattle.picture.specs.Alarms.{alarm_if, alarm_of, alarm_told, alarm_tree, alarms_tree};

use crate::frame::{Frame, offset_at};
use crate::lanes::TOP;
use run_reading::{Answer, AnswerLine, Sight};
use std::alloc::AllocError;
use svg::{Area, Paint, push_rect};

/// Appends a stroke over all lanes for each moment at which a promise ended, as the closing summary tells it.
pub(crate) fn push_alarms(
    out: &mut String,
    frame: Frame,
    height: u64,
    sights: &[Sight],
    answers: &[AnswerLine],
) -> Result<(), AllocError>
    ensures { OnOk result (string_bytes out.new ≡ string_bytes out.old ++ forest_text (alarms_tree frame.end height sights.now answers.now)) }
{
    for line in answers {
        push_alarm_if(out, frame, height, sights, line)?;
    }
    Ok(())
}

/// Appends a stroke where the line tells that a promise ended.
fn push_alarm_if(
    out: &mut String,
    frame: Frame,
    height: u64,
    sights: &[Sight],
    line: &AnswerLine,
) -> Result<(), AllocError>
    ensures { OnOk result (string_bytes out.new ≡ string_bytes out.old ++ forest_text (alarm_if frame.end height sights.now line.now (alarm_of line.now))) }
{
    match alarm_of(line) {
        None => Ok(()),
        Some(moment) => push_alarm(out, frame.x(offset_at(sights, moment)), height, line),
    }
}

#[tactic(auto, unfolding(crate::specs::Alarms::alarm_tree))]
fn push_alarm(out: &mut String, x: u64, height: u64, line: &AnswerLine) -> Result<(), AllocError>
    ensures { OnOk result (string_bytes out.new ≡ string_bytes out.old ++ forest_text (alarm_tree x height line.now)) }
{
    let area = Area {
        x,
        y: TOP,
        width: 3,
        height,
    };
    push_rect(out, area, Paint::Alarm, line.line())
}

/// The moment at which a promise ended, where this line tells one: the premises broke, two writers began, or a commit was lost.
pub(crate) fn alarm_of(line: &AnswerLine) -> Option<u64>
    ensures { result ≡ alarm_of line.now }
{
    alarm_told(line.answer(), line.moment())
}

fn alarm_told(answer: Answer, moment: Option<u64>) -> Option<u64>
    ensures { result ≡ alarm_told answer moment }
{
    match answer {
        Answer::Premises | Answer::TwoWriters | Answer::Lost => moment,
        _ => None,
    }
}
