//! Checks worked runs. For each file NAME.script of the folder that this program runs in, NAME.run has what the program prints that
//! reads it, or NAME.refused has the status and the line with which it refuses, and what it printed before. What the program is run
//! with stands beside it:
//!
//! - NAME.words: its words, on a line; where there is no such file, the word `run` alone;
//! - NAME.asked: what is asked on each connection that comes to its door, a line each; NAME.answered has what is answered on each;
//! - NAME.faults: which calls fail, on a line, as `input 1, out 3` for the first read and the third write: of `input`, `out`, `err` and
//!   `door`; on an empty line none;
//! - NAME.repeats: lines `COUNT LINE`; this line of the script stands so many times.
//!
//! Several lines of words or of faults are several runs: the first line of words with the first of faults, and so on; the last line of
//! the file that has fewer stands for those that it lacks. Their outcomes stand one behind the other, each behind a line as
//! `$ gen 1 1; out 1` that tells its words and its faults, and with its status, where that isn't 0: all in NAME.refused where one has
//! another status than 0, and else in NAME.run.
//!
//! In place of NAME.run there may be NAME.end, which has the last lines of what is printed. A line `*` of a file with an outcome stands
//! for any line: what nobody worked by hand isn't held. NAME.views has what the world shows that a
//! run leaves, by the agent of each member, if it runs: a line `NAME shows` with the body of its page `/patroni`, and for each member of
//! which its newest snapshot tells a line `NAME reaches OTHER at HOST, which tells` with the host and the tags that this member told of
//! itself, as the options of a member's line in a script.
//!
//! Where another outcome comes a line tells the first difference. The last line tells how many worked runs agree, and the exit status
//! is 1 where one doesn't.
#![tactic(auto)]

mod outcome;
mod views;

use outcome::outcome_of;
use std::process::ExitCode;
use std::rt::Files;
use std::{fs, io};
use worked_cases::{case_of, first_difference, lines_more, text_or};

fn main(rt: HostRuntime) -> io::Result<ExitCode> {
    let mut agreeing = 0u64;
    let mut all_agree = true;
    for name in &names(&rt)? {
        if agrees(&rt, name.as_str())? {
            agreeing = agreeing.saturating_add(1);
        } else {
            all_agree = false;
        }
    }
    println!(rt; "{agreeing} runs agree")?;
    Ok(ExitCode::from(u8::from(!all_agree)))
}

/// The names of the scripts, in order.
fn names<R: Files + AllocGlobal + Clone + Drop>(rt: &R) -> io::Result<Vec<String>> {
    let mut names = Vec::new(rt.alloc());
    for entry in fs::read_dir(rt, ".")? {
        if let Some(name) = entry?.file_name().strip_suffix(".script") {
            names.push(String::from_str(rt.alloc(), name)?)?;
        }
    }
    names.sort()?;
    Ok(names)
}

/// Whether the worked run of this name has the outcome that the files beside it say.
fn agrees<R: Files + AllocGlobal + Print>(rt: &R, name: &str) -> io::Result<bool> {
    let outcome = outcome_of(rt.alloc(), &case_of(rt, name)?)?;
    let told = is_as_wanted(rt, name, outcome.ending, outcome.text.as_str())?;
    let answered = is_as_wanted(rt, name, "answered", outcome.answered.as_str())?;
    let viewed = is_as_wanted(rt, name, "views", outcome.views.as_str())?;
    Ok(told && answered && viewed)
}

/// Whether this text is that of a file, or ends so; a file that is absent has none. Prints the first difference.
fn is_as_wanted<R: Files + AllocGlobal + Print>(
    rt: &R,
    name: &str,
    ending: &str,
    told: &str,
) -> io::Result<bool> {
    let wanted = text_or(rt, name, ending, "")?;
    let wanted = wanted.as_str();
    let skipped = match ending {
        "end" => lines_more(told, wanted),
        _ => 0,
    };
    match first_difference(told, skipped, wanted) {
        None => Ok(true),
        Some(difference) => {
            println!(rt; "{name}.{ending}: {difference}")?;
            Ok(false)
        }
    }
}
