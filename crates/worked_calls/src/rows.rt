//! What lines of tables come to.
use crate::bench::Bench;
use crate::stop::Stop;
use crate::table::Line;
use crate::words::first_word;
use crate::{
    addresses, checks, commands, configurations, connections, decisions, health, pages, requests,
    scripts, values, writes,
};
use std::alloc::{AllocError, Global};

/// What a line is told, where that isn't what is wanted.
pub fn differing(
    alloc: Global,
    bench: &mut Bench,
    line: &Line<'_>,
) -> Result<Option<String>, AllocError> {
    let (word, rest) = first_word(line.asked());
    match line {
        Line::SetUp(_) => match bench.set_up(alloc, word, rest) {
            Ok(()) => Ok(None),
            Err(stop) => Ok(Some(unanswered(alloc, stop)?)),
        },
        Line::Row { told: wanted, .. } => {
            let told = match told(alloc, bench, word, rest) {
                Ok(told) => told,
                Err(stop) => unanswered(alloc, stop)?,
            };
            Ok(if told.as_str() == wanted.as_str() {
                None
            } else {
                Some(told)
            })
        }
    }
}

/// Words that no row wants.
fn unanswered(alloc: Global, stop: Stop) -> Result<String, AllocError> {
    match stop {
        Stop::Memory => Err(AllocError),
        Stop::Unknown => String::from_str(alloc, "(the line isn't understood)"),
    }
}

/// What is told of what a row asks, by its first word.
fn told(alloc: Global, bench: &mut Bench, word: &str, rest: &str) -> Result<String, Stop> {
    match word {
        "store" => writes::told(alloc, bench, rest),
        "value" => values::told(alloc, rest),
        "target" => Ok(addresses::target(alloc, rest)?),
        "path" => Ok(addresses::path(alloc, rest)?),
        "request" => requests::told(alloc, rest),
        "connection" => connections::told(alloc, rest),
        "configuration" => configurations::told(alloc, rest),
        "script" => scripts::told(alloc, rest),
        "command" => commands::told(alloc, bench, rest),
        _ => told_of_view(alloc, bench, word, rest),
    }
}

/// What is told of what an agent shows.
fn told_of_view(alloc: Global, bench: &Bench, word: &str, rest: &str) -> Result<String, Stop> {
    let seen = bench.snapshot(alloc)?;
    let view = bench.view(&seen);
    match word {
        "ctl" => Ok(commands::answered(alloc, &seen, rest)?),
        "decide" => decisions::told(alloc, &view, &seen, rest),
        "health" => health::told(alloc, &view, rest),
        "page" => pages::page(alloc, &view, &seen, rest),
        "answer" => pages::answered(alloc, &view, rest),
        "check" => checks::told(alloc, &view, rest),
        _ => Err(Stop::Unknown),
    }
}
