//! Scripts as text. In the text of a row `\n` stands for the end of a line.
use crate::stop::{Stop, known};
use crate::words::first_word;
use cluster_script::{ScriptLines, limit_passed, read};
use generator_model::MOST_GENERATED;
use script_generator::generate;
use script_grammar::Limit;
use script_printing::print;
use std::alloc::{AllocError, Global};
use worked_cases::bytes_of;

/// What scripts come to. `printed TEXT` is a script that is read and printed, `refused TEXT` its fault; `limit TICKS TEXT` and
/// `limit-of-lines TICKS TEXT` tell which limit it passes with so many ticks beside it; `drawn SEED LINES` prints one that is generated.
pub fn told(alloc: Global, asked: &str) -> Result<String, Stop> {
    let (word, rest) = first_word(asked);
    let (number, text) = first_word(rest);
    match word {
        "printed" => printed(alloc, &bytes_of(alloc, rest)?),
        "refused" => refused(alloc, &bytes_of(alloc, rest)?),
        "limit" => {
            let passed = limit_passed(&bytes_of(alloc, text)?, known(number.parse().ok())?);
            Ok(limit_text(alloc, passed)?)
        }
        "limit-of-lines" => {
            let bytes = bytes_of(alloc, text)?;
            let passed = ScriptLines::of(&bytes).limit_passed(known(number.parse().ok())?);
            Ok(limit_text(alloc, passed)?)
        }
        "drawn" => drawn(
            alloc,
            known(number.parse().ok())?,
            known(text.parse().ok())?,
        ),
        _ => Err(Stop::Unknown),
    }
}

fn printed(alloc: Global, bytes: &[u8]) -> Result<String, Stop> {
    match read(alloc, bytes) {
        Ok(script) => Ok(print(alloc, &script)?),
        Err(_) => Err(Stop::Unknown),
    }
}

fn refused(alloc: Global, bytes: &[u8]) -> Result<String, Stop> {
    match ScriptLines::of(bytes).read(alloc) {
        Ok(_) => Err(Stop::Unknown),
        Err(fault) => Ok(format!(in alloc; "{fault}")?),
    }
}

fn drawn(alloc: Global, seed: u64, lines: u64) -> Result<String, Stop> {
    if lines > MOST_GENERATED {
        return Err(Stop::Unknown);
    }
    Ok(print(alloc, &generate(alloc, seed, lines)?)?)
}

fn limit_text(alloc: Global, limit: Option<Limit>) -> Result<String, AllocError> {
    match limit {
        Some(limit) => format!(in alloc; "{limit:?}"),
        None => String::from_str(alloc, "none"),
    }
}
