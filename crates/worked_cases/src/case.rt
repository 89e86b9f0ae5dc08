//! Worked runs, as their files have them.
use crate::repeats::with_repeats;
use std::alloc::{AllocError, Global};
use std::rt::Files;
use std::{fs, io};

/// What the program is run with, once or several times.
#[derive(Drop)]
pub struct Case {
    pub script: Vec<u8>,
    /// The lines of what is asked on each connection that comes to its door.
    pub asked: String,
    /// How the name of the file ends that has what is printed.
    pub printed: &'static str,
    /// Whether it is told what the world shows that is left.
    pub is_viewed: bool,
    words: String,
    faults: String,
}

/// One of the times that the program is run: its words, and which calls fail of what it is handed.
#[derive(Clone, Copy)]
pub struct Turn<'a> {
    pub words: &'a str,
    pub faults: &'a str,
}

impl Case {
    /// The times that the program is run: by each line of words with the line of faults at its place, or the last of them.
    pub fn turns(&self, alloc: Global) -> Result<Vec<Turn<'_>>, AllocError> {
        let words = lines_of(alloc, self.words.as_str())?;
        let faults = lines_of(alloc, self.faults.as_str())?;
        let mut turns = Vec::new(alloc);
        for place in 0..words.len().max(faults.len()) {
            turns.push(Turn {
                words: line_at(&words, place),
                faults: line_at(&faults, place),
            })?;
        }
        Ok(turns)
    }
}

/// The worked run of this name.
pub fn case_of<R: Files + AllocGlobal>(rt: &R, name: &str) -> io::Result<Case> {
    Ok(Case {
        script: script_of(rt, name)?,
        asked: text_or(rt, name, "asked", "")?,
        printed: match text(rt, name, "end")? {
            Some(_) => "end",
            None => "run",
        },
        is_viewed: text(rt, name, "views")?.is_some(),
        words: text_or(rt, name, "words", "run")?,
        faults: text_or(rt, name, "faults", "")?,
    })
}

/// The script, with its lines as often as they are to stand.
fn script_of<R: Files + AllocGlobal>(rt: &R, name: &str) -> io::Result<Vec<u8>> {
    let alloc = rt.alloc();
    let script = fs::read(rt, format!(in alloc; "{name}.script")?.as_str())?;
    match text(rt, name, "repeats")? {
        None => Ok(script),
        Some(repeats) => {
            let script = String::from_utf8_lossy(alloc, &script)?;
            let script = with_repeats(alloc, script.as_str(), repeats.as_str())?;
            Ok(script.as_bytes().to_vec(alloc)?)
        }
    }
}

/// The text of a file; another where it is absent.
pub fn text_or<R: Files + AllocGlobal>(
    rt: &R,
    name: &str,
    ending: &str,
    absent: &str,
) -> io::Result<String> {
    match text(rt, name, ending)? {
        Some(text) => Ok(text),
        None => Ok(String::from_str(rt.alloc(), absent)?),
    }
}

/// The text of a file, if it is there.
fn text<R: Files + AllocGlobal>(rt: &R, name: &str, ending: &str) -> io::Result<Option<String>> {
    let alloc = rt.alloc();
    match fs::read(rt, format!(in alloc; "{name}.{ending}")?.as_str()) {
        Ok(bytes) => Ok(Some(String::from_utf8_lossy(alloc, &bytes)?)),
        Err(error) if error.kind() == io::ErrorKind::NotFound => Ok(None),
        Err(error) => Err(error),
    }
}

/// The lines of a text, the last of which may lack its line feed. An empty text has one, which is empty.
fn lines_of(alloc: Global, text: &str) -> Result<Vec<&str>, AllocError> {
    let mut lines = Vec::new(alloc);
    for line in text.strip_suffix("\n").unwrap_or(text).split('\n') {
        lines.push(line)?;
    }
    Ok(lines)
}

/// The line at a place, or the last where there are fewer.
fn line_at<'a>(lines: &[&'a str], place: usize) -> &'a str {
    match lines.get(place).or(lines.last()) {
        Some(line) => line,
        None => "",
    }
}
