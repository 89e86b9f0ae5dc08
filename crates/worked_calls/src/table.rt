//! Tables of calls as text. A line `ASKED => TOLD` is a row: what is asked, and what is told. Where nothing stands behind `=>` the lines
//! behind it that begin with `| ` are told, each without these two. A line without `=>` sets up what the rows below it are asked of. Empty lines and those
//! that begin with `#` say nothing.
use std::alloc::{AllocError, Global};

/// A line of a table.
#[derive(Drop)]
pub enum Line<'a> {
    SetUp(&'a str),
    Row { asked: &'a str, told: String },
}

/// The lines of a table that say something, in order.
pub fn lines_of(alloc: Global, text: &str) -> Result<Vec<Line<'_>>, AllocError> {
    let mut lines = Vec::new(alloc);
    for line in text.split('\n') {
        if line.is_empty() || line.starts_with("#") {
            continue;
        }
        match line.strip_prefix("| ") {
            Some(more) => add(&mut lines, more)?,
            None => lines.push(line_of(alloc, line)?)?,
        }
    }
    Ok(lines)
}

fn line_of(alloc: Global, line: &str) -> Result<Line<'_>, AllocError> {
    if let Some(asked) = line.strip_suffix(" =>") {
        let told = String::new(alloc);
        return Ok(Line::Row { asked, told });
    }
    match line.split_once(" => ") {
        None => Ok(Line::SetUp(line)),
        Some((asked, told)) => Ok(Line::Row {
            asked,
            told: String::from_str(alloc, told)?,
        }),
    }
}

/// Adds a line to what the last row tells.
fn add(lines: &mut Vec<Line<'_>>, more: &str) -> Result<(), AllocError> {
    if let Some(Line::Row { told, .. }) = lines.last_mut() {
        told.push_str(more)?;
        told.push_str("\n")?;
    }
    Ok(())
}

impl Line<'_> {
    /// Whether it tells what is wanted.
    pub fn is_row(&self) -> bool {
        matches!(self, Line::Row { .. })
    }

    /// What it asks, or sets up.
    pub fn asked(&self) -> &str {
        match self {
            Line::SetUp(text) => text,
            Line::Row { asked, .. } => asked,
        }
    }
}
