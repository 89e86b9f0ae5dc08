//! Scripts in which a line stands many times.
use std::alloc::{AllocError, Global};

/// A script, with its lines as often as they are to stand by lines as `90000 commit a 1`. Others stand once.
pub fn with_repeats(alloc: Global, script: &str, repeats: &str) -> Result<String, AllocError> {
    let mut text = String::new(alloc);
    for line in script.strip_suffix("\n").unwrap_or(script).split('\n') {
        for _ in 0..count_of(line, repeats) {
            text.push_str(line)?;
            text.push_str("\n")?;
        }
    }
    Ok(text)
}

/// How often a line of a script is to stand.
fn count_of(line: &str, repeats: &str) -> u64 {
    for told in repeats.split('\n') {
        let Some((count, repeated)) = told.split_once(' ') else {
            continue;
        };
        if repeated == line {
            return count.parse().unwrap_or(1);
        }
    }
    1
}
