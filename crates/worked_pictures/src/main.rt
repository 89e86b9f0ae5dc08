//! Checks worked pictures. For each file NAME.run of the folder that this program runs in, a printed run or other bytes, NAME.svg has the
//! picture of it, worked from the definitions apart from the program. Where another picture comes a line tells the first difference. The
//! last line tells how many pictures agree, and the exit status is 1 where one doesn't.
#![tactic(auto)]

use picture::picture_of;
use run_reading::read_run;
use std::process::ExitCode;
use std::rt::Files;
use std::{fs, io};
use worked_cases::{first_difference, text_or};

fn main(rt: HostRuntime) -> io::Result<ExitCode> {
    let mut agreeing = 0u64;
    let mut all_agree = true;
    for name in &names(&rt)? {
        if agrees(&rt, name.as_str())? {
            agreeing = agreeing.saturating_add(1);
        } else {
            all_agree = false;
        }
    }
    println!(rt; "{agreeing} pictures agree")?;
    Ok(ExitCode::from(u8::from(!all_agree)))
}

/// The names of the runs, in order.
fn names<R: Files + AllocGlobal + Clone + Drop>(rt: &R) -> io::Result<Vec<String>> {
    let mut names = Vec::new(rt.alloc());
    for entry in fs::read_dir(rt, ".")? {
        if let Some(name) = entry?.file_name().strip_suffix(".run") {
            names.push(String::from_str(rt.alloc(), name)?)?;
        }
    }
    names.sort()?;
    Ok(names)
}

/// Whether the run of this name has the picture beside it. Prints the first difference.
fn agrees<R: Files + AllocGlobal + Print>(rt: &R, name: &str) -> io::Result<bool> {
    let alloc = rt.alloc();
    let run = read_run(
        alloc,
        &fs::read(rt, format!(in alloc; "{name}.run")?.as_str())?,
    )?;
    let picture = picture_of(alloc, &run)?;
    let wanted = text_or(rt, name, "svg", "")?;
    match first_difference(picture.as_str(), 0, wanted.as_str()) {
        None => Ok(true),
        Some(difference) => {
            println!(rt; "{name}.svg: {difference}")?;
            Ok(false)
        }
    }
}
