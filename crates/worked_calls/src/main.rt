//! Checks worked calls. Each file NAME.table of the folder that this program runs in has rows: what a public call is asked, and what it is told,
//! worked by hand. `table` says how they are written, and the modules what can be asked. Where another thing is told a line tells the row; a line for each table tells how many of its rows agree. The exit
//! status is 1 where one doesn't.
#![tactic(auto)]

mod addresses;
mod bench;
mod checks;
mod commands;
mod configurations;
mod connections;
mod decisions;
mod health;
mod pages;
mod requests;
mod rows;
mod scripts;
mod stop;
mod table;
mod values;
mod words;
mod writes;

use bench::Bench;
use rows::differing;
use std::process::ExitCode;
use std::rt::Files;
use std::{fs, io};
use table::lines_of;

fn main(rt: HostRuntime) -> io::Result<ExitCode> {
    let mut all_agree = true;
    for name in &names(&rt)? {
        all_agree = agrees(&rt, name.as_str())? && all_agree;
    }
    Ok(ExitCode::from(u8::from(!all_agree)))
}

/// The names of the tables, in order.
fn names<R: Files + AllocGlobal + Clone + Drop>(rt: &R) -> io::Result<Vec<String>> {
    let mut names = Vec::new(rt.alloc());
    for entry in fs::read_dir(rt, ".")? {
        if let Some(name) = entry?.file_name().strip_suffix(".table") {
            names.push(String::from_str(rt.alloc(), name)?)?;
        }
    }
    names.sort()?;
    Ok(names)
}

/// Whether all rows of the table of this name agree. Prints each that doesn't, and how many do.
fn agrees<R: Files + AllocGlobal + Print>(rt: &R, name: &str) -> io::Result<bool> {
    let alloc = rt.alloc();
    let bytes = fs::read(rt, format!(in alloc; "{name}.table")?.as_str())?;
    let text = String::from_utf8_lossy(alloc, &bytes)?;
    let lines = lines_of(alloc, text.as_str())?;
    let mut bench = Bench::new(alloc)?;
    let (mut agreeing, mut all_agree) = (0u64, true);
    for line in &lines {
        match differing(alloc, &mut bench, line)? {
            None => agreeing = agreeing.saturating_add(u64::from(line.is_row())),
            Some(told) => {
                all_agree = false;
                tell(rt, name, line.asked(), told.as_str())?;
            }
        }
    }
    println!(rt; "{name}: {agreeing} rows agree")?;
    Ok(all_agree)
}

/// Prints a row of a table that doesn't agree, and what it is told.
fn tell<R: Print>(rt: &R, name: &str, asked: &str, told: &str) -> io::Result<()> {
    println!(rt; "{name}: {asked} => {told}")?;
    Ok(())
}
