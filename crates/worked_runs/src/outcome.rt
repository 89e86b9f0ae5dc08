//! What comes of a worked run.
use crate::views::write_views;
use pat_door::MemoryDoor;
use pat_outside::{MemorySink, MemorySource};
use patroni_top::{Ended, Status, run};
use std::alloc::{AllocError, Global};
use worked_cases::{Case, Turn, connections_in, failing, line_of};

/// How many bytes a run may print.
const ROOM: usize = 8_388_608;

/// How many bytes may be said on `err`, and how many answered on all connections.
const SMALL_ROOM: usize = 65_536;

/// What comes of a worked run.
#[derive(Drop)]
pub struct Outcome {
    /// How the name of the file ends that has it.
    pub ending: &'static str,
    /// Of each time: its status, where that isn't 0, what is said on `err`, and what is printed.
    pub text: String,
    /// What is answered on each connection that came, a line each.
    pub answered: String,
    /// What the world shows that is left, where that is to be told.
    pub views: String,
}

/// What the program makes of a worked run.
pub fn outcome_of(alloc: Global, case: &Case) -> Result<Outcome, AllocError> {
    let mut outcome = Outcome {
        ending: case.printed,
        text: String::new(alloc),
        answered: String::new(alloc),
        views: String::new(alloc),
    };
    let turns = case.turns(alloc)?;
    for turn in &turns {
        if turns.len() > 1 {
            write_heading(&mut outcome.text, turn)?;
        }
        take_turn(&mut outcome, alloc, case, turn)?;
    }
    Ok(outcome)
}

/// Appends the line that tells what is run.
fn write_heading(text: &mut String, turn: &Turn<'_>) -> Result<(), AllocError> {
    let Turn { words, faults } = *turn;
    let between = if faults.is_empty() { "" } else { "; " };
    write!(text, "$ {words}{between}{faults}\n")
}

/// Runs the program, and adds what comes of it.
fn take_turn(
    outcome: &mut Outcome,
    alloc: Global,
    case: &Case,
    turn: &Turn<'_>,
) -> Result<(), AllocError> {
    let faults = turn.faults;
    let asked = connections_in(alloc, case.asked.as_str())?;
    let visitors = asked.len();
    let words = words_of(alloc, turn.words)?;
    let mut input = MemorySource::new(
        case.script.to_vec(alloc)?,
        failing(alloc, faults, "input ")?,
    );
    let mut out = MemorySink::new(alloc, ROOM, failing(alloc, faults, "out ")?)?;
    let mut err = MemorySink::new(alloc, SMALL_ROOM, failing(alloc, faults, "err ")?)?;
    let mut door = MemoryDoor::new(alloc, asked, SMALL_ROOM, failing(alloc, faults, "door ")?)?;
    let ended = run(alloc, &words, &mut input, &mut out, &mut err, &mut door);
    let status = leave(&mut outcome.views, alloc, case.is_viewed, ended)?;
    if status != Status::Done {
        outcome.ending = "refused";
    }
    write_told(&mut outcome.text, alloc, status, &out, &err)?;
    write_answers(&mut outcome.answered, alloc, &door, visitors)
}

/// The words of a line, between which a blank stands.
fn words_of(alloc: Global, line: &str) -> Result<Vec<String>, AllocError> {
    let mut words = Vec::new(alloc);
    for word in line.split(' ') {
        words.push(String::from_str(alloc, word)?)?;
    }
    Ok(words)
}

/// Closes the world that a run leaves, behind what it shows where that is to be told.
fn leave(
    views: &mut String,
    alloc: Global,
    is_viewed: bool,
    ended: Ended,
) -> Result<Status, AllocError> {
    let Ended { status, world } = ended;
    if let Some(world) = world {
        let written = if is_viewed {
            write_views(views, alloc, &world)
        } else {
            Ok(())
        };
        world.close();
        written?;
    }
    Ok(status)
}

/// Appends what a run told. A status behind which nothing is said has its line alone.
fn write_told(
    text: &mut String,
    alloc: Global,
    status: Status,
    out: &MemorySink,
    err: &MemorySink,
) -> Result<(), AllocError> {
    let out = String::from_utf8_lossy(alloc, out.bytes())?;
    let err = String::from_utf8_lossy(alloc, err.bytes())?;
    let code = status.code();
    match (status, err.as_str()) {
        (Status::Done, said) => text.push_str(said)?,
        (_, "") => write!(text, "{code}\n")?,
        (_, said) => write!(text, "{code} {said}")?,
    }
    text.push_str(out.as_str())
}

/// Appends what was answered on each connection that came.
fn write_answers(
    text: &mut String,
    alloc: Global,
    door: &MemoryDoor,
    visitors: usize,
) -> Result<(), AllocError> {
    for place in 0..visitors {
        if let Some(answer) = door.answers(place) {
            text.push_str(line_of(alloc, answer)?.as_str())?;
        }
    }
    Ok(())
}
