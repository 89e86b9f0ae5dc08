//! Patroni 3 over modelled servers: reads a script on standard input and prints its run, or serves the REST interface of one of
//! its agents on a socket too. All that it does is `patroni_top::run`, over the real input, outputs and network.
#![tactic(auto)]

use pat_door::ListenerDoor;
use pat_outside::{ReaderSource, WriterSink, write_all};
use patroni_top::{Ended, Status, run};
use std::io::{BufWriter, Stdout, Write};
use std::process::ExitCode;
use std::rt::Env;
use std::{env, io};

/// How many bytes of lines are gathered before they are written to standard output.
const GATHERED: usize = 65_536;

/// While connections are served each line is seen as it comes.
const UNGATHERED: usize = 1;

fn main(rt: HostRuntime) -> ExitCode {
    let mut err = WriterSink::new(rt.stderr());
    let Ok(words) = words(&rt) else {
        return want_of_memory(err);
    };
    let Ok(mut lines) = gathering(&rt, &words) else {
        return want_of_memory(err);
    };
    let mut input = ReaderSource::new(rt.stdin());
    let mut out = WriterSink::new(&mut lines);
    let mut door = ListenerDoor::new(&rt);
    let Ended { status, world } = run(
        rt.alloc(),
        &words,
        &mut input,
        &mut out,
        &mut err,
        &mut door,
    );
    if let Some(world) = world {
        world.close();
    }
    let ended = finish(lines, status);
    if ended != status {
        let _ = write_all(&mut err, b"write fault\n");
    }
    ExitCode::from(ended.code())
}

/// Standard output behind a buffer: one write for many lines, unless connections are to be served.
fn gathering(rt: &HostRuntime, words: &[String]) -> io::Result<BufWriter<Stdout>> {
    let gathered = match words {
        [word, ..] if word.as_str() == "serve" => UNGATHERED,
        _ => GATHERED,
    };
    BufWriter::with_capacity(rt.alloc(), gathered, rt.stdout())
}

/// Writes the lines that are still gathered, and answers how the run ended then. After a write fault nothing more is written.
fn finish(mut lines: BufWriter<Stdout>, status: Status) -> Status {
    let failed = status == Status::WriteFault || lines.flush().is_err();
    let _ = lines.into_parts();
    if failed && status == Status::Done {
        Status::WriteFault
    } else {
        status
    }
}

/// The words behind the program's name. Words that aren't text are no words, so they are no command.
fn words<R: Env + AllocGlobal>(rt: &R) -> io::Result<Vec<String>> {
    let mut words = Vec::new(rt.alloc());
    match env::args(rt) {
        Ok(args) => {
            for word in args.skip(1) {
                words.push(word)?;
            }
        }
        Err(e) if e.kind() == io::ErrorKind::InvalidData => {}
        Err(e) => return Err(e),
    }
    Ok(words)
}

/// Says that memory is wanting, before anything is begun.
fn want_of_memory<W: Write + Drop>(mut err: WriterSink<W>) -> ExitCode {
    let _ = write_all(&mut err, b"out of memory\n");
    ExitCode::from(Status::Memory.code())
}
