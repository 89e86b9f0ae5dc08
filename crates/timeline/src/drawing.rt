//! From the bytes of a run to those of its picture.
ghost use Rattle.std.specs.Prelude.{◌≡◌, IfOk, string_bytes};
ghost use Rattle.pat_outside.specs.Outside.{Known, Rose};
ghost use Rattle.picture.specs.Pictures.{picture_text};
ghost use Rattle.run_reading.specs.Runs.{run_of};
ghost use Rattle.script_words.specs.Lines.{lines_in};
ghost use Rattle.timeline.specs.Drawing.{IsDrawn, drawn_of};

use crate::status::Status;
use pat_outside::{ReadError, Sink, Source, read_at_most, write_all};
use picture::picture_of;
use run_reading::read_run;
use std::alloc::{AllocError, Global};

/// Reads a printed run, which may be any bytes, and writes its picture.
pub fn draw<S: Source, K: Sink>(alloc: Global, input: &mut S, out: &mut K) -> Status
    // What is written is the picture of the lines that were read.
    ensures drawn { Known (S.rest input.old) (λ bytes. IsDrawn K.Sink out.old out.new result (drawn_of bytes)) }
    ensures read_fault { result ≡ Status.ReadFault → Rose (S.faults input.old) (S.faults input.new) }
    ensures write_fault { result ≡ Status.WriteFault → Rose (K.faults out.old) (K.faults out.new) }
{
    let bytes = match read_at_most(alloc, input, usize::MAX) {
        Ok(bytes) => bytes,
        Err(ReadError::Memory) => return Status::Memory,
        Err(ReadError::Fault) => return Status::ReadFault,
    };
    let Ok(text) = text_of(alloc, &bytes) else {
        return Status::Memory;
    };
    match write_all(out, text.as_bytes()) {
        Ok(()) => Status::Done,
        Err(_) => Status::WriteFault,
    }
}

/// The picture of these bytes' lines.
fn text_of(alloc: Global, bytes: &[u8]) -> Result<String, AllocError>
    ensures { IfOk result (λ text. string_bytes text ≡ picture_text (run_of (lines_in bytes.now))) }
{
    let run = read_run(alloc, bytes)?;
    picture_of(alloc, &run)
}
