//! A picture of a run: reads a printed run on standard input, and writes one document of SVG on standard output. All that it does is
//! `draw`, over the real input and output.
#![tactic(auto)]

mod drawing;
mod status;

use drawing::draw;
use pat_outside::{ReaderSource, WriterSink, write_all};
use status::message_of;
use std::process::ExitCode;

fn main(rt: HostRuntime) -> ExitCode {
    let mut input = ReaderSource::new(rt.stdin());
    let mut out = WriterSink::new(rt.stdout());
    let mut err = WriterSink::new(rt.stderr());
    let status = draw(rt.alloc(), &mut input, &mut out);
    let _ = write_all(&mut err, message_of(status).as_bytes());
    ExitCode::from(status as u8)
}
