//! All bytes of a piece, and all bytes of a source up to a limit.
ghost use Rattle.std.specs.Prelude.{ℕ, ◌≡◌, ◌≢◌, ◌<◌, ◌≤◌, ◌+◌, ◌-◌, ◌++◌, length, take, drop, Some, IfOk, IsOk, OnErr, OnOk, IsErrOf};
ghost use Rattle.pat_outside.specs.Outside.{Known, Rose, Consumed};
ghost use Rattle.pat_outside.specs.Prints.{Prints, failed};
ghost use Rattle.pat_outside.specs.declared.transfer.ReadError.TheVariants.{Memory, Fault};

use crate::{Failed, Sink, Source};
use std::alloc::{AllocError, Global};
use thiserror::Error;

/// Writes all bytes of a piece. On `Failed` a call of the sink failed, and a front of the bytes was written.
pub fn write_all<K: Sink>(sink: &mut K, bytes: &[u8]) -> Result<(), Failed>
    ensures { Prints K.Sink sink.old sink.new failed result bytes.now }
{
    let mut at = 0;
    while at < bytes.len() {
        at += sink.write(&bytes[at..])?;
    }
    Ok(())
}

/// Why the bytes of a source couldn't be read.
#[derive(Clone, Copy, Debug, PartialEq, Eq, Error)]
pub enum ReadError {
    /// Want of memory, which says nothing of the source.
    #[error("out of memory")]
    Memory,
    /// A call of the source failed.
    #[error("read fault")]
    Fault,
}

impl From<AllocError> for ReadError {
    ghost from_gives = { λ _ e. e ≡ Memory };

    fn from(_: AllocError) -> Self {
        ReadError::Memory
    }
}

impl From<Failed> for ReadError {
    ghost from_gives = { λ _ e. e ≡ Fault };

    fn from(_: Failed) -> Self {
        ReadError::Fault
    }
}

/// The next bytes of a source: to its end, or the first `most` of them where there are more. On an error a front of them
/// may have been taken, of at most `most` bytes.
pub fn read_at_most<S: Source>(
    alloc: Global,
    input: &mut S,
    most: usize,
) -> Result<Vec<u8>, ReadError>
    ensures bytes { IfOk result (λ read. Known (S.rest input.old) (λ all. read.items ≡ take most all)) }
    ensures after { IfOk result (λ read. Known (S.rest input.old) (λ all. S.rest input.new ≡ Some (drop most all))) }
    ensures consumed { Consumed (S.rest input.old) (S.rest input.new) most }
    ensures fault { IsErrOf result ReadError.Fault → Rose (S.faults input.old) (S.faults input.new) }
    ensures grows { S.faults input.old ≤ S.faults input.new }
    ensures reliable { S.is_reliable input.old → result ≢ Err ReadError.Fault }
{
    let mut bytes = Vec::new(alloc);
    while bytes.len() < most {
        let left = most - bytes.len();
        if read_more(input, &mut bytes, left)? == 0 {
            return Ok(bytes);
        }
    }
    Ok(bytes)
}

/// Reads some of the next bytes, at most `most`, to the end of the list. No bytes: the source is at its end.
fn read_more<S: Source>(input: &mut S, bytes: &mut Vec<u8>, most: usize) -> Result<usize, ReadError>
    requires { 0 < most }
    ensures within { IfOk result (λ count. count ≤ most) }
    ensures added { IfOk result (λ count. length bytes.new.items ≡ length bytes.old.items + count) }
    ensures bytes { IfOk result (λ count. Known (S.rest input.old) (λ all. (count ≤ length all) × (bytes.new.items ≡ bytes.old.items ++ take count all))) }
    ensures after { IfOk result (λ count. Known (S.rest input.old) (λ all. S.rest input.new ≡ Some (drop count all))) }
    ensures end { IfOk result (λ count. Known (S.rest input.old) (λ all. count ≡ 0 → length all ≡ 0)) }
    ensures consumed { Consumed (S.rest input.old) (S.rest input.new) most }
    ensures fault { IsErrOf result ReadError.Fault → Rose (S.faults input.old) (S.faults input.new) }
    ensures grows { S.faults input.old ≤ S.faults input.new }
    ensures reliable { S.is_reliable input.old → S.is_reliable input.new × (result ≢ Err ReadError.Fault) }
{
    let mut buf = [0u8; 4096];
    let room = most.min(4096);
    let count = input.read(&mut buf[..room])?;
    bytes.extend_from_slice(&buf[..count])?;
    Ok(count)
}
