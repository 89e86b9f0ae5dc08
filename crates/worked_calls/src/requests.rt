//! Requests as the bytes of a connection bring them. In the text of a row `\r`, `\n`, `\t` and `\xff` stand for one byte each.
use crate::stop::{Stop, known};
use crate::words::first_word;
use rest_message::Request;
use rest_request::{RequestFault, read_request};
use std::alloc::{AllocError, Global};
use worked_cases::bytes_of;

/// What is read of bytes: `of BYTES` tells whether they are a whole request, `parts BYTES` its method, its target and its content, and
/// `cuts BYTES` the same word of each shorter front. `field COUNT END` and `fields COUNT` are requests with a field of so many
/// bytes x, and with so many fields `a:`.
pub fn told(alloc: Global, asked: &str) -> Result<String, Stop> {
    let (word, rest) = first_word(asked);
    match word {
        "of" => Ok(read_word(alloc, &bytes_of(alloc, rest)?)?),
        "parts" => parts(alloc, &bytes_of(alloc, rest)?),
        "cuts" => Ok(cuts(alloc, &bytes_of(alloc, rest)?)?),
        "field" => {
            let (count, end) = first_word(rest);
            let start = b"GET / HTTP/1.1\r\na: ";
            let end = bytes_of(alloc, end)?;
            let bytes = repeated(alloc, start, b"x", known(count.parse().ok())?, &end)?;
            Ok(read_word(alloc, &bytes)?)
        }
        "fields" => {
            let count = known(rest.parse().ok())?;
            let bytes = repeated(alloc, b"GET / HTTP/1.1\n", b"a:\n", count, b"\n")?;
            Ok(read_word(alloc, &bytes)?)
        }
        _ => Err(Stop::Unknown),
    }
}

fn read(alloc: Global, bytes: &[u8]) -> Result<Option<Request>, RequestFault> {
    read_request(alloc, bytes)
}

/// What is read of the bytes, in a word: the name of a fault, or whether there is a whole request.
fn read_word(alloc: Global, bytes: &[u8]) -> Result<String, AllocError> {
    match read(alloc, bytes) {
        Ok(Some(_)) => String::from_str(alloc, "whole"),
        Ok(None) => String::from_str(alloc, "more"),
        Err(fault) => format!(in alloc; "{fault}"),
    }
}

fn parts(alloc: Global, bytes: &[u8]) -> Result<String, Stop> {
    match read(alloc, bytes) {
        Ok(Some(request)) => Ok(request_text(alloc, &request)?),
        _ => Err(Stop::Unknown),
    }
}

/// A request's method, its target and its content.
pub fn request_text(alloc: Global, request: &Request) -> Result<String, AllocError> {
    let (method, target) = (request.method, request.target.as_str());
    let body = String::from_utf8_lossy(alloc, &request.body)?;
    format!(in alloc; "{method:?} {target} {body}")
}

/// The words that are told of each shorter front of the bytes: one, where all tell the same.
fn cuts(alloc: Global, bytes: &[u8]) -> Result<String, AllocError> {
    let mut all = String::new(alloc);
    for length in 0..bytes.len() {
        let word = read_word(alloc, &bytes[..length])?;
        if word.as_str() != all.as_str() {
            all.push_str(word.as_str())?;
        }
    }
    Ok(all)
}

/// The start, a line so many times, and the end.
fn repeated(
    alloc: Global,
    start: &[u8],
    line: &[u8],
    count: u32,
    end: &[u8],
) -> Result<Vec<u8>, AllocError> {
    let mut bytes = Vec::from_slice(alloc, start)?;
    for _ in 0..count {
        bytes.extend_from_slice(line)?;
    }
    bytes.extend_from_slice(end)?;
    Ok(bytes)
}
