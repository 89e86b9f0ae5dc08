//! Connections as text: a line each, in which `\r`, `\n`, `\t` and `\xff` with any two digits stand for one byte, as in a literal of Rust.
use std::alloc::{AllocError, Global};

/// The bytes that are asked on each connection.
pub fn connections_in(alloc: Global, text: &str) -> Result<Vec<Vec<u8>>, AllocError> {
    let mut connections = Vec::new(alloc);
    for line in text.split('\n') {
        if !line.is_empty() {
            connections.push(bytes_of(alloc, line)?)?;
        }
    }
    Ok(connections)
}

/// The bytes that a line stands for.
pub fn bytes_of(alloc: Global, line: &str) -> Result<Vec<u8>, AllocError> {
    let mut pieces = line.split('\\');
    let mut bytes = Vec::new(alloc);
    if let Some(front) = pieces.next() {
        bytes.extend_from_slice(front.as_bytes())?;
    }
    for piece in pieces {
        let (byte, rest) = escaped_byte(piece);
        bytes.push(byte)?;
        bytes.extend_from_slice(rest.as_bytes())?;
    }
    Ok(bytes)
}

/// The byte that what stands behind a backslash begins with, and the rest.
fn escaped_byte(piece: &str) -> (u8, &str) {
    if let Some(rest) = piece.strip_prefix("r") {
        return (b'\r', rest);
    }
    if let Some(rest) = piece.strip_prefix("n") {
        return (b'\n', rest);
    }
    if let Some(rest) = piece.strip_prefix("t") {
        return (b'\t', rest);
    }
    match piece.strip_prefix("x").and_then(byte_by_digits) {
        Some(found) => found,
        None => (b'\\', piece),
    }
}

/// The byte of the two hexadecimal digits that a text begins with, and the rest.
fn byte_by_digits(text: &str) -> Option<(u8, &str)> {
    let (digits, rest) = text.split_at_checked(2)?;
    Some((u8::from_str_radix(digits, 16).ok()?, rest))
}

/// What is answered on a connection, as a line.
pub fn line_of(alloc: Global, answer: &[u8]) -> Result<String, AllocError> {
    let text = String::from_utf8_lossy(alloc, answer)?;
    let mut line = String::new(alloc);
    let mut pieces = text.as_str().split("\r\n");
    if let Some(front) = pieces.next() {
        line.push_str(front)?;
    }
    for piece in pieces {
        line.push_str("\\r\\n")?;
        line.push_str(piece)?;
    }
    line.push_str("\n")?;
    Ok(line)
}
