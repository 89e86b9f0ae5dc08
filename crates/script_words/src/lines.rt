//! Bytes as lines.
ghost use Rattle.std.specs.Prelude.{◌≡◌, ◌<◌, [], ◌∷◌, length, IfNone, IfSome};
ghost use Rattle.std.specs.Str.{is_utf8};
ghost use Rattle.script_words.specs.Lines.{lines_in, first_at, is_skipped};

/// The first line, and the bytes behind its line feed; the last line may lack it. `None` exactly where there is no byte.
pub fn cut_line(bytes: &[u8]) -> Option<(&[u8], &[u8])>
    ensures ended { IfNone result (lines_in bytes.now ≡ []) }
    ensures lines { IfSome result (λ cut. lines_in bytes.now ≡ cut.0.now ∷ lines_in cut.1.now) }
    ensures shorter { IfSome result (λ cut. length cut.1.now < length bytes.now) }
{
    if bytes.is_empty() {
        return None;
    }
    match first_at(b'\n', bytes) {
        Some(end) => Some((&bytes[..end], &bytes[end + 1..])),
        None => Some((bytes, &[])),
    }
}

/// Where a byte stands first.
pub fn first_at(byte: u8, bytes: &[u8]) -> Option<usize>
    ensures place { result ≡ first_at byte bytes.now }
    ensures within { IfSome result (λ place. place < length bytes.now) }
{
    for (place, b) in bytes.iter().enumerate() {
        if *b == byte {
            return Some(place);
        }
    }
    None
}

/// Whether a line is empty or a comment.
pub fn is_skipped(line: &[u8]) -> bool
    ensures { result ≡ is_skipped line.now }
{
    match line {
        [] => true,
        [first, ..] => *first == b'#',
    }
}

/// Whether a line is UTF-8.
pub fn is_text(line: &[u8]) -> bool
    ensures { result ≡ is_utf8 line.now }
{
    match str::from_utf8(line) {
        Ok(_) => true,
        Err(_) => false,
    }
}
