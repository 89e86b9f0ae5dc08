//! How much content a request has (RFC 9110, section 8.6; RFC 9112, section 6.3).
ghost use Rattle.std.specs.Prelude.{◌≡◌, ◌<◌, ◌+◌, IsTrue, All, map, length, min};
ghost use Rattle.std.specs.List.{list_all};
ghost use Rattle.std.specs.Char.{is_ascii_digit, digit_value};
ghost use Rattle.std.specs.Str.Parse.{digits_value};
ghost use Rattle.httparse.specs.Spans.{IsHeaderWithin, header_bytes};
ghost use Rattle.rest_request.specs.declared.limits.TheConstants.{BODY_LIMIT};
ghost use Rattle.rest_request.specs.ContentLength.{is_content_length, content_length, length_by, is_decimal};

use crate::{BODY_LIMIT, RequestFault};
use httparse::spans::HeaderSpan;

/// How many bytes of content follow a head with these fields.
pub(crate) fn content_length(bytes: &[u8], headers: &[HeaderSpan]) -> Result<usize, RequestFault>
    requires { All (IsHeaderWithin (length bytes.now)) headers.now }
    ensures { result ≡ content_length (map (header_bytes bytes.now) headers.now) }
{
    let mut found = None;
    for header in headers {
        if gives_length(bytes, header) {
            if found.is_some() {
                return Err(RequestFault::BadLength);
            }
            found = Some(header.value.of(bytes));
        }
    }
    match found {
        None => Ok(0),
        Some(text) => length_by(text),
    }
}

/// Whether a field gives the length.
fn gives_length(bytes: &[u8], header: &HeaderSpan) -> bool
    requires { IsHeaderWithin (length bytes.now) header.now }
    ensures { result ≡ is_content_length (header_bytes bytes.now header.now) }
{
    header
        .name
        .of(bytes)
        .eq_ignore_ascii_case(b"content-length")
}

/// The length that one value gives.
fn length_by(text: &[u8]) -> Result<usize, RequestFault>
    ensures { result ≡ length_by text.now }
{
    if is_decimal(text) {
        let number = number_of(text);
        if number > BODY_LIMIT {
            return Err(RequestFault::TooLong);
        }
        return Ok(number);
    }
    Err(RequestFault::BadLength)
}

/// Whether a text is a decimal number.
fn is_decimal(text: &[u8]) -> bool
    ensures { result ≡ is_decimal text.now }
{
    !text.is_empty() && has_only_digits(text)
}

fn has_only_digits(text: &[u8]) -> bool
    ensures { result ≡ list_all is_ascii_digit text.now }
{
    text.iter().all(|byte| byte.is_ascii_digit())
}

/// The number that decimal digits write, or the first one above the limit where it is greater: a length may have more digits
/// than a `usize` holds.
fn number_of(text: &[u8]) -> usize
    requires { IsTrue (list_all is_ascii_digit text.now) }
    ensures { result ≡ min (digits_value 10 text.now) (BODY_LIMIT + 1) }
{
    let mut number = 0usize;
    for byte in text {
        number = (number * 10 + decimal_digit(*byte)).min(BODY_LIMIT + 1);
    }
    number
}

/// The value of one decimal digit.
fn decimal_digit(byte: u8) -> usize
    requires { IsTrue (is_ascii_digit byte) }
    ensures value { result ≡ digit_value byte }
    ensures below { result < 10 }
{
    usize::from(byte - b'0')
}
