//! Sizes as text.
ghost use Rattle.std.specs.Prelude.{◌≡◌, ◌≤◌, ◌<◌, ◌^◌, ◌↔◌, IsErr, IfOk, Some, None, true, length, option_and_then, IsTrue};
ghost use Rattle.std.specs.List.{position_or_len, position, list_all};
ghost use Rattle.std.specs.Char.{is_ascii_digit, digit_value};
ghost use Rattle.std.specs.Str.Parse.{digits_value};
ghost use Rattle.pat_base.specs.SizeText.{size_of, unit_of, size_number_of, is_no_digit, sized};
ghost use Rattle.pat_base.specs.LsnText.{at_most};

use thiserror::Error;

/// The greatest size, in bytes.
const GREATEST: u64 = 1 << 63;

/// Sizes as text, as PostgreSQL writes amounts of memory (PostgreSQL, "Parameter Names and Values"): a number, and `kB`,
/// `MB` or `GB` for 2^10, 2^20 or 2^30 bytes. Without a unit it counts bytes.
pub struct Size;

/// A text is no size.
#[derive(Clone, Copy, Debug, PartialEq, Eq, Error)]
#[error("not a size")]
pub struct NotSize;

impl Size {
    /// The size in bytes that the text writes: decimal digits, and then nothing, `kB`, `MB` or `GB`. `NotSize` exactly
    /// for anything else, and for a size above 2^63 bytes.
    pub fn read(bytes: &[u8]) -> Result<u64, NotSize>
        ensures refused { IsErr result ↔ (size_of bytes.now ≡ None) }
        ensures value { IfOk result (λ size. size_of bytes.now ≡ Some size) }
    {
        let (digits, unit) = bytes.split_at(digit_count(bytes));
        let Some(unit) = unit_of(unit) else {
            return Err(NotSize);
        };
        match number_up_to(digits, GREATEST / unit) {
            Some(number) => Ok(number * unit),
            None => Err(NotSize),
        }
    }
}

/// How many decimal digits the text begins with.
fn digit_count(bytes: &[u8]) -> usize
    ensures count { result ≡ position_or_len is_no_digit bytes.now }
    ensures within { result ≤ length bytes.now }
{
    match unit_place(bytes) {
        Some(place) => place,
        None => bytes.len(),
    }
}

/// Where the first byte stands that is no decimal digit.
fn unit_place(bytes: &[u8]) -> Option<usize>
    ensures { result ≡ position is_no_digit bytes.now }
{
    bytes.iter().position(|byte| !byte.is_ascii_digit())
}

/// How many bytes the unit has.
fn unit_of(unit: &[u8]) -> Option<u64>
    ensures unit { result ≡ unit_of unit.now }
{
    match unit {
        b"" => Some(1),
        b"kB" => Some(1 << 10),
        b"MB" => Some(1 << 20),
        b"GB" => Some(1 << 30),
        _ => None,
    }
}

/// The number that decimal digits write, where it is at most this many. `None` exactly where there is no digit, or the
/// number is greater.
fn number_up_to(digits: &[u8], most: u64) -> Option<u64>
    requires { IsTrue (list_all is_ascii_digit digits.now) }
    ensures { result ≡ option_and_then (at_most most) (size_number_of digits.now) }
{
    if digits.is_empty() {
        return None;
    }
    let mut number = 0u64;
    for digit in digits {
        number = number.checked_mul(10)?.checked_add(decimal_digit(*digit))?;
    }
    if number <= most { Some(number) } else { None }
}

/// The value of one decimal digit.
fn decimal_digit(byte: u8) -> u64
    requires { IsTrue (is_ascii_digit byte) }
    ensures value { result ≡ digit_value byte }
    ensures below { result < 10 }
{
    u64::from(byte - b'0')
}
