//! Positions in a write-ahead log.
ghost use Rattle.std.specs.Prelude.{◌≡◌, ◌≤◌, ◌^◌, ◌↔◌, IsSome, IfSome, IsErr, IfOk, Some, None, string_bytes, ◌<◌, IsTrue, length};
ghost use Rattle.std.specs.List.{list_all, position};
ghost use Rattle.std.specs.Char.{digit_value, is_ascii_hexdigit};
ghost use Rattle.std.specs.Str.Parse.{digits_value};
ghost use Rattle.pat_base.specs.LsnText.{lsn_text, lsn_of, is_slash, hex_number, is_hex_number};

use std::alloc::{AllocError, Global};
use std::fmt;
use thiserror::Error;

/// The greatest position of a log, in bytes.
const GREATEST: u64 = 1 << 63;

/// The log position of the first byte of the second 4 GiB.
const HIGH: u64 = 1 << 32;

/// A position in a write-ahead log. PostgreSQL calls it a log sequence number, LSN (PostgreSQL, "WAL Internals").
#[derive(Clone, Copy, Debug, PartialEq, Eq, PartialOrd, Ord)]
pub struct Lsn {
    /// How many bytes of the log lie before it: at most 2^63.
    pub position: u64,
    ghost within: { position ≤ 2 ^ 63 },
}

/// A text is no log position.
#[derive(Clone, Copy, Debug, PartialEq, Eq, Error)]
#[error("not a log position")]
pub struct NotLsn;

impl Lsn {
    ghost use Rattle.std.specs.Prelude.{◌≡◌, ◌≤◌, ◌^◌, ◌↔◌, IsSome, IfSome, IsErr, IfOk, Some, None, string_bytes};
    ghost use Rattle.pat_base.specs.LsnText.{lsn_text, lsn_of};

    /// The position behind so many bytes. `None` exactly where there are more than 2^63.
    pub fn new(position: u64) -> Option<Lsn>
        ensures found { IsSome result ↔ (position ≤ 2 ^ 63) }
        ensures value { IfSome result (λ lsn. lsn.position ≡ position) }
    {
        if position <= GREATEST {
            Some(Lsn { position })
        } else {
            None
        }
    }

    /// The text of the position, as PostgreSQL prints it (PostgreSQL, "pg_lsn Type"): two upper-case hexadecimal
    /// numbers, the high and the low 32 bits, with a slash between. It fails only for want of memory.
    pub fn print(self, alloc: Global) -> Result<String, AllocError>
        ensures { IfOk result (λ text. string_bytes text ≡ lsn_text self.position) }
    {
        format!(in alloc; "{self}")
    }

    /// The position that the text writes (PostgreSQL, "pg_lsn Type"): 1 to 8 hexadecimal digits in capitals or not, a
    /// slash, and again 1 to 8, of at most 2^63 bytes. `NotLsn` exactly for anything else.
    pub fn read(bytes: &[u8]) -> Result<Lsn, NotLsn>
        ensures refused { IsErr result ↔ (lsn_of bytes.now ≡ None) }
        ensures value { IfOk result (λ lsn. lsn_of bytes.now ≡ Some lsn.position) }
    {
        let Some(slash) = slash_place(bytes) else {
            return Err(NotLsn);
        };
        let (Some(high), Some(low)) = (hex_number(&bytes[..slash]), hex_number(&bytes[slash + 1..]))
        else {
            return Err(NotLsn);
        };
        match Lsn::new(u64::from(high) * HIGH + u64::from(low)) {
            Some(lsn) => Ok(lsn),
            None => Err(NotLsn),
        }
    }
}

impl fmt::Display for Lsn {
    ghost use Rattle.std.specs.Prelude.{Some};
    ghost use Rattle.pat_base.specs.LsnText.{lsn_text};

    ghost output = { λ lsn. Some (lsn_text lsn.position) };

    fn fmt<W: fmt::Write>(&self, f: &mut fmt::Formatter<W>) -> fmt::Result {
        let high = self.position / HIGH;
        let low = self.position % HIGH;
        write!(f, "{high:X}/{low:X}")
    }
}

/// The number of 1 to 8 hexadecimal digits. `None` exactly where the bytes are no such digits.
fn hex_number(bytes: &[u8]) -> Option<u32>
    ensures { result ≡ hex_number bytes.now }
{
    if is_hex_number(bytes) {
        Some(hex_value(bytes))
    } else {
        None
    }
}

fn is_hex_number(bytes: &[u8]) -> bool
    ensures { result ≡ is_hex_number bytes.now }
{
    !bytes.is_empty() && bytes.len() <= 8 && are_hex_digits(bytes)
}

fn are_hex_digits(bytes: &[u8]) -> bool
    ensures { result ≡ list_all is_ascii_hexdigit bytes.now }
{
    bytes.iter().all(|byte| byte.is_ascii_hexdigit())
}

/// The number that at most 8 hexadecimal digits write.
fn hex_value(digits: &[u8]) -> u32
    requires short { length digits.now ≤ 8 }
    requires digits { IsTrue (list_all is_ascii_hexdigit digits.now) }
    ensures { result ≡ digits_value 16 digits.now }
{
    let mut value = 0;
    for digit in digits {
        value = value * 16 + hex_digit(*digit);
    }
    value
}

/// The value of one hexadecimal digit.
fn hex_digit(byte: u8) -> u32
    ensures value { digit_value byte < 16 → result ≡ digit_value byte }
    ensures below { result < 16 }
{
    char::from(byte).to_digit(16).unwrap_or(0)
}

/// Where the first slash stands.
fn slash_place(bytes: &[u8]) -> Option<usize>
    ensures { result ≡ position is_slash bytes.now }
{
    bytes.iter().position(|byte| *byte == b'/')
}
