//! Numbers as decimal digits.
ghost use Rattle.std.specs.Prelude.{◌≡◌};
ghost use Rattle.script_words.specs.Numbers.{number, digits_from, digit_on};

/// A number without a sign and without a leading zero, below 2^64.
pub fn number(bytes: &[u8]) -> Option<u64>
    ensures { result ≡ number bytes.now }
{
    match bytes {
        [] => None,
        [b'0', _, ..] => None,
        _ => digits(bytes),
    }
}

fn digits(bytes: &[u8]) -> Option<u64>
    ensures { result ≡ digits_from 0 bytes.now }
{
    let mut n = 0u64;
    for b in bytes {
        n = digit_on(n, *b)?;
    }
    Some(n)
}

fn digit_on(n: u64, b: u8) -> Option<u64>
    ensures { result ≡ digit_on n b }
{
    if !b.is_ascii_digit() {
        return None;
    }
    n.checked_mul(10)?.checked_add(u64::from(b - b'0'))
}
