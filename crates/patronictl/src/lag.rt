//! How far members lag, in megabytes.
ghost use Rattle.std.specs.Prelude.{◌≡◌, ◌≤◌, ◌^◌};
ghost use Rattle.patronictl.specs.Lags.{megabytes, rounded};

use std::cmp::Ordering;

/// The bytes of a megabyte.
const MEGABYTE: u64 = 1_048_576;

/// Half of them.
const HALF: u64 = 524_288;

/// How many megabytes so many bytes are, to the nearest; where two are as near, the even one.
pub(crate) fn megabytes(bytes: u64) -> u64
    ensures { result ≡ megabytes bytes }
{
    rounded(bytes / MEGABYTE, bytes % MEGABYTE)
}

/// Whole megabytes, or one more where the rest of the bytes asks for it.
fn rounded(whole: u64, rest: u64) -> u64
    requires { whole ≤ 2 ^ 44 }
    ensures { result ≡ rounded whole rest }
{
    match rest.cmp(&HALF) {
        Ordering::Less => whole,
        Ordering::Equal => whole + whole % 2,
        Ordering::Greater => whole + 1,
    }
}
