//! Targets of requests: a path, and a query behind the first question mark (RFC 9112, section 3.2.1).
ghost use Rattle.std.specs.Prelude.{◌≡◌, ◌≤◌, ◌<◌, ◌+◌, take, drop, length, position};
ghost use Rattle.std.specs.Option.{option_copied};
ghost use Rattle.rest_message.specs.Targets.{path_of, query_of, lag_of, lag_in, lag_value, is_separator};

/// What stands before a query.
const QUERY_SIGN: char = '?';

/// What stands between the parameters of a query.
const SEPARATOR: u8 = b'&';

/// The path of a target: what stands before the first question mark, and all of it where there is none. Nothing in it is
/// decoded.
pub fn path_of(target: &str) -> &str
    ensures { result.now ≡ path_of target.now }
{
    match target.split_once(QUERY_SIGN) {
        Some((path, _)) => path,
        None => target,
    }
}

/// The value of the first parameter `lag` of a target (Patroni documentation, "Health check endpoints"): what stands behind
/// `lag=`, up to the next ampersand. `None` exactly where no parameter is one; `lag` without an equals sign is another.
/// Nothing in it is decoded.
pub fn lag_of(target: &str) -> Option<&[u8]>
    ensures { option_copied result ≡ lag_of target.now }
{
    lag_in(query_of(target)?.as_bytes())
}

/// What stands behind the first question mark, if there is one.
fn query_of(target: &str) -> Option<&str>
    ensures { option_copied result ≡ query_of target.now }
{
    match target.split_once(QUERY_SIGN) {
        Some((_, query)) => Some(query),
        None => None,
    }
}

/// The value of the first parameter `lag` of a query.
fn lag_in(query: &[u8]) -> Option<&[u8]>
    ensures { option_copied result ≡ lag_in query.now }
{
    let mut rest = query;
    'parameters: while let Some(place) = separator_in(rest) {
        let value = lag_value(before(rest, place));
        if value.is_some() {
            return value;
        }
        rest = behind(rest, place);
    }
    lag_value(rest)
}

/// Where the first parameter of a query ends, if others follow.
fn separator_in(query: &[u8]) -> Option<usize>
    ensures { result ≡ position is_separator query.now }
{
    query.iter().position(|byte| *byte == SEPARATOR)
}

fn before(bytes: &[u8], place: usize) -> &[u8]
    requires { place ≤ length bytes.now }
    ensures { result.now ≡ take place bytes.now }
{
    &bytes[..place]
}

fn behind(bytes: &[u8], place: usize) -> &[u8]
    requires { place < length bytes.now }
    ensures { result.now ≡ drop (place + 1) bytes.now }
{
    &bytes[place + 1..]
}

/// The value of a parameter `lag`.
fn lag_value(parameter: &[u8]) -> Option<&[u8]>
    ensures { option_copied result ≡ lag_value parameter.now }
{
    match parameter {
        [b'l', b'a', b'g', b'=', value @ ..] => Some(value),
        _ => None,
    }
}
