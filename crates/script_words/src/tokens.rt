//! Tokens of HTTP.
ghost use Rattle.std.specs.Prelude.{◌≡◌};
ghost use Rattle.std.specs.List.{list_all};
ghost use Rattle.script_words.specs.Tokens.{is_token, is_token_byte};

/// The signs of a token beside letters and digits.
const TOKEN_SIGNS: [u8; 15] = *b"!#$%&'*+-.^_`|~";

fn is_token_byte(b: u8) -> bool
    ensures { result ≡ is_token_byte b }
{
    b.is_ascii_alphanumeric() || TOKEN_SIGNS.contains(&b)
}

/// Whether a word is a token of HTTP (RFC 9110, section 5.6.2).
pub fn is_token(word: &[u8]) -> bool
    ensures { result ≡ is_token word.now }
{
    !word.is_empty() && are_token_bytes(word)
}

fn are_token_bytes(word: &[u8]) -> bool
    ensures { result ≡ list_all is_token_byte word.now }
{
    word.iter().all(|b| is_token_byte(*b))
}
