//! Why a request is denied.
ghost use Rattle.std.specs.Prelude.{◌≡◌};
ghost use Rattle.live_page.specs.Denials.{status_text, allow_text, body_text};

/// Why a request at the control port is denied.
#[derive(Clone, Copy, Debug, PartialEq, Eq)]
pub enum Denial {
    /// Nothing stands at its path.
    NoSuchPath,
    /// What stands there can only be looked at, by `GET` or `HEAD`.
    OnlySeen,
    /// Where lines are brought, its method isn't `POST`.
    OnlyBrought,
    /// It brings a line, and isn't from the port's own page.
    OtherSite,
}

/// The status of a denial with its phrase (RFC 9110, section 15.5).
pub(crate) fn status_text(denial: Denial) -> &'static str
    ensures { result.now ≡ status_text denial }
{
    match denial {
        Denial::NoSuchPath => "404 Not Found",
        Denial::OnlySeen | Denial::OnlyBrought => "405 Method Not Allowed",
        Denial::OtherSite => "403 Forbidden",
    }
}

/// The line of a head that names the methods that there are, where the method was wrong (RFC 9110, section 15.5.6).
pub(crate) fn allow_text(denial: Denial) -> &'static str
    ensures { result.now ≡ allow_text denial }
{
    match denial {
        Denial::OnlySeen => "Allow: GET, HEAD\r\n",
        Denial::OnlyBrought => "Allow: POST\r\n",
        Denial::NoSuchPath | Denial::OtherSite => "",
    }
}

/// What a denial tells who reads it.
pub(crate) fn body_text(denial: Denial) -> &'static str
    ensures { result.now ≡ body_text denial }
{
    match denial {
        Denial::NoSuchPath => "no such page\n",
        Denial::OnlySeen => "only to be looked at\n",
        Denial::OnlyBrought => "a line is brought by POST\n",
        Denial::OtherSite => "a line is taken from this port's own page alone\n",
    }
}
