//! Methods of requests.

/// What a request asks to be done with its target: the methods that the REST interface of Patroni has (RFC 9110,
/// section 9.3, and RFC 5789 for `PATCH`), in capitals.
#[derive(Clone, Copy, Debug, PartialEq, Eq)]
pub enum Verb {
    /// `GET`: the target is to be sent.
    Get,
    /// `HEAD`: the same, without the content.
    Head,
    /// `OPTIONS`: what may be done with the target; Patroni answers it as `HEAD`.
    Options,
    /// `PATCH`: the target is to be changed as the content says.
    Patch,
    /// `PUT`: the content is to take the place of the target.
    Put,
    /// `POST`: the target is to process the content.
    Post,
    /// `DELETE`: the target is to be dropped.
    Delete,
    /// Any other token.
    Other,
}

impl Verb {
    ghost use Rattle.std.specs.Prelude.{◌≡◌};
    ghost use Rattle.rest_message.specs.Verbs.{verb_of};

    /// The verb whose name in capitals these bytes are, and `Other` for any other bytes.
    pub fn of(token: &[u8]) -> Verb
        ensures { result ≡ verb_of token.now }
    {
        if token == b"GET".as_slice() {
            Verb::Get
        } else if token == b"HEAD".as_slice() {
            Verb::Head
        } else if token == b"OPTIONS".as_slice() {
            Verb::Options
        } else if token == b"PATCH".as_slice() {
            Verb::Patch
        } else if token == b"PUT".as_slice() {
            Verb::Put
        } else if token == b"POST".as_slice() {
            Verb::Post
        } else if token == b"DELETE".as_slice() {
            Verb::Delete
        } else {
            Verb::Other
        }
    }
}
