//! What a request wants.
ghost use Rattle.std.specs.Prelude.{◌≡◌};
ghost use Rattle.live_page.specs.Wishes.{place_of, wish_at, wish_of};

use crate::{Denial, View};
use rest_message::{Verb, path_of};

/// What a request at the control port wants.
#[derive(Clone, Copy, Debug, PartialEq, Eq)]
pub enum Wish {
    /// To look at something.
    Look(View),
    /// To bring its content as a line.
    Bring,
    /// What it doesn't get.
    Denied(Denial),
}

/// What stands at a path.
#[derive(Clone, Copy, Debug, PartialEq, Eq)]
pub(crate) enum Place {
    /// What can be looked at.
    Seen(View),
    /// Where lines are brought.
    Lines,
    /// Nothing.
    Nowhere,
}

/// What a request wants by its method and its target, of which the query counts for nothing, and by whether it is from the
/// port's own page.
pub fn wish_of(verb: Verb, target: &str, is_own: bool) -> Wish
    ensures { result ≡ wish_of verb target.now is_own }
{
    wish_at(place_of(path_of(target)), verb, is_own)
}

/// What stands at this path.
fn place_of(path: &str) -> Place
    ensures { result ≡ place_of path.now }
{
    let path = path.as_bytes();
    if path == b"/".as_slice() {
        Place::Seen(View::Page)
    } else if path == b"/state".as_slice() {
        Place::Seen(View::State)
    } else if path == b"/events".as_slice() {
        Place::Seen(View::Events)
    } else if path == b"/picture.svg".as_slice() {
        Place::Seen(View::Picture)
    } else if path == b"/line".as_slice() {
        Place::Lines
    } else {
        Place::Nowhere
    }
}

/// What this method wants there.
fn wish_at(place: Place, verb: Verb, is_own: bool) -> Wish
    ensures { result ≡ wish_at place verb is_own }
{
    match (place, verb) {
        (Place::Seen(view), Verb::Get | Verb::Head) => Wish::Look(view),
        (Place::Seen(_), _) => Wish::Denied(Denial::OnlySeen),
        (Place::Lines, Verb::Post) => {
            if is_own {
                Wish::Bring
            } else {
                Wish::Denied(Denial::OtherSite)
            }
        }
        (Place::Lines, _) => Wish::Denied(Denial::OnlyBrought),
        (Place::Nowhere, _) => Wish::Denied(Denial::NoSuchPath),
    }
}
