//! Links: which are cut, and what commands change of them.
ghost use Rattle.std.specs.Prelude.{◌≡◌, IfOk, IfSome, Some, slice_set};
ghost use Rattle.script_model.specs.Script.{IsEnd};
ghost use Rattle.event_book.specs.Links.{cuts_after, is_cut, link_place, none_cut};
ghost use Rattle.cluster_model.specs.State.{Cluster};
ghost use Rattle.world_model.specs.Comes.{MayCome};
ghost use Rattle.cluster_model.specs.Commands.{cut_of, join_of, link_end_of, link_of};
ghost use Rattle.cluster_model.specs.Steps.{names_in};

use crate::members::declared;
use event_book::{EventKind, Link, LinkEnd, LinkEvent, Member};
use script_model::End;
use std::alloc::{AllocError, Global};
use std::marker::Model;

/// Which links are cut: a table with a place for each link.
#[derive(Drop)]
pub struct CutLinks {
    cut: Vec<bool>,
}

impl Model for CutLinks {
    ghost use Rattle.std.specs.Prelude.{◌≡◌, length};
    ghost use Rattle.event_book.specs.Links.{CutLinks, place_count};

    ghost Value = { CutLinks };

    ghost view = { λ c. c.cut.items };

    ghost invariant = { λ c. length c.cut.items ≡ place_count };
}

impl CutLinks {
    /// The table in which no link is cut. It fails only for want of memory.
    pub fn none(alloc: Global) -> Result<CutLinks, AllocError>
        ensures { IfOk result (λ cuts. cuts ≡ none_cut) }
    {
        let cut = Vec::from_elem(alloc, false, Link::PLACES)?;
        Ok(CutLinks { cut })
    }

    /// Whether a link is cut.
    pub fn is_cut(&self, link: Link) -> bool
        ensures { result ≡ is_cut self.now link }
    {
        self.cut[link.place()]
    }

    /// What happens to one link.
    pub fn change(&mut self, change: &LinkEvent)
        ensures { self.new ≡ cuts_after self.old (EventKind.Link change.now) }
    {
        match change {
            LinkEvent::Cut(link) => self.set(*link, true),
            LinkEvent::Joined(link) => self.set(*link, false),
        }
    }

    fn set(&mut self, link: Link, is_cut: bool)
        ensures { self.new ≡ slice_set self.old (link_place link) is_cut }
    {
        self.cut[link.place()] = is_cut;
    }
}

/// The link between two ends that a script names.
pub fn link_of(members: &[Member], first: End, second: End) -> Link
    requires first { IsEnd (names_in members.now) first }
    requires second { IsEnd (names_in members.now) second }
    ensures { link_of members.now first second ≡ Some result }
{
    let first = link_end_of(members, first);
    let second = link_end_of(members, second);
    Link { first, second }
}

fn link_end_of(members: &[Member], end: End) -> LinkEnd
    requires { IsEnd (names_in members.now) end }
    ensures { link_end_of members.now end ≡ Some result }
{
    match end {
        End::Store => LinkEnd::Store,
        End::Member(id) => LinkEnd::Member(declared(members, id)),
    }
}

/// A cut: what happens where the link isn't cut.
pub fn cut_of(cuts: &CutLinks, link: Link) -> Option<EventKind>
    ensures kind { result ≡ cut_of cuts.now link }
    ensures comes { (cluster : Cluster) → IfSome result (MayCome cluster) }
{
    if cuts.is_cut(link) {
        None
    } else {
        Some(EventKind::Link(LinkEvent::Cut(link)))
    }
}

/// A join: what happens where the link is cut.
pub fn join_of(cuts: &CutLinks, link: Link) -> Option<EventKind>
    ensures kind { result ≡ join_of cuts.now link }
    ensures comes { (cluster : Cluster) → IfSome result (MayCome cluster) }
{
    if cuts.is_cut(link) {
        Some(EventKind::Link(LinkEvent::Joined(link)))
    } else {
        None
    }
}
