//! Commits whose clients are told that they are stored, and servers that lack one.
ghost use Rattle.std.specs.Prelude.{◌≡◌, ◌<◌, OnOk, Some, length, slice_get};
ghost use Rattle.event_list.specs.Listed.{◌+++◌};
ghost use Rattle.cluster_model.specs.Acknowledging.{AreAcknowledged};
ghost use Rattle.cluster_model.specs.Losing.{losses_of};
ghost use Rattle.cluster_model.specs.Next.{acknowledge_events};
ghost use Rattle.cluster_model.specs.Parts.{each, events_at};
ghost use Rattle.world_model.specs.Emits.{Emits};

use super::Stage;
use event_book::{Member, ServerOf};
use event_list::EventList;
use std::alloc::AllocError;
use world_fields::acknowledging::{accepts_writes, tell_acknowledged, tell_losses};

impl Stage {
    /// The commits of all servers are acknowledged as far as they may be, in script order. Then none is left that may be.
    pub fn acknowledge_all(&mut self, events: &mut EventList) -> Result<(), AllocError>
        ensures emits { OnOk result (Emits self.old self.new events.old events.new (each acknowledge_events self.old self.old.facts.members) 0) }
        ensures done { OnOk result (AreAcknowledged self.new.facts.members self.new.facts.servers) }
    {
        for place in 0..self.members.len() {
            self.acknowledge_at(place, events)?;
        }
        Ok(())
    }

    /// Those of the server of the member at a place. Most accept no writes, and then the member's name isn't copied.
    fn acknowledge_at(&mut self, place: usize, events: &mut EventList) -> Result<(), AllocError>
        requires { place < length self.old.facts.members }
        ensures { OnOk result ((member : Member) → slice_get self.old.facts.members place ≡ Some member → Emits self.old self.new events.old events.new (acknowledge_events self.old member) 0) }
    {
        let id = self.member(place).id;
        if !accepts_writes(&self.servers, id) {
            return Ok(());
        }
        self.acknowledge(self.member(place), events)?;
        Ok(())
    }

    /// Those of the server of a member.
    fn acknowledge(&mut self, member: Member, events: &mut EventList) -> Result<(), AllocError>
        ensures { OnOk result (Emits self.old self.new events.old events.new (acknowledge_events self.old member) 0) }
    {
        let server = ServerOf::of(member);
        let place = member.id.number as usize;
        while let Some(commit) = self.servers.next_acknowledged(place) {
            tell_acknowledged(&mut self.acknowledged, server, commit, self.clock, events)?;
            self.note_losses(commit, events)?;
        }
        Ok(())
    }

    /// Writes down which servers that accept writes lack this commit, in script order.
    fn note_losses(&self, commit: u64, events: &mut EventList) -> Result<(), AllocError>
        ensures { OnOk result (events.new ≡ events.old +++ events_at (record { 0 = self.now.facts.clock }) (losses_of commit self.now.facts.servers self.now.facts.members)) }
    {
        tell_losses(&self.servers, &self.members, commit, self.clock, events)
    }
}
