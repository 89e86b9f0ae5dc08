//! What happens changes the stage in one place, and is written down there.
ghost use Rattle.std.specs.Prelude.{◌≡◌, ◌∷◌, OnOk, IfSome};
ghost use Rattle.world_model.specs.Comes.{MayCome};
ghost use Rattle.cluster_model.specs.Cluster.{cluster_after};
ghost use Rattle.cluster_model.specs.Commands.{kinds_of};
ghost use Rattle.cluster_model.specs.Parts.{events_of, event_of};
ghost use Rattle.world_model.specs.Room.{HasRoom};
ghost use Rattle.world_model.specs.Emits.{Emits};

use super::Stage;
use event_book::EventKind;
use event_list::EventList;
use std::alloc::AllocError;
use world_agents::places::change_agents;
use world_fields::writing::write_down;
use world_flight::flight::change_flight;
use world_parts::changes::{
    change_acknowledged, change_deadlines, change_failsafe_deadlines, change_frozen, change_holds,
    change_keys, change_links, change_processes, commits_after, now_after, sent_after,
};
use world_parts::server_changes::change_servers;

impl Stage {
    /// One thing happens: it changes what it changes, and is written down.
    pub fn happen(&mut self, kind: EventKind, events: &mut EventList) -> Result<(), AllocError>
        requires room { HasRoom self.old 1 }
        requires comes { MayCome self.old kind }
        ensures { OnOk result (Emits self.old self.new events.old events.new (event_of self.old kind) 1) }
    {
        self.change(&kind)?;
        write_down(events, self.clock, kind)
    }

    /// What a happening changes.
    fn change(&mut self, kind: &EventKind) -> Result<(), AllocError>
        requires room { HasRoom self.old 1 }
        requires comes { MayCome self.old kind.now }
        ensures { OnOk result (self.new ≡ cluster_after self.old kind.now) }
    {
        let before = self.clock;
        let now = now_after(before, kind);
        self.index.stir(kind)?;
        change_servers(&mut self.servers, now, kind)?;
        change_acknowledged(&mut self.acknowledged, kind)?;
        self.clock = now;
        self.sent = sent_after(self.sent, kind);
        self.commits = commits_after(self.commits, kind);
        change_links(&mut self.cuts, kind);
        change_keys(&mut self.store, now, kind);
        change_processes(&mut self.processes, kind);
        change_agents(
            &mut self.agents,
            self.scope,
            &self.options,
            &self.members,
            before,
            kind,
        );
        change_deadlines(&mut self.deadlines, kind);
        change_failsafe_deadlines(&mut self.failsafe_deadlines, kind);
        change_holds(&mut self.holds, kind);
        change_flight(&mut self.flight, kind);
        change_frozen(&mut self.frozen, kind);
        Ok(())
    }

    /// One thing happens, and then another one, if there is one.
    pub fn happen_then(
        &mut self,
        first: EventKind,
        second: Option<EventKind>,
        events: &mut EventList,
    ) -> Result<(), AllocError>
        requires room { HasRoom self.old 2 }
        requires first { MayCome self.old first }
        requires second { IfSome second (MayCome (cluster_after self.old first)) }
        ensures { OnOk result (Emits self.old self.new events.old events.new (events_of self.old (first ∷ kinds_of second)) 2) }
    {
        self.happen(first, events)?;
        self.happen_if(second, events)
    }

    /// One thing happens, or none.
    pub fn happen_if(
        &mut self,
        kind: Option<EventKind>,
        events: &mut EventList,
    ) -> Result<(), AllocError>
        requires room { HasRoom self.old 1 }
        requires comes { IfSome kind (MayCome self.old) }
        ensures { OnOk result (Emits self.old self.new events.old events.new (events_of self.old (kinds_of kind)) 1) }
    {
        match kind {
            None => Ok(()),
            Some(kind) => self.happen(kind, events),
        }
    }
}
