//! Primaries that end and start again.
ghost use Rattle.std.specs.Prelude.{◌≡◌, OnOk, Some, option_map};
ghost use Rattle.pat_base.specs.declared.server_state.State.TheVariants as states;
ghost use Rattle.cluster_model.specs.Beginnings.{again_by};
ghost use Rattle.cluster_model.specs.Messages.{server_restart_events};
ghost use Rattle.cluster_model.specs.Orders.{server_at};
ghost use Rattle.world_model.specs.Emits.{Emits};
ghost use Rattle.world_model.specs.Room.{HasRoom, server_restart_cost};

use super::Stage;
use cluster_model::Beginning;
use event_book::{EventKind, Member, ServerEvent, ServerOf};
use event_list::EventList;
use std::alloc::AllocError;
use world_fields::losing::loss_of_any;
use world_fields::writing::write_down;

impl Stage {
    /// A primary ends, and begins again on its timeline at once. That it lacks an acknowledged commit then is told.
    pub fn restart_at_once(
        &mut self,
        member: Member,
        timeline: u64,
        events: &mut EventList,
    ) -> Result<(), AllocError>
        requires room { HasRoom self.old server_restart_cost }
        requires primary { option_map (λ s. s.state) (server_at self.old member) ≡ Some states.Primary }
        requires again { option_map (λ s. again_by s.timeline s.start_delay) (server_at self.old member) ≡ Some (Beginning.AtOnce timeline) }
        ensures { OnOk result (Emits self.old self.new events.old events.new (server_restart_events self.old member) server_restart_cost) }
    {
        let server = ServerOf::of(member);
        let loss = loss_of_any(self.alloc, &self.servers, member, &self.acknowledged)?;
        let ended = EventKind::Server(ServerEvent::Ended { server });
        write_down(events, self.clock, ended)?;
        self.servers.restart(member.id.number as usize, self.clock);
        let began = EventKind::Server(ServerEvent::Began { server, timeline });
        write_down(events, self.clock, began)?;
        self.happen_if(loss, events)
    }

    /// A primary ends, and its start as one begins.
    pub fn restart_slowly(
        &mut self,
        member: Member,
        events: &mut EventList,
    ) -> Result<(), AllocError>
        requires room { HasRoom self.old server_restart_cost }
        requires primary { option_map (λ s. s.state) (server_at self.old member) ≡ Some states.Primary }
        requires again { option_map (λ s. again_by s.timeline s.start_delay) (server_at self.old member) ≡ Some Beginning.WithItsStart }
        ensures { OnOk result (Emits self.old self.new events.old events.new (server_restart_events self.old member) server_restart_cost) }
    {
        let server = ServerOf::of(member);
        let ended = EventKind::Server(ServerEvent::Ended { server });
        write_down(events, self.clock, ended)?;
        self.servers.restart(member.id.number as usize, self.clock);
        let starts = EventKind::Server(ServerEvent::StartsAsPrimary { server });
        write_down(events, self.clock, starts)
    }
}
