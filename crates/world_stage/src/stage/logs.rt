//! What becomes of the logs of servers by that of another one: what replicas receive and confirm, rewinds and copies.
ghost use Rattle.std.specs.Prelude.{OnOk, IfSome, IsTrue, slice_get, option_map, if◌then◌else◌, Some, None};
ghost use Rattle.pg_model.specs.Facts.{is_replica};
ghost use Rattle.pg_cluster.specs.Rewinding.{may_clone_at, rewind_at};
ghost use Rattle.pg_cluster.specs.Servers.{news_at};
ghost use Rattle.cluster_model.specs.Commands.{kinds_of};
ghost use Rattle.cluster_model.specs.Orders.{copying, rewinding};
ghost use Rattle.cluster_model.specs.Parts.{events_of};
ghost use Rattle.cluster_model.specs.Next.{confirm_events, receive_events};
ghost use Rattle.world_model.specs.Room.{HasRoom, streaming_cost};
ghost use Rattle.world_model.specs.Emits.{Emits};

use super::Stage;
use event_book::{EventKind, LogEvent, Member, ReplicationEvent, ServerEvent, ServerOf};
use event_list::EventList;
use pg_model::Streamed;
use std::alloc::AllocError;
use world_fields::writing::write_down;
use world_parts::sources::unconfirmed_end;

impl Stage {
    /// The server of a member receives from that of another one.
    pub fn receive_from(
        &mut self,
        member: Member,
        from: Member,
        most: u64,
        events: &mut EventList,
    ) -> Result<(), AllocError>
        requires room { HasRoom self.old streaming_cost }
        requires replica { IfSome (slice_get self.old.facts.servers member.id.number) (λ s. IsTrue (is_replica s.state)) }
        ensures { OnOk result (Emits self.old self.new events.old events.new (receive_events self.old member from (news_at self.old.facts.servers member.id.number from.id.number most)) streaming_cost) }
    {
        let (place, upstream) = (member.id.number as usize, from.id.number as usize);
        match self.servers.stream(place, upstream, most as usize)? {
            None => self.confirm(member, from, events),
            Some(Streamed::NotConnected) => Ok(()),
            Some(Streamed::Diverged(at)) => {
                let diverged = ServerEvent::Diverged {
                    server: ServerOf::of(member),
                    upstream: ServerOf::of(from),
                    at,
                };
                write_down(events, self.clock, EventKind::Server(diverged))
            }
            Some(Streamed::Received(count)) => {
                let received = LogEvent::Received {
                    server: ServerOf::of(member),
                    from: ServerOf::of(from),
                    count: count as u64,
                };
                write_down(events, self.clock, EventKind::Log(received))?;
                self.confirm(member, from, events)
            }
        }
    }

    /// A replica confirms the end of its log to its upstream, where that isn't known there.
    fn confirm(
        &mut self,
        member: Member,
        from: Member,
        events: &mut EventList,
    ) -> Result<(), AllocError>
        requires { HasRoom self.old 1 }
        ensures { OnOk result (Emits self.old self.new events.old events.new (confirm_events self.old member from) 1) }
    {
        let Some(end) = unconfirmed_end(&self.servers, member, from) else {
            return Ok(());
        };
        self.servers
            .confirm(from.id.number as usize, member.id, end);
        let confirmed = ReplicationEvent::Confirmed {
            server: ServerOf::of(from),
            by: member,
            end,
        };
        write_down(events, self.clock, EventKind::Replication(confirmed))
    }

    /// The log of a member's server is rewound to what it has in common with this leader's, where it may be.
    pub fn rewind(
        &mut self,
        member: Member,
        leader: Member,
        events: &mut EventList,
    ) -> Result<(), AllocError>
        requires { HasRoom self.old 1 }
        ensures { OnOk result (Emits self.old self.new events.old events.new (events_of self.old (kinds_of (option_map (rewinding member leader) (rewind_at self.old.facts.servers member.id.number leader.id.number)))) 1) }
    {
        let (place, from) = (member.id.number as usize, leader.id.number as usize);
        let Some(rewind) = self.servers.rewind(place, from)? else {
            return Ok(());
        };
        let rewound = LogEvent::Rewound {
            server: ServerOf::of(member),
            from: ServerOf::of(leader),
            kept: rewind.kept,
            at: rewind.at,
        };
        write_down(events, self.clock, EventKind::Log(rewound))
    }

    /// The log of a member's server becomes a copy of this leader's, where it waits for one.
    pub fn copy(
        &mut self,
        member: Member,
        leader: Member,
        events: &mut EventList,
    ) -> Result<(), AllocError>
        requires { HasRoom self.old 1 }
        ensures { OnOk result (Emits self.old self.new events.old events.new (events_of self.old (kinds_of (if may_clone_at self.old.facts.servers member.id.number leader.id.number then Some (copying member leader) else None))) 1) }
    {
        let (place, from) = (member.id.number as usize, leader.id.number as usize);
        if !self.servers.clone_from(place, from)? {
            return Ok(());
        }
        let copied = LogEvent::Copied {
            server: ServerOf::of(member),
            from: ServerOf::of(leader),
        };
        write_down(events, self.clock, EventKind::Log(copied))
    }
}
