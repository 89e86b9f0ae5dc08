//! Agents: how they are woken, hear, and are shown.
ghost use Rattle.std.specs.Prelude.{ℕ, ◌≡◌, ◌≤◌, ◌<◌, ◌^◌, ◌*◌, [], true, false, Option, Some, OnOk, IfOk, IfSome, option_copied, option_map, slice_get};
ghost use Rattle.lease_store.specs.Copied.{items_if};
ghost use Rattle.cluster_view.specs.Snapshots.{IsRead};
ghost use Rattle.agent_model.specs.declared.heard.Heard.TheVariants as heards;
ghost use Rattle.agent_model.specs.Agents.{IsWithin, Outcome};
ghost use Rattle.agent_rows.specs.Inputs.{IsSpannedInput};
ghost use Rattle.agent_model.specs.Outputs.{most_outputs};
ghost use Rattle.cluster_model.specs.Cluster.{agent_facts_with};
ghost use Rattle.cluster_model.specs.Hearing.{heard_from, member_at_end, snapshot_at, snapshot_with};
ghost use Rattle.cluster_model.specs.Inputs.{is_to_wake, outcome_of, outcome_of_heard, outputs_of, standing_of};
ghost use Rattle.cluster_model.specs.Machines.{machine_of};
ghost use Rattle.cluster_model.specs.Parts.{event_of};
ghost use Rattle.cluster_model.specs.Inputs.{agent_at};
ghost use Rattle.world_model.specs.Idle.{HasWorkFrom, SleepsAt, WakesAt, work_moment};
ghost use Rattle.world_model.specs.Emits.{Emits};
ghost use Rattle.world_model.specs.Room.{HasRoom, hearing_cost};
ghost use Rattle.world_model.specs.Short.{IsSent};
ghost use Rattle.world_stage.specs.AgentViews.{IsViewOf};

use super::Stage;
use agent_model::{Heard, Machine};
use cluster_view::{AgentView, Snapshot};
use event_book::{AgentEvent, AgentProcess, Body, EventKind, LinkEnd, Member, Message};
use event_list::EventList;
use lease_store::Copies;
use pat_base::{MemberId, Shared, Ticks};
use std::alloc::AllocError;
use std::mem;
use store_keys::{Key, KeyEntry, OperatorAction};
use world_agents::{Agent, Outputs, places};
use world_fields::machines::{item_at, machine_from};
use world_fields::members::member_at;
use world_fields::watchdogs::is_set_by_failsafe;
use world_fields::writing::write_down;
use world_flight::flight::InFlight;
use world_parts::actions::copy_of;
use world_parts::processes::may_act;
use world_parts::replication::replication_of;
use world_parts::sources::source_of;

/// How many outputs an input brings at most.
const MOST_OUTPUTS: usize = 40;

impl Stage {
    /// The buffer for what agents do, empty and with room for an input. It fails only for want of memory.
    pub fn take_outputs(&mut self) -> Result<Outputs, AllocError>
        ensures world { self.new ≡ self.old }
        ensures room { IfOk result (λ outputs. most_outputs ≤ outputs.spare) }
        ensures none { IfOk result (λ outputs. outputs.outputs ≡ []) }
    {
        let mut outputs = mem::replace(&mut self.outputs, Outputs::new(self.alloc));
        outputs.reserve(MOST_OUTPUTS)?;
        Ok(outputs)
    }

    /// The buffer that was taken comes back, empty.
    pub fn give_back(&mut self, outputs: Outputs)
        requires { outputs.outputs ≡ [] }
        ensures { self.new ≡ self.old }
    {
        self.outputs = outputs;
    }

    /// The agent of a member is woken, and what it does is put into the list.
    pub fn rouse(
        &mut self,
        agent: Member,
        outputs: &mut Outputs,
        events: &mut EventList,
    ) -> Result<(), AllocError>
        requires room { HasRoom self.old hearing_cost }
        requires spare { most_outputs ≤ outputs.old.spare }
        requires none { outputs.old.outputs ≡ [] }
        ensures emits { OnOk result (Emits self.old self.new events.old events.new (event_of self.old (EventKind.Agent (AgentEvent.Woken agent))) hearing_cost) }
        ensures outputs { outputs.new.outputs ≡ outputs_of (outcome_of self.old agent heards.Wake) }
    {
        self.agent_hears(agent, Heard::Wake, outputs);
        write_down(
            events,
            self.clock,
            EventKind::Agent(AgentEvent::Woken { agent }),
        )
    }

    /// The agent of a member hears what an operator asks, and what it does is put into the list.
    pub fn obey(
        &mut self,
        agent: Member,
        action: OperatorAction,
        outputs: &mut Outputs,
        events: &mut EventList,
    ) -> Result<(), AllocError>
        requires room { HasRoom self.old hearing_cost }
        requires spare { most_outputs ≤ outputs.old.spare }
        requires none { outputs.old.outputs ≡ [] }
        ensures emits { OnOk result (Emits self.old self.new events.old events.new (event_of self.old (EventKind.Agent (AgentEvent.Operated agent action))) hearing_cost) }
        ensures outputs { OnOk result (outputs.new.outputs ≡ outputs_of (outcome_of self.old agent (heards.Operated action))) }
    {
        let told = copy_of(&action)?;
        self.agent_hears(agent, Heard::Operated { action }, outputs);
        write_down(
            events,
            self.clock,
            EventKind::Agent(AgentEvent::Operated {
                agent,
                action: told,
            }),
        )
    }

    /// The agent of a member acts on what a message says, if it says anything to agents.
    pub(crate) fn agent_hears_if(
        &mut self,
        member: Member,
        heard: Option<Heard>,
        outputs: &mut Outputs,
    )
        requires room { HasRoom self.old hearing_cost }
        requires spare { most_outputs ≤ outputs.old.spare }
        requires span { IfSome heard IsSpannedInput }
        requires none { outputs.old.outputs ≡ [] }
        ensures world { self.new ≡ record self.old { agents = agent_facts_with self.old.agents member (outcome_of_heard self.old member heard) } }
        ensures outputs { outputs.new.outputs ≡ outputs_of (outcome_of_heard self.old member heard) }
    {
        match heard {
            None => {}
            Some(heard) => self.agent_hears(member, heard, outputs),
        }
    }

    /// The agent of a member acts on what it hears, if there is one: what it does is put into the list.
    pub(crate) fn agent_hears(&mut self, member: Member, heard: Heard, outputs: &mut Outputs)
        requires room { HasRoom self.old hearing_cost }
        requires spare { most_outputs ≤ outputs.old.spare }
        requires span { IsSpannedInput heard }
        requires none { outputs.old.outputs ≡ [] }
        ensures world { self.new ≡ record self.old { agents = agent_facts_with self.old.agents member (outcome_of self.old member heard) } }
        ensures outputs { outputs.new.outputs ≡ outputs_of (outcome_of self.old member heard) }
    {
        let place = member.id.number as usize;
        let Some(mut machine) = self.machine(member) else {
            return;
        };
        let Some(server) = self.servers.get(place) else {
            return;
        };
        places::step_agent(
            &mut self.agents,
            place,
            self.clock,
            heard,
            server.history(),
            &mut machine,
            outputs,
        );
    }

    /// What a message says to an agent. It fails only for want of memory.
    pub(crate) fn heard_from(&self, carried: InFlight) -> Result<Option<Heard>, AllocError>
        requires { IsSent carried }
        ensures heard { IfOk result (λ heard. heard ≡ heard_from self.now carried) }
        ensures span { IfOk result (λ heard. IfSome heard IsSpannedInput) }
    {
        let InFlight {
            message,
            sent,
            snapshot,
            grant,
        } = carried;
        let message = message.get();
        let sequence = message.sequence;
        match &message.body {
            Body::Snapshot => {
                let snapshot = self.snapshot(snapshot)?;
                Ok(Some(Heard::ReadAnswered { sequence, snapshot }))
            }
            Body::Granted { .. } => {
                let Some(granted) = grant else {
                    return Ok(None);
                };
                let snapshot = self.snapshot(snapshot)?;
                Ok(Some(Heard::Granted {
                    sequence,
                    granted,
                    snapshot,
                }))
            }
            Body::Refused { key, found, .. } => Ok(Some(Heard::Mismatch {
                sequence,
                key: *key,
                found: *found,
            })),
            Body::Ask => Ok(asked_by(message)),
            Body::Answer(answer) => Ok(Some(Heard::Answered {
                sequence,
                answer: *answer,
            })),
            Body::FailsafeRequest { ttl } => Ok(failsafe_asked_by(message, *ttl)),
            Body::FailsafeAnswer { accepted } => {
                Ok(failsafe_answered_by(message, *accepted, sent))
            }
            _ => Ok(None),
        }
    }

    /// The snapshot that a read at this moment gives. It fails only for want of memory.
    pub fn snapshot_now(&self) -> Result<Snapshot, AllocError>
        ensures { IfOk result (λ snapshot. snapshot ≡ snapshot_at self.now) }
    {
        self.snapshot_read(self.store.entries(self.clock)?)
    }

    /// The snapshot of entries that nobody else has.
    fn snapshot_read(&self, entries: Vec<(Key, Shared<KeyEntry>)>) -> Result<Snapshot, AllocError>
        requires { IsRead entries.items }
        ensures { IfOk result (λ snapshot. snapshot ≡ snapshot_with self.now entries.items) }
    {
        Snapshot::read(self.alloc, self.scope, self.hosts.get(), entries)
    }

    /// The snapshot of entries that an answer carries. It fails only where owners can't be counted any more.
    fn snapshot(&self, entries: Option<Copies>) -> Result<Snapshot, AllocError>
        requires { IsRead (items_if entries) }
        ensures { IfOk result (λ snapshot. snapshot ≡ snapshot_with self.now (items_if entries)) }
    {
        match entries {
            None => unreachable!(),
            Some(entries) => Snapshot::sharing(self.scope, &self.hosts, entries),
        }
    }

    /// What the agent of a member shows of itself and of its server. `None` exactly where none runs.
    pub fn view(&self, id: MemberId) -> Option<AgentView<'_>>
        ensures { IsViewOf self.now id result }
    {
        let member = member_at(&self.members, id)?;
        let machine = self.machine(member)?;
        places::view_at(
            &self.agents,
            member.id.number as usize,
            self.clock,
            &machine,
        )
    }

    /// The machine of a member, as its agent finds it.
    pub fn machine(&self, member: Member) -> Option<Machine>
        ensures machine { result ≡ machine_of self.now member }
        ensures within { HasRoom self.now 1 → IfSome result (λ machine. IsWithin machine.server) }
    {
        let place = member.id.number as usize;
        let from = source_of(&self.members, &self.servers, &self.cuts, member);
        machine_from(
            from.is_some(),
            is_set_by_failsafe(&self.failsafe_deadlines, member),
            replication_of(&self.members, &self.servers, &self.cuts, member),
            item_at(&self.options, place),
            item_at(&self.deadlines, place),
            item_at(&self.holds, place),
            self.servers.get(place),
        )
    }

    /// From when on there is something to do for the agent of a member with its machine. `None` where there never is.
    pub fn work_from(&self, member: Member) -> Option<Ticks>
        ensures { HasWorkFrom (standing_of self.now member) result }
    {
        self.work_moment(member)
    }

    /// From when on there is something to do for the agent of a member, where there are it and all of its machine.
    fn work_moment(&self, member: Member) -> Option<Ticks>
        ensures { result ≡ work_moment (slice_get self.now.options member.id.number) (slice_get self.now.facts.deadlines member.id.number) (slice_get self.now.facts.holds member.id.number)
            (slice_get self.now.facts.servers member.id.number) (agent_at self.now.agents member.id.number) }
    {
        let place = member.id.number as usize;
        item_at(&self.options, place)?;
        item_at(&self.deadlines, place)?;
        item_at(&self.holds, place)?;
        let server = self.servers.get(place)?;
        let agent = places::agent_at(&self.agents, place)?;
        Some(agent.due_from(server.state()))
    }

    /// A moment, or that from which on the agent of a member is to be woken where that comes sooner.
    pub fn wake_from(&self, member: Member, most: Ticks) -> Ticks
        ensures within { result.0 ≤ most.0 }
        ensures asleep { (now : ℕ) → now < result.0 → SleepsAt now self.now member }
        ensures awake { (now : ℕ) → result.0 ≤ now → now < most.0 → WakesAt now self.now member }
    {
        match self.process(member) {
            None => most,
            Some(process) => sooner_wake(most, process, self.work_from(member)),
        }
    }

    /// The agent of a member, if one runs.
    pub fn agent(&self, member: Member) -> Option<&Agent>
        ensures { option_copied result ≡ agent_at self.now.agents member.id.number }
    {
        places::agent_at(&self.agents, member.id.number as usize)
    }

    /// The process of a member's agent: whether it runs, whether it is suspended, and in which incarnation.
    pub fn process(&self, member: Member) -> Option<AgentProcess>
        ensures { result ≡ slice_get self.now.facts.processes member.id.number }
    {
        let process = self.processes.get(member.id.number as usize)?;
        Some(*process)
    }
}

/// A moment, or that from which on an agent of this process is to be woken where that comes sooner: there is something to do for it
/// from then on, if ever.
fn sooner_wake(most: Ticks, process: AgentProcess, work: Option<Ticks>) -> Ticks
    ensures within { result.0 ≤ most.0 }
    ensures asleep { (o : Option Outcome) (now : ℕ) → HasWorkFrom o work → now < result.0 → is_to_wake (record { 0 = now }) process o ≡ false }
    ensures awake { (o : Option Outcome) (now : ℕ) → HasWorkFrom o work → result.0 ≤ now → now < most.0 → is_to_wake (record { 0 = now }) process o ≡ true }
{
    if !may_act(process) {
        return most;
    }
    match work {
        None => most,
        Some(from) => { if from < most { from } else { most } }
    }
}

/// What an ask says to an agent: the member that asks, if one does.
fn asked_by(message: &Message) -> Option<Heard>
    ensures heard { result ≡ option_map (λ from. heards.Asked from message.now.incarnation message.now.sequence) (member_at_end message.now.from) }
    ensures span { IfSome result IsSpannedInput }
{
    let from = member_at_end(message.from)?;
    Some(Heard::Asked {
        from,
        incarnation: message.incarnation,
        sequence: message.sequence,
    })
}

/// What a failsafe request for this span says to an agent: the member that asks, if one does.
fn failsafe_asked_by(message: &Message, ttl: Ticks) -> Option<Heard>
    requires short { ttl.0 ≤ 2 ^ 40 }
    ensures heard { result ≡ option_map (λ from. heards.FailsafeAsked from message.now.incarnation message.now.sequence ttl) (member_at_end message.now.from) }
    ensures span { IfSome result IsSpannedInput }
{
    let from = member_at_end(message.from)?;
    Some(Heard::FailsafeAsked {
        from,
        incarnation: message.incarnation,
        sequence: message.sequence,
        ttl,
    })
}

/// What the answer to a failsafe request, sent at this moment, says to an agent: the member that answers, if one does.
fn failsafe_answered_by(message: &Message, accepted: bool, sent: Ticks) -> Option<Heard>
    ensures heard { result ≡ option_map (λ from. heards.FailsafeAnswered from message.now.sequence accepted sent) (member_at_end message.now.from) }
    ensures span { IfSome result IsSpannedInput }
{
    let from = member_at_end(message.from)?;
    Some(Heard::FailsafeAnswered {
        from,
        sequence: message.sequence,
        accepted,
        sent,
    })
}

/// The member at this end of a link, if one is.
fn member_at_end(end: LinkEnd) -> Option<MemberId>
    ensures { result ≡ member_at_end end }
{
    match end {
        LinkEnd::Store => None,
        LinkEnd::Member(member) => Some(member.id),
    }
}
