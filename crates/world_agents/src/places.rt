//! The agents of members, each at the place of its member. An agent can't be dropped: one that ends is wrecked.
ghost use Rattle.std.specs.Prelude.{ℕ, ◌≡◌, ◌≤◌, ◌<◌, ◌+◌, [], List, Option, Some, None, All, IfSome, IfOk, length, map, option_and_then, option_copied, option_map};
ghost use Rattle.pat_base.specs.Changes.{with_changed};
ghost use Rattle.cluster_view.specs.declared.view.AgentView.{AgentView};
ghost use Rattle.agent_rows.specs.Inputs.{IsSpannedInput};
ghost use Rattle.agent_model.specs.Agents.{AgentFacts, IsWithin, most_messages, word_of};
ghost use Rattle.agent_model.specs.Views.{view_of};
ghost use Rattle.pat_base.specs.Moments.{latest};
ghost use Rattle.agent_model.specs.Outputs.{most_outputs};
ghost use Rattle.cluster_model.specs.Cluster.{agent_after, agent_facts_moved, agent_facts_by_watchdog, agent_facts_without};
ghost use Rattle.cluster_model.specs.Inputs.{agent_at, outcome_at, outputs_of, standing, starting_agent};
ghost use Rattle.pat_base.specs.declared.member_id.TheConstants.{MOST_MEMBERS};
ghost use Rattle.cluster_model.specs.Starting.{first_agent};
ghost use Rattle.world_model.specs.Apart.{agents_apart};
ghost use Rattle.world_model.specs.Room.{HasNumbers};

use agent_model::{Heard, Machine, Who};
use cluster_view::AgentView;
use event_book::{AgentEvent, EventKind, Member, WatchdogEvent};
use ha_loop::{Agent, Outputs};
use member_options::MemberOptions;
use pat_base::{Name, Ticks};
use std::alloc::{AllocError, Global};
use wal_model::History;
use world_fields::machines::who_of;

/// The agents of a cluster of this name with these members, of whom these options are declared, each in its first incarnation. It fails only for want of memory.
pub fn first_agents(
    alloc: Global,
    scope: Name,
    options: &[MemberOptions],
    members: &[Member],
) -> Result<Vec<Option<Agent>>, AllocError>
    requires { length members.now ≤ MOST_MEMBERS }
    ensures { IfOk result (λ agents. agents.items ≡ map (first_agent scope options.now members.now) members.now) }
{
    let mut agents = Vec::with_capacity(alloc, members.len())?;
    for member in members {
        let first = Ticks(member.id.number as u64);
        agents.push_reserved(Some(Agent::begin(
            who_of(scope, options, members, *member),
            first,
            1,
        )));
    }
    Ok(agents)
}

/// Ends all agents.
pub fn close_all(mut agents: Vec<Option<Agent>>) {
    while let Some(slot) = agents.pop() {
        wreck(slot);
    }
    agents.destroy_empty();
}

fn wreck(slot: Option<Agent>) {
    if let Some(agent) = slot {
        agent.wreck();
    }
}

/// The agent at a place, if one is there.
pub fn agent_at(agents: &[Option<Agent>], place: usize) -> Option<&Agent>
    ensures { option_copied result ≡ agent_at agents.now place }
{
    agents.get(place)?.as_ref()
}

/// What the agent at a place shows at this moment with this machine, if one is there.
pub fn view_at<'a>(
    agents: &'a [Option<Agent>],
    place: usize,
    now: Ticks,
    machine: &Machine,
) -> Option<AgentView<'a>>
    ensures shows { option_map (λ (v : AgentView). let unread : AgentView = record v { seen = None } in unread) result ≡ option_map (λ agent. view_of now (word_of agent.role) agent.knows machine.now) (agent_at agents.now place) }
    ensures seen { option_and_then (λ (v : AgentView). option_copied v.seen) result ≡ option_and_then (λ agent. agent.knows.seen) (agent_at agents.now place) }
{
    let agent = agent_at(agents, place)?;
    Some(agent.view(now, machine))
}

/// The agent at a place, if there is one, acts on what it hears, with this machine and at a server with this history.
pub fn step_agent(
    agents: &mut Vec<Option<Agent>>,
    place: usize,
    now: Ticks,
    heard: Heard,
    history: &History,
    machine: &mut Machine,
    outputs: &mut Outputs,
)
    requires moment { now.0 ≤ latest }
    requires server { IsWithin machine.old.server }
    requires span { IsSpannedInput heard }
    requires numbers { All (HasNumbers most_outputs) agents.old.items }
    requires room { most_outputs ≤ outputs.old.spare }
    requires none { outputs.old.outputs ≡ [] }
    ensures agents { agents.new.items ≡ with_changed agents.old.items place (agent_after (outcome_at now history.now.points heard (agent_at agents.old.items place) (Some machine.old))) }
    ensures outputs { outputs.new.outputs ≡ outputs_of (outcome_at now history.now.points heard (agent_at agents.old.items place) (Some machine.old)) }
{
    if place < agents.len() {
        step_slot(&mut agents[place], now, heard, history, machine, outputs);
    }
}

/// An agent, if there is one, acts on what it hears.
fn step_slot(
    slot: &mut Option<Agent>,
    now: Ticks,
    heard: Heard,
    history: &History,
    machine: &mut Machine,
    outputs: &mut Outputs,
)
    requires moment { now.0 ≤ latest }
    requires server { IsWithin machine.old.server }
    requires span { IsSpannedInput heard }
    requires numbers { HasNumbers most_outputs slot.old }
    requires room { most_outputs ≤ outputs.old.spare }
    requires none { outputs.old.outputs ≡ [] }
    ensures slot { slot.new ≡ agent_after (outcome_at now history.now.points heard slot.old (Some machine.old)) slot.old }
    ensures outputs { outputs.new.outputs ≡ outputs_of (outcome_at now history.now.points heard slot.old (Some machine.old)) }
{
    match slot {
        None => {}
        Some(agent) => agent.step(now, heard, history, machine, outputs),
    }
}

/// The agents of a cluster of this name with these members, of whom these options are declared, after a happening of this moment that is no input of one.
pub fn change_agents(
    agents: &mut Vec<Option<Agent>>,
    scope: Name,
    options: &[MemberOptions],
    members: &[Member],
    now: Ticks,
    kind: &EventKind,
)
    requires few { length members.now ≤ MOST_MEMBERS }
    requires moment { now.0 ≤ latest }
    ensures { agents.new.items ≡ agents_apart scope options.now members.now now.0 agents.old.items kind.now }
{
    match kind {
        EventKind::Agent(happening) => {
            change_agents_by(agents, scope, options, members, now, happening)
        }
        EventKind::Watchdog(happening) => reset_agent(agents, happening),
        _ => {}
    }
}

/// The agents of a cluster of this name with these members, of whom these options are declared, at this moment, after one ended or started.
fn change_agents_by(
    agents: &mut Vec<Option<Agent>>,
    scope: Name,
    options: &[MemberOptions],
    members: &[Member],
    now: Ticks,
    happening: &AgentEvent,
)
    requires few { length members.now ≤ MOST_MEMBERS }
    requires moment { now.0 ≤ latest }
    ensures { agents.new.items ≡ agent_facts_moved scope options.now members.now now.0 agents.old.items happening.now }
{
    match happening {
        AgentEvent::Killed { agent } => end(agents, *agent),
        AgentEvent::Started { agent, incarnation } => {
            begin(
                agents,
                *agent,
                who_of(scope, options, members, *agent),
                now,
                *incarnation,
            )
        }
        _ => {}
    }
}

/// A reset of its machine ends an agent.
fn reset_agent(agents: &mut Vec<Option<Agent>>, happening: &WatchdogEvent)
    ensures { agents.new.items ≡ agent_facts_by_watchdog agents.old.items happening.now }
{
    if let WatchdogEvent::Reset { member } = happening {
        end(agents, *member);
    }
}

/// The agent of a member ends, if it is there.
fn end(agents: &mut Vec<Option<Agent>>, member: Member)
    ensures { agents.new.items ≡ agent_facts_without agents.old.items member }
{
    let place = member.id.number as usize;
    if place < agents.len() {
        wreck(agents[place].take());
    }
}

/// The agent of a member starts, in its incarnation of this number; one that is there ends.
fn begin(agents: &mut Vec<Option<Agent>>, member: Member, who: Who, now: Ticks, incarnation: u64)
    requires { now.0 ≤ latest }
    ensures { agents.new.items ≡ with_changed agents.old.items member.id.number (λ agent. Some (starting_agent who now.0 incarnation)) }
{
    let place = member.id.number as usize;
    if place < agents.len() {
        wreck(agents[place].replace(Agent::begin(who, now, incarnation)));
    }
}
