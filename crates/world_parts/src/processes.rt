//! The processes of agents: what commands and resets change of them.
ghost use Rattle.std.specs.Prelude.{◌≡◌, ◌<◌, ◌^◌, true, false, IfSome};
ghost use Rattle.event_book.specs.Processes.{processes_by, processes_by_watchdog, ended_process, with_member_changed, running_in};
ghost use Rattle.cluster_model.specs.Commands.{suspend_of, resume_of, kill_of, agent_started};
ghost use Rattle.cluster_model.specs.Inputs.{may_act};
ghost use Rattle.cluster_model.specs.State.{Cluster};
ghost use Rattle.world_model.specs.Comes.{MayCome};

use event_book::{AgentEvent, AgentProcess, EventKind, Member, Note, WatchdogEvent};

/// Whether an agent runs and isn't suspended.
pub fn may_act(process: AgentProcess) -> bool
    ensures { result ≡ may_act process }
{
    process.running && !process.suspended
}

/// The suspension of an agent: what happens where it runs and isn't suspended already.
pub fn suspend_of(member: Member, process: AgentProcess) -> Option<EventKind>
    ensures kind { result ≡ suspend_of member process }
    ensures comes { (cluster : Cluster) → IfSome result (MayCome cluster) }
{
    if may_act(process) {
        Some(EventKind::Agent(AgentEvent::Suspended { agent: member }))
    } else {
        None
    }
}

/// The end of a suspension: what happens where the agent is suspended.
pub fn resume_of(member: Member, process: AgentProcess) -> Option<EventKind>
    ensures kind { result ≡ resume_of member process }
    ensures comes { (cluster : Cluster) → IfSome result (MayCome cluster) }
{
    if process.suspended {
        Some(EventKind::Agent(AgentEvent::Resumed { agent: member }))
    } else {
        None
    }
}

/// The end of an agent: what happens where it runs.
pub fn kill_of(member: Member, process: AgentProcess) -> Option<EventKind>
    ensures kind { result ≡ kill_of member process }
    ensures comes { (cluster : Cluster) → IfSome result (MayCome cluster) }
{
    if process.running {
        Some(EventKind::Agent(AgentEvent::Killed { agent: member }))
    } else {
        None
    }
}

/// The start of an agent: it is in its next run then. Of one that runs it is said that it does.
pub fn agent_started(member: Member, process: AgentProcess) -> EventKind
    requires { process.incarnation < 2 ^ 60 }
    ensures { result ≡ agent_started member process }
{
    let agent = member;
    if process.running {
        EventKind::Note(Note::AlreadyRunning { agent })
    } else {
        let incarnation = process.incarnation + 1;
        EventKind::Agent(AgentEvent::Started { agent, incarnation })
    }
}

/// The processes of agents after what happens to one of them.
pub fn change_process(agents: &mut Vec<AgentProcess>, happening: &AgentEvent)
    ensures { agents.new.items ≡ processes_by agents.old.items happening.now }
{
    match happening {
        AgentEvent::Suspended { agent } => suspend(agents, *agent),
        AgentEvent::Resumed { agent } => resume(agents, *agent),
        AgentEvent::Killed { agent } => end(agents, *agent),
        AgentEvent::Started { agent, incarnation } => begin(agents, *agent, *incarnation),
        _ => {}
    }
}

/// A reset of its machine ends the process of an agent.
pub fn reset_process(agents: &mut Vec<AgentProcess>, happening: &WatchdogEvent)
    ensures { agents.new.items ≡ processes_by_watchdog agents.old.items happening.now }
{
    if let WatchdogEvent::Reset { member } = happening {
        end(agents, *member);
    }
}

fn suspend(agents: &mut Vec<AgentProcess>, agent: Member)
    ensures { agents.new.items ≡ with_member_changed agents.old.items agent (λ state. record state { suspended = true }) }
{
    let place = agent.id.number as usize;
    if place < agents.len() {
        agents[place].suspended = true;
    }
}

fn resume(agents: &mut Vec<AgentProcess>, agent: Member)
    ensures { agents.new.items ≡ with_member_changed agents.old.items agent (λ state. record state { suspended = false }) }
{
    let place = agent.id.number as usize;
    if place < agents.len() {
        agents[place].suspended = false;
    }
}

fn end(agents: &mut Vec<AgentProcess>, agent: Member)
    ensures { agents.new.items ≡ with_member_changed agents.old.items agent ended_process }
{
    let place = agent.id.number as usize;
    if place < agents.len() {
        agents[place] = AgentProcess {
            running: false,
            suspended: false,
            ..agents[place]
        };
    }
}

fn begin(agents: &mut Vec<AgentProcess>, agent: Member, incarnation: u64)
    ensures { agents.new.items ≡ with_member_changed agents.old.items agent (λ state. running_in incarnation) }
{
    let place = agent.id.number as usize;
    if place < agents.len() {
        agents[place] = AgentProcess {
            running: true,
            suspended: false,
            incarnation,
        };
    }
}
