//! The stage of a world: what a cluster has at a moment.
ghost use Rattle.std.specs.Prelude.{◌≡◌, ◌<◌, ◌≤◌, ◌+◌, ◌^◌, ◌++◌, ◌∷◌, [], length, OnOk, IfOk, slice_get, Some};
ghost use Rattle.script_model.specs.Script.{IsLink, IsMember};
ghost use Rattle.cluster_model.specs.Commands.{link_of};
ghost use Rattle.cluster_model.specs.Machines.{hosts_of};
ghost use Rattle.pat_base.specs.declared.member_id.TheConstants.{MOST_MEMBERS};
ghost use Rattle.cluster_model.specs.Next.{declared};
ghost use Rattle.cluster_model.specs.Starting.{cluster_of};
ghost use Rattle.cluster_model.specs.State.{Cluster};
ghost use Rattle.cluster_model.specs.Steps.{names_in};

mod acknowledging;
mod agents;
mod happening;
mod logs;
mod messages;
mod printing;
mod restarts;

use event_book::{AgentProcess, Link, Member};
use lease_store::Store;
use member_options::MemberOptions;
use pat_base::{Host, MemberId, Name, Shared, Ticks};
use pg_cluster::Servers;
use rest_paths::Routes;
use script_model::{End, Head};
use std::alloc::{AllocError, Global};
use std::marker::Model;
use wal_model::Serials;
use world_agents::places::{close_all, first_agents};
use world_agents::{Agent, Outputs};
use world_fields::links::{CutLinks, link_of};
use world_fields::members;
use world_flight::flight::Flight;
use world_flight::flight_index::FlightIndex;
use world_parts::from_head::{hosts_of, members_of, options_of, processes_of};

/// A cluster at a moment: the clock, the key store, the declared members with their agents, machines and servers, the links that
/// are cut, the messages in flight, and the commits. It can't be dropped, since an agent can't: `Stage::close` ends one. Each of its
/// methods that changes it writes down the event that does so.
pub struct Stage {
    alloc: Global,
    scope: Name,
    /// What the script declares of the members beside their names.
    options: Vec<MemberOptions>,
    /// Where members are reached, as snapshots tell agents.
    hosts: Shared<Vec<(Name, Host)>>,
    clock: Ticks,
    store: Store,
    members: Vec<Member>,
    processes: Vec<AgentProcess>,
    /// The agents that run, each at the place of its member.
    agents: Vec<Option<Agent>>,
    /// When each watchdog resets its machine, if it is armed.
    deadlines: Vec<Option<Ticks>>,
    /// Whether acknowledgements of other members set each deadline last.
    failsafe_deadlines: Vec<bool>,
    /// Until when each member promised not to take the leader key, if it did.
    holds: Vec<Option<Ticks>>,
    cuts: CutLinks,
    flight: Flight,
    sent: u64,
    servers: Servers,
    frozen: Vec<bool>,
    /// The number of the last commit.
    commits: u64,
    /// The commits whose clients were told that they are stored, in order.
    acknowledged: Serials,
    /// Which messages in flight a round has to look at.
    index: FlightIndex,
    /// A buffer for what agents do, empty between two inputs.
    outputs: Outputs,
    /// The paths of the REST interface of agents.
    routes: Routes,
}

impl Model for Stage {
    ghost use Rattle.std.specs.Prelude.{◌≡◌, ◌≤◌, [], None, length};
    ghost use Rattle.pat_base.specs.declared.member_id.TheConstants.{MOST_MEMBERS};
    ghost use Rattle.cluster_model.specs.Machines.{hosts_of};
    ghost use Rattle.cluster_model.specs.State.{Cluster};
    ghost use Rattle.world_flight.specs.FlightIndex.{AreNumbered, AreTended};

    ghost Value = { Cluster };

    ghost view = { λ w. record {
      scope = w.scope;
      options = w.options.items;
      facts = record {
        clock = w.clock.0;
        keys = w.store;
        members = w.members.items;
        processes = w.processes.items;
        cuts = w.cuts;
        flight = w.flight;
        sent = w.sent;
        servers = w.servers;
        remote = None;
        frozen = w.frozen.items;
        deadlines = w.deadlines.items;
        holds = w.holds.items;
        commits = w.commits;
        acknowledged = w.acknowledged;
      };
      failsafe_deadlines = w.failsafe_deadlines.items;
      agents = w.agents.items;
    } };

    ghost invariant = { λ w. (length w.members.items ≤ MOST_MEMBERS) × AreNumbered w.sent w.flight × AreTended w.index w.flight w.processes.items w.cuts × (w.hosts.items ≡ hosts_of w.options.items w.members.items) × (w.outputs.outputs ≡ []) };
}

impl Stage {
    /// The stage of a script's head, before the first step. It fails only for want of memory.
    pub fn new(alloc: Global, head: &Head) -> Result<Stage, AllocError>
        ensures { IfOk result (λ stage. stage ≡ cluster_of head.now) }
    {
        Stage::of_head(alloc, head, Routes::new(alloc)?)
    }

    /// The stage of a script's head, over these routes.
    fn of_head(alloc: Global, head: &Head, routes: Routes) -> Result<Stage, AllocError>
        ensures { IfOk result (λ stage. stage ≡ cluster_of head.now) }
    {
        let count = head.member_count();
        let members = members_of(alloc, head)?;
        let options = options_of(alloc, head)?;
        let hosts = shared_hosts(alloc, &options, &members)?;
        let processes = processes_of(alloc, count)?;
        let deadlines = Vec::from_elem(alloc, None, count)?;
        let failsafe_deadlines = Vec::from_elem(alloc, false, count)?;
        let holds = Vec::from_elem(alloc, None, count)?;
        let cuts = CutLinks::none(alloc)?;
        let servers = Servers::new(alloc, count, head.base())?;
        let frozen = Vec::from_elem(alloc, false, count)?;
        let store = Store::new(alloc, head.config().try_clone()?)?;
        let scope = head.cluster();
        let (flight, index) = nothing_in_flight(alloc)?;
        // the agents come last, since nothing that fails may leave any of them behind
        let agents = first_agents(alloc, scope, &options, &members)?;
        Ok(Stage {
            alloc,
            scope,
            options,
            hosts,
            clock: Ticks(0),
            store,
            members,
            processes,
            agents,
            deadlines,
            failsafe_deadlines,
            holds,
            cuts,
            flight,
            sent: 0,
            servers,
            frozen,
            commits: 0,
            acknowledged: Serials::new(alloc),
            index,
            outputs: Outputs::new(alloc),
            routes,
        })
    }

    /// Ends a stage, and with it all agents that run.
    pub fn close(self) {
        let Stage {
            alloc: _,
            scope: _,
            options: _,
            hosts: _,
            clock: _,
            store: _,
            members: _,
            processes: _,
            agents,
            deadlines: _,
            failsafe_deadlines: _,
            holds: _,
            cuts: _,
            flight: _,
            sent: _,
            servers: _,
            frozen: _,
            commits: _,
            acknowledged: _,
            index: _,
            outputs: _,
            routes: _,
        } = self;
        close_all(agents);
    }

    /// The paths of the REST interface of agents.
    pub fn routes(&self) -> &Routes {
        &self.routes
    }

    /// The moment, in ticks of 100 ms.
    pub fn clock(&self) -> Ticks
        ensures { result.0 ≡ self.now.facts.clock }
    {
        self.clock
    }

    /// Where what takes memory takes it.
    pub fn alloc(&self) -> Global {
        self.alloc
    }

    /// The key store.
    pub fn store(&self) -> &Store
        ensures { result.now ≡ self.now.facts.keys }
    {
        &self.store
    }

    /// The declared members, in the order of the script.
    pub fn members(&self) -> &[Member]
        ensures { result.now ≡ self.now.facts.members }
    {
        self.members.as_slice()
    }

    /// How many members there are.
    pub fn member_count(&self) -> usize
        ensures count { result ≡ length self.now.facts.members }
        ensures few { result ≤ MOST_MEMBERS }
    {
        self.members.len()
    }

    /// The member at a place.
    pub fn member(&self, place: usize) -> Member
        requires { place < length self.now.facts.members }
        ensures { slice_get self.now.facts.members place ≡ Some result }
    {
        self.members[place]
    }

    /// The declared member of this number.
    pub fn declared(&self, id: MemberId) -> Member
        requires { IsMember (names_in self.now.facts.members) id }
        ensures { declared self.now id ≡ Some result }
    {
        members::declared(&self.members, id)
    }

    /// The link between two ends that a script names.
    pub fn link(&self, first: End, second: End) -> Link
        requires { IsLink (names_in self.now.facts.members) first second }
        ensures { link_of self.now.facts.members first second ≡ Some result }
    {
        link_of(&self.members, first, second)
    }

    /// Which links are cut.
    pub fn cuts(&self) -> &CutLinks
        ensures { result.now ≡ self.now.facts.cuts }
    {
        &self.cuts
    }

    /// The servers, each at the place of its member.
    pub fn servers(&self) -> &Servers
        ensures { result.now ≡ self.now.facts.servers }
    {
        &self.servers
    }

    /// Which servers are frozen, each at the place of its member.
    pub fn frozen(&self) -> &[bool]
        ensures { result.now ≡ self.now.facts.frozen }
    {
        self.frozen.as_slice()
    }

    /// When each watchdog resets its machine, if it is armed.
    pub fn deadlines(&self) -> &[Option<Ticks>]
        ensures { result.now ≡ self.now.facts.deadlines }
    {
        self.deadlines.as_slice()
    }

    /// The number of the last commit.
    pub fn commits(&self) -> u64
        ensures { result ≡ self.now.facts.commits }
    {
        self.commits
    }

    /// The commits whose clients were told that they are stored, in order.
    pub fn acknowledged(&self) -> &Serials
        ensures { result.now ≡ self.now.facts.acknowledged }
    {
        &self.acknowledged
    }

    /// The number of the message that was sent last.
    pub fn sent(&self) -> u64
        ensures { result ≡ self.now.facts.sent }
    {
        self.sent
    }

    /// So many ticks pass in which nothing else happens. They aren't written down.
    pub fn pass(&mut self, ticks: u64)
        requires { self.old.facts.clock + ticks < 2 ^ 64 }
        ensures { self.new ≡ record self.old { facts = record self.old.facts { clock = self.old.facts.clock + ticks } } }
    {
        self.clock = Ticks(self.clock.0 + ticks);
    }
}

/// No message in flight, and the index of none. It fails only for want of memory.
fn nothing_in_flight(alloc: Global) -> Result<(Flight, FlightIndex), AllocError>
    ensures { IfOk result (λ both. both.0 ≡ []) }
{
    let index = FlightIndex::new(alloc)?;
    Ok((Flight::new(alloc), index))
}

/// Where members are reached, to be shared with snapshots.
fn shared_hosts(
    alloc: Global,
    options: &[MemberOptions],
    members: &[Member],
) -> Result<Shared<Vec<(Name, Host)>>, AllocError>
    ensures { IfOk result (λ hosts. hosts.items ≡ hosts_of options.now members.now) }
{
    Shared::new(alloc, hosts_of(alloc, options, members)?)
}
