//! Agents.
ghost use Rattle.std.specs.Prelude.{ℕ, ◌≡◌, ◌≤◌, ◌<◌, ◌+◌, ◌-◌, ◌^◌, [], Some, None, false, nat_le, option_copied};
ghost use Rattle.pat_base.specs.declared.ticks.Ticks.{Ticks};
ghost use Rattle.lease_model.specs.States.{start_machine};
ghost use Rattle.agent_model.specs.declared.machine.Machine.{Machine};
ghost use Rattle.agent_model.specs.declared.heard.Heard.TheVariants as heards;
ghost use Rattle.agent_model.specs.Agents.{AgentFacts, RoleFacts, IsSound, IsWithin, Follower, word_of, fresh_knowledge, outcome_from, most_messages};
ghost use Rattle.pat_base.specs.Moments.{latest};
ghost use Rattle.agent_turn.specs.Roles.{role_of};
ghost use Rattle.agent_rows.specs.Inputs.{IsSpannedInput};
ghost use Rattle.agent_commit_law.specs.Committing.{CommitsFrom};
ghost use Rattle.agent_cases.specs.Bounds.{IsSmall};
ghost use Rattle.agent_succession.specs.FreeKey.{AsksWhereFree, AsksWhereWon, BeginsWhereGranted};
ghost use Rattle.agent_answers.specs.OperatorAnswers.{told_in, AnswersOneAtMost, HaveCauses, TellsDecision, WaitsAsAsked};
ghost use Rattle.agent_model.specs.Reconciling.{reconciled};
ghost use Rattle.agent_outputs.specs.Orders.{IsCarriedOut};
ghost use Rattle.agent_rules.specs.Grounds.{HasGrounds};
ghost use Rattle.agent_rules.specs.Turns.{ReadsInTurn};
ghost use Rattle.agent_lease_law.specs.Lawful.{IsLawfulFrom};
ghost use Rattle.agent_model.specs.Outputs.{most_outputs};
ghost use Rattle.agent_roles.specs.Seen.{machine_with, machine_seen};
ghost use Rattle.agent_model.specs.Start.{started_machine};
ghost use Rattle.agent_model.specs.Table.{prepared, step};
ghost use Rattle.agent_model.specs.Views.{view_of};
ghost use Rattle.agent_model.specs.Wake.{due_from, is_due};

use agent_model::{Answers, Heard, Knowledge, Machine, Who};
use agent_rows::{due_from, is_due, take_input};
use agent_turn::{Outputs, Role, Turn, view_of, word_of};
use cluster_view::{AgentView, Snapshot};
use failsafe::Ask;
use pat_base::{MemberSet, State, Ticks};
use std::marker::Model;
use std::mem;
use store_keys::{Config, OperatorAction};
use wal_model::History;

/// How many messages an incarnation may send.
const MOST: u64 = 1 << 60;

/// The agent of a member. It holds the leader key's values, so it can't be copied or dropped: `Agent::wreck` ends one.
pub struct Agent {
    role: Role,
    knows: Knowledge,
}

impl Model for Agent {
    ghost use Rattle.agent_model.specs.Agents.{AgentFacts, IsSoundAgent};
    ghost use Rattle.agent_turn.specs.Roles.{role_of};

    ghost Value = { AgentFacts };

    ghost view = { λ a. record { role = role_of a.role; knows = a.knows } };

    ghost invariant = { λ a. IsSoundAgent (role_of a.role) a.knows };
}

impl Agent {
    /// An agent starts, in its incarnation of this number. Its first turn is due in the next tick. A watchdog over a server that isn't
    /// live is disarmed: nobody would feed it.
    pub fn start(who: Who, now: Ticks, incarnation: u64, machine: &mut Machine) -> Agent
        requires { now.0 ≤ latest }
        ensures agent { result ≡ record { role = Follower; knows = fresh_knowledge who (record { 0 = now.0 + 1 }) incarnation } }
        ensures machine { machine.new ≡ started_machine machine.old }
        ensures law { (runs : ℕ) → incarnation ≡ runs + 1 → machine_seen result.role result.knows machine.new incarnation ≡ start_machine (machine_with None machine.old runs) }
    {
        if !machine.server.state.live() {
            machine.watchdog.disarm();
        }
        Agent::begin(who, now, incarnation)
    }

    /// An agent in its incarnation of this number. Its first turn is due in the tick after this moment.
    pub fn begin(who: Who, now: Ticks, incarnation: u64) -> Agent
        requires { now.0 ≤ latest }
        ensures { result ≡ record { role = Follower; knows = fresh_knowledge who (record { 0 = now.0 + 1 }) incarnation } }
    {
        Agent {
            role: Role::Follower,
            knows: fresh_knowledge(who, Ticks(now.0 + 1), incarnation),
        }
    }

    /// Whether there is something to do for it if it is woken at this moment.
    pub fn due(&self, now: Ticks, machine: &Machine) -> bool
        ensures { result ≡ is_due now self.now.role self.now.knows machine.now }
    {
        is_due(&self.role, &self.knows, machine, now)
    }

    /// From when on there is something to do for it if it is woken, as long as its server stays in this state.
    pub fn due_from(&self, state: State) -> Ticks
        ensures moment { result ≡ due_from self.now.role self.now.knows state }
        ensures exact { (now : Ticks) (machine : Machine) → machine.server.state ≡ state → is_due now self.now.role self.now.knows machine ≡ nat_le result.0 now.0 }
    {
        due_from(&self.role, &self.knows, state)
    }

    /// One input, by the decision table. `history` is that of the own server. It takes no memory and refuses nothing; the
    /// machine is what it reckons with, and who carries out the outputs in their order arrives at the same. Where no output stood
    /// before, the input is lawful by the law of the lease, and with the synchronous mode on by that of kept commits.
    pub fn step(
        &mut self,
        now: Ticks,
        heard: Heard,
        history: &History,
        machine: &mut Machine,
        out: &mut Outputs,
    )
        requires moment { now.0 ≤ latest }
        requires server { IsWithin machine.old.server }
        requires span { IsSpannedInput heard }
        requires numbers { self.old.knows.sequence + most_outputs ≤ most_messages }
        requires room { most_outputs ≤ out.old.spare }
        ensures outcome { outcome_from self.new.role self.new.knows machine.new out.new.outputs ≡ step now history.now.points heard (outcome_from self.old.role self.old.knows machine.old out.old.outputs) }
        ensures lawful { out.old.outputs ≡ [] → IsLawfulFrom now heard (outcome_from self.old.role self.old.knows machine.old []) (outcome_from self.new.role self.new.knows machine.new out.new.outputs) }
        // What it asks for, begins, requires, feeds, promises, repairs and gives back has its grounds.
        ensures grounds { out.old.outputs ≡ [] → HasGrounds now heard (reconciled now (outcome_from self.old.role self.old.knows machine.old [])) (outcome_from self.new.role self.new.knows machine.new out.new.outputs) }
        ensures commits { out.old.outputs ≡ [] → CommitsFrom now heard (outcome_from self.old.role self.old.knows machine.old []) (outcome_from self.new.role self.new.knows machine.new out.new.outputs) }
        // Whatever becomes of its machine comes by its outputs.
        ensures carried { out.old.outputs ≡ [] → IsCarriedOut now machine.old (outcome_from self.new.role self.new.knows machine.new out.new.outputs) }
        // A turn that is due reads what the key store holds.
        ensures reads { ReadsInTurn now heard (reconciled now (outcome_from self.old.role self.old.knows machine.old out.old.outputs)) (outcome_from self.new.role self.new.knows machine.new out.new.outputs) }
        // A free leader key is asked for, by whom nothing bars and who wins; and whom it is granted to begins.
        ensures free_key { AsksWhereFree now heard (prepared now heard (outcome_from self.old.role self.old.knows machine.old out.old.outputs)) (outcome_from self.new.role self.new.knows machine.new out.new.outputs) }
        ensures won_race { AsksWhereWon now heard (prepared now heard (outcome_from self.old.role self.old.knows machine.old out.old.outputs)) (outcome_from self.new.role self.new.knows machine.new out.new.outputs) }
        ensures granted_key { BeginsWhereGranted now heard (prepared now heard (outcome_from self.old.role self.old.knows machine.old out.old.outputs)) (outcome_from self.new.role self.new.knows machine.new out.new.outputs) }
        // An operator is answered at most once, and for a cause; at once, where the key store's decision on it is heard. What waits for
        // a result waited before, or is heard.
        ensures answers { out.old.outputs ≡ [] → AnswersOneAtMost now heard (outcome_from self.old.role self.old.knows machine.old []) (outcome_from self.new.role self.new.knows machine.new out.new.outputs) (told_in out.new.outputs) }
        ensures causes { out.old.outputs ≡ [] → HaveCauses now heard self.old.knows out.new.outputs }
        ensures decisions { out.old.outputs ≡ [] → TellsDecision heard self.old.knows out.new.outputs }
        ensures waits { out.old.outputs ≡ [] → WaitsAsAsked now heard (outcome_from self.old.role self.old.knows machine.old []) (outcome_from self.new.role self.new.knows machine.new out.new.outputs) }
        // It brings at most 40 messages and 40 outputs, and asks the key store for leases that it can write.
        ensures small { IsSmall (outcome_from self.old.role self.old.knows machine.old out.old.outputs) (outcome_from self.new.role self.new.knows machine.new out.new.outputs) }
        ensures numbers { self.new.knows.sequence ≤ self.old.knows.sequence + most_outputs }
        ensures room { out.old.spare ≤ out.new.spare + most_outputs }
    {
        let role = mem::replace(&mut self.role, Role::Follower);
        let role = hear(role, &mut self.knows, machine, out, now, heard, history);
        fill(&mut self.role, role);
    }

    /// A request of an operator, which passed its checks: one input, `Heard::Operated`.
    pub fn act(
        &mut self,
        now: Ticks,
        action: OperatorAction,
        history: &History,
        machine: &mut Machine,
        out: &mut Outputs,
    )
        requires moment { now.0 ≤ latest }
        requires server { IsWithin machine.old.server }
        requires numbers { self.old.knows.sequence + most_outputs ≤ most_messages }
        requires room { most_outputs ≤ out.old.spare }
        ensures outcome { outcome_from self.new.role self.new.knows machine.new out.new.outputs ≡ step now history.now.points (heards.Operated action) (outcome_from self.old.role self.old.knows machine.old out.old.outputs) }
        ensures lawful { out.old.outputs ≡ [] → IsLawfulFrom now (heards.Operated action) (outcome_from self.old.role self.old.knows machine.old []) (outcome_from self.new.role self.new.knows machine.new out.new.outputs) }
        ensures grounds { out.old.outputs ≡ [] → HasGrounds now (heards.Operated action) (reconciled now (outcome_from self.old.role self.old.knows machine.old [])) (outcome_from self.new.role self.new.knows machine.new out.new.outputs) }
        ensures commits { out.old.outputs ≡ [] → CommitsFrom now (heards.Operated action) (outcome_from self.old.role self.old.knows machine.old []) (outcome_from self.new.role self.new.knows machine.new out.new.outputs) }
        ensures carried { out.old.outputs ≡ [] → IsCarriedOut now machine.old (outcome_from self.new.role self.new.knows machine.new out.new.outputs) }
        // It answers no other request than this one, and no other comes to wait.
        ensures answers { out.old.outputs ≡ [] → AnswersOneAtMost now (heards.Operated action) (outcome_from self.old.role self.old.knows machine.old []) (outcome_from self.new.role self.new.knows machine.new out.new.outputs) (told_in out.new.outputs) }
        ensures causes { out.old.outputs ≡ [] → HaveCauses now (heards.Operated action) self.old.knows out.new.outputs }
        ensures waits { out.old.outputs ≡ [] → WaitsAsAsked now (heards.Operated action) (outcome_from self.old.role self.old.knows machine.old []) (outcome_from self.new.role self.new.knows machine.new out.new.outputs) }
        ensures numbers { self.new.knows.sequence ≤ self.old.knows.sequence + most_outputs }
        ensures room { out.old.spare ≤ out.new.spare + most_outputs }
    {
        self.step(now, Heard::Operated { action }, history, machine, out);
    }

    /// How many messages of this incarnation are left.
    pub fn room(&self) -> u64
        ensures { result ≡ most_messages - self.now.knows.sequence }
    {
        MOST.saturating_sub(self.knows.sequence)
    }

    /// The number that its next message in this incarnation has.
    pub fn next_number(&self) -> u64
        requires { self.now.knows.sequence < most_messages }
        ensures { result ≡ self.now.knows.sequence + 1 }
    {
        self.knows.sequence + 1
    }

    /// What the key store had, by the newest answer that it accepted.
    pub fn seen(&self) -> Option<&Snapshot>
        ensures { option_copied result ≡ self.now.knows.seen }
    {
        self.knows.seen.as_ref()
    }

    /// What it shows of itself and of its server.
    pub fn view<'a>(&'a self, now: Ticks, machine: &Machine) -> AgentView<'a>
        ensures shown { record result { seen = None } ≡ view_of now (word_of self.now.role) self.now.knows machine.now }
        ensures seen { option_copied result.seen ≡ self.now.knows.seen }
    {
        view_of(now, word_of(&self.role), &self.knows, machine)
    }

    /// The agent ends, and with it what it holds. Its machine stays as it is.
    pub fn wreck(self) {
        let Agent { role, knows: _ } = self;
        match role {
            Role::Follower | Role::Unleased => {}
            Role::Holder(lease) => lease.lost(),
            Role::Ready(armed) => armed.wreck(),
            Role::Leader(writer) | Role::Ending(writer, _) => writer.wreck(),
        }
    }
}

/// What an agent knows as it starts.
fn fresh_knowledge(who: Who, first: Ticks, incarnation: u64) -> Knowledge
    ensures knows { result ≡ fresh_knowledge who first incarnation }
    ensures sound { IsSound result }
{
    Knowledge {
        answers: Answers::none(&who),
        who,
        incarnation,
        waited: None,
        sequence: 0,
        last_turn: None,
        next_turn: first,
        last_read: None,
        seen: None,
        settings: Config::defaults(),
        turn_settings: Config::defaults(),
        turn_sync: None,
        turn_failover: None,
        turn_failsafe: None,
        noted: None,
        begun: None,
        crashed: None,
        known: MemberSet::empty(),
        informed: false,
        confirmed: false,
        failsafe: Ask::new(MemberSet::empty(), Ticks(0)),
        handed_over: false,
        operating: None,
    }
}

/// Puts a role into the place of one that was taken out.
fn fill(place: &mut Role, role: Role)
    requires { place.old ≡ Role.Follower }
    ensures { place.new ≡ role }
{
    match mem::replace(place, role) {
        Role::Follower => {}
        _ => unreachable!(),
    }
}

/// An input.
fn hear(
    role: Role,
    knows: &mut Knowledge,
    machine: &mut Machine,
    out: &mut Outputs,
    now: Ticks,
    heard: Heard,
    history: &History,
) -> Role
    requires moment { now.0 ≤ latest }
    requires sound { IsSound knows.old }
    requires server { IsWithin machine.old.server }
    requires span { IsSpannedInput heard }
    requires numbers { knows.old.sequence + most_outputs ≤ most_messages }
    requires room { most_outputs ≤ out.old.spare }
    ensures outcome { outcome_from (role_of result) knows.new machine.new out.new.outputs ≡ step now history.now.points heard (outcome_from (role_of role) knows.old machine.old out.old.outputs) }
    ensures sound { IsSound knows.new }
    ensures numbers { knows.new.sequence ≤ knows.old.sequence + most_outputs }
    ensures room { out.old.spare ≤ out.new.spare + most_outputs }
{
    let mut turn = Turn {
        moment: now,
        knows,
        machine,
        out,
    };
    take_input(role, &mut turn, heard, history)
}
