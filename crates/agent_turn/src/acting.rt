//! What an agent does, of which the rows are made: messages, orders to its server, and its watchdog.
ghost use Rattle.std.specs.Prelude.{IfErr, IfOk, None, false, if◌then◌else◌, is_err, not, true, ◌&&◌, ◌+◌, ◌≡◌, ◌≤◌};
ghost use Rattle.pat_base.specs.ServerState.{live};
ghost use Rattle.leader_key.specs.Lease.{armed_revision, lease_revision, writer_revision};
ghost use Rattle.leader_key.specs.Watchdog.{IsLeaseSpan, is_armable};
ghost use Rattle.agent_model.specs.declared.output.Output.TheVariants as outputs;
ghost use Rattle.agent_model.specs.declared.why.Why.TheVariants as whys;
ghost use Rattle.agent_model.specs.Acting.{armed, arming, asking, comes_late, disarmed, disarming, ending_server, fed_until, feeding, is_hold_active, is_refusing, releasing, requiring, sending, touching, waiting_no_more};
ghost use Rattle.agent_model.specs.Agents.{Ending, IsWithin, Unleased};
ghost use Rattle.agent_model.specs.Pausing.{disabling_told, disabling_watchdog, running_without_key};
ghost use Rattle.agent_turn.specs.Roles.{role_of};
ghost use Rattle.agent_turn.specs.Turns.{ComesTo, HasLeft, Spent};

use crate::info::info_of;
use crate::outputs::Outputs;
use crate::role::Role;
use crate::turn::Turn;
use agent_model::{
    Feeding, Inquiry, Machine, Noting, Outgoing, Output, PendingQuestion, Question, ServerOrder,
    Target, Why,
};
use event_book::{AgentNote, Reason};
use leader_key::{Armed, Lease, Mode, NotArmed, Watchdog, Writer};
use lease_store::Granted;
use pat_base::{Required, Ticks};
use store_keys::Txn;

impl Turn<'_> {
    /// Sends this to the key store, and doesn't wait for the answer.
    pub fn send(&mut self, body: Inquiry)
        requires { HasLeft 1 1 self.old }
        ensures outcome { ComesTo (sending body) self.old self.new }
        ensures left { Spent 1 1 self.old self.new }
    {
        self.knows.sequence += 1;
        self.out.put(Output::Message(Outgoing::Send {
            to: Target::Store,
            sequence: self.knows.sequence,
            body,
        }));
    }

    /// Asks the key store, and waits for the answer until a moment.
    pub fn ask(&mut self, question: Question, until: Ticks, body: Inquiry)
        requires { HasLeft 1 1 self.old }
        ensures outcome { ComesTo (asking self.old.moment question until body) self.old self.new }
        ensures left { Spent 1 1 self.old self.new }
    {
        self.send(body);
        self.knows.waited = Some(PendingQuestion {
            question,
            sequence: self.knows.sequence,
            until,
            ttl: self.knows.settings.ttl_ticks(),
            sent: self.moment,
        });
    }

    /// Nothing is waited for any more.
    pub fn wait_no_more(&mut self)
        requires { HasLeft 0 0 self.old }
        ensures outcome { ComesTo waiting_no_more self.old self.new }
        ensures left { Spent 0 0 self.old self.new }
    {
        self.knows.waited = None;
    }

    /// Tells of itself, without waiting for the answer.
    pub fn touch(&mut self)
        requires { HasLeft 1 1 self.old }
        ensures outcome { ComesTo touching self.old self.new }
        ensures left { Spent 1 1 self.old self.new }
    {
        let touch = Txn::Touch {
            info: info_of(&self.knows.who, &self.machine.server),
            ttl: self.knows.settings.ttl_ticks(),
        };
        self.send(Inquiry::request(touch));
    }

    /// Gives the leader key up.
    pub fn release(&mut self, lease: Lease)
        requires { HasLeft 1 1 self.old }
        ensures outcome { ComesTo (releasing (lease_revision lease)) self.old self.new }
        ensures left { Spent 1 1 self.old self.new }
    {
        self.send(Inquiry::request(lease.release()));
    }

    /// Ends the server.
    pub fn end_server(&mut self, reason: Reason)
        requires turn { HasLeft 1 0 self.old }
        requires server { IsWithin self.old.machine.now.server }
        ensures outcome { ComesTo (ending_server self.old.moment reason) self.old self.new }
        ensures left { Spent 1 0 self.old self.new }
    {
        self.machine.server.stop(self.moment);
        self.out.put(Output::Server(ServerOrder::Stop { reason }));
    }

    /// A leader ends its server, since it loses the leader key.
    pub fn lose(&mut self, writer: Writer, reason: Reason) -> Role
        requires turn { HasLeft 1 0 self.old }
        requires server { IsWithin self.old.machine.now.server }
        ensures role { role_of result ≡ Ending (writer_revision writer) whys.Lost }
        ensures outcome { ComesTo (ending_server self.old.moment reason) self.old self.new }
        ensures left { Spent 1 0 self.old self.new }
    {
        self.end_server(reason);
        Role::Ending(writer, Why::Lost)
    }

    /// The server's commits wait for these from now on.
    pub fn require(&mut self, required: Required)
        requires { HasLeft 1 0 self.old }
        ensures outcome { ComesTo (requiring required) self.old self.new }
        ensures left { Spent 1 0 self.old self.new }
    {
        self.machine.replication.required = required;
        self.out.put(Output::Require { required });
    }

    /// Removes the watchdog's deadline.
    pub fn disarm(&mut self)
        requires { HasLeft 1 0 self.old }
        ensures outcome { ComesTo disarming self.old self.new }
        ensures left { Spent 1 0 self.old self.new }
    {
        let deadline = self.machine.watchdog.deadline();
        note_disarmed(self.out, deadline);
        self.machine.watchdog.disarm();
    }

    /// The server of a writer has ended: its lease, and no deadline.
    pub fn end_writer(&mut self, writer: Writer) -> Lease
        requires turn { HasLeft 1 0 self.old }
        requires ended { live self.old.machine.now.server.state ≡ false }
        ensures revision { lease_revision result ≡ writer_revision writer }
        ensures outcome { ComesTo disarming self.old self.new }
        ensures left { Spent 1 0 self.old self.new }
    {
        let deadline = self.machine.watchdog.deadline();
        note_disarmed(self.out, deadline);
        let state = self.machine.server.state;
        writer.end(&state, &mut self.machine.watchdog)
    }

    /// What was armed is given up: its lease, and no deadline.
    pub fn undo(&mut self, armed: Armed) -> Lease
        requires { HasLeft 1 0 self.old }
        ensures revision { lease_revision result ≡ armed_revision armed }
        ensures outcome { ComesTo disarming self.old self.new }
        ensures left { Spent 1 0 self.old self.new }
    {
        let deadline = self.machine.watchdog.deadline();
        note_disarmed(self.out, deadline);
        armed.undo(&mut self.machine.watchdog)
    }

    /// Arms the watchdog on a lease. The lease comes back exactly where the member needs a watchdog whose device doesn't work.
    pub fn arm(&mut self, lease: Lease, ttl: Ticks) -> Result<Armed, Lease>
        requires turn { HasLeft 1 0 self.old }
        requires span { IsLeaseSpan ttl.0 }
        ensures refused { is_err result ≡ is_refusing self.old.machine.now.watchdog.mode self.old.machine.now.watchdog.works }
        ensures armed { IfOk result (λ value. (armed_revision value ≡ lease_revision lease) × ComesTo (arming self.old.moment ttl) self.old self.new) }
        ensures kept { IfErr result (λ back. (back ≡ lease) × ComesTo (λ o. o) self.old self.new × Spent 0 0 self.old self.new) }
        ensures left { Spent 1 0 self.old self.new }
    {
        let before = self.machine.by_failsafe;
        let by_failsafe = is_by_failsafe(&self.machine.watchdog, before);
        match lease.arm(&mut self.machine.watchdog, self.moment, ttl) {
            Err(NotArmed(lease)) => Err(lease),
            Ok(armed) => {
                self.machine.by_failsafe = by_failsafe;
                let deadline = deadline_of(&self.machine.watchdog);
                note_armed(self.out, deadline);
                Ok(armed)
            }
        }
    }

    /// Feeds the watchdog of a writer, whose lease was renewed.
    pub fn feed(&mut self, writer: Writer, ttl: Ticks, grant: Granted) -> Writer
        requires turn { HasLeft 1 0 self.old }
        requires span { IsLeaseSpan ttl.0 }
        requires leased { grant.leased ≡ true }
        ensures revision { writer_revision result ≡ grant.revision }
        ensures outcome { ComesTo (feeding self.old.moment ttl) self.old self.new }
        ensures left { Spent 1 0 self.old self.new }
    {
        let before = self.machine.by_failsafe;
        self.machine.by_failsafe = is_by_failsafe(&self.machine.watchdog, before);
        let writer = writer.renewed(grant, &mut self.machine.watchdog, self.moment, ttl);
        let deadline = deadline_of(&self.machine.watchdog);
        note_fed(self.out, deadline);
        writer
    }

    /// A leader whose lease was renewed goes on without a watchdog.
    pub fn renew_without_watchdog(&mut self, writer: Writer, renews: bool, grant: Granted) -> Writer
        requires turn { HasLeft 2 0 self.old }
        requires leased { grant.leased ≡ true }
        ensures revision { writer_revision result ≡ grant.revision }
        ensures outcome { ComesTo (disabling_watchdog renews) self.old self.new }
        ensures left { Spent 2 0 self.old self.new }
    {
        let deadline = self.machine.watchdog.deadline();
        tell_rest(self.out, renews, deadline);
        writer.renewed_without_watchdog(grant, &mut self.machine.watchdog)
    }

    /// A member leads without a watchdog, on a lease that it gets by a renewal or as the key was free.
    pub fn arm_without_watchdog(&mut self, lease: Lease, renews: bool) -> Armed
        requires { HasLeft 2 0 self.old }
        ensures revision { armed_revision result ≡ lease_revision lease }
        ensures outcome { ComesTo (disabling_watchdog renews) self.old self.new }
        ensures left { Spent 2 0 self.old self.new }
    {
        let deadline = self.machine.watchdog.deadline();
        tell_rest(self.out, renews, deadline);
        lease.arm_without_watchdog(&mut self.machine.watchdog)
    }

    /// A primary runs on without the leader key.
    pub fn run_without_key(&mut self) -> Role
        requires { HasLeft 1 0 self.old }
        ensures role { role_of result ≡ Unleased }
        ensures outcome { ComesTo running_without_key self.old self.new }
        ensures left { Spent 1 0 self.old self.new }
    {
        self.out
            .put(Output::Note(Noting::Agent(AgentNote::RunsWithoutKey)));
        Role::Unleased
    }
}

fn note_disarmed(out: &mut Outputs, deadline: Option<Ticks>)
    requires { 1 ≤ out.old.spare }
    ensures out { out.new.outputs ≡ disarmed deadline out.old.outputs }
    ensures room { out.old.spare ≤ out.new.spare + 1 }
{
    if deadline.is_some() {
        out.put(Output::Watchdog(Feeding::Disarmed));
    }
}

/// Tells the watchdog's new deadline, if it got one.
fn note_fed(out: &mut Outputs, deadline: Option<Ticks>)
    requires { 1 ≤ out.old.spare }
    ensures out { out.new.outputs ≡ fed_until deadline out.old.outputs }
    ensures room { out.old.spare ≤ out.new.spare + 1 }
{
    if let Some(until) = deadline {
        out.put(Output::Watchdog(Feeding::Fed { until }));
    }
}

/// Tells the watchdog's first deadline, if it got one.
fn note_armed(out: &mut Outputs, deadline: Option<Ticks>)
    requires { 1 ≤ out.old.spare }
    ensures out { out.new.outputs ≡ armed deadline out.old.outputs }
    ensures room { out.old.spare ≤ out.new.spare + 1 }
{
    if let Some(until) = deadline {
        out.put(Output::Watchdog(Feeding::Armed { until }));
    }
}

/// Whether acknowledgements set the deadline last of a watchdog that a grant feeds: of one that isn't used, or whose device doesn't
/// work, where they did before.
fn is_by_failsafe(watchdog: &Watchdog, before: bool) -> bool
    ensures { result ≡ (not (is_armable watchdog.now.mode watchdog.now.works) && before) }
{
    !is_armable(watchdog) && before
}

/// Whether a watchdog is used and its device works.
pub fn is_armable(watchdog: &Watchdog) -> bool
    ensures { result ≡ is_armable watchdog.now.mode watchdog.now.works }
{
    match watchdog.mode() {
        Mode::Off => false,
        Mode::Automatic | Mode::Required => watchdog.works(),
    }
}

/// The deadline of a watchdog that is used and whose device works.
pub fn deadline_of(watchdog: &Watchdog) -> Option<Ticks>
    ensures { result ≡ if is_armable watchdog.now.mode watchdog.now.works then watchdog.now.deadline else None }
{
    if is_armable(watchdog) {
        watchdog.deadline()
    } else {
        None
    }
}

/// Whether an answer to what is waited for comes too late to arm or feed the watchdog.
pub fn comes_late(now: Ticks, waited: PendingQuestion, machine: &Machine) -> bool
    ensures { result ≡ comes_late now waited machine.now }
{
    machine.watchdog.is_late(now, waited.sent, waited.ttl)
}

/// Whether a hold is active.
pub fn is_hold_active(now: Ticks, hold: Option<Ticks>) -> bool
    ensures { result ≡ is_hold_active now hold }
{
    match hold {
        None => false,
        Some(hold) => now < hold,
    }
}

/// Tells that a deadline is removed, and notes it where that comes of a renewal.
fn tell_rest(out: &mut Outputs, renews: bool, deadline: Option<Ticks>)
    requires { 2 ≤ out.old.spare }
    ensures out { out.new.outputs ≡ disabling_told renews deadline out.old.outputs }
    ensures room { out.old.spare ≤ out.new.spare + 2 }
{
    if deadline.is_none() {
        return;
    }
    out.put(Output::Watchdog(Feeding::Disarmed));
    if renews {
        out.put(Output::Note(Noting::Agent(AgentNote::DisablesWatchdog)));
    }
}
