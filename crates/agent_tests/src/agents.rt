//! Inputs of agents, worked by hand.
ghost use Rattle.agent_rows.specs.Inputs.{IsSpannedInput};

use agent_model::{
    Feeding, Heard, Machine, Outgoing, Output, Replication, ServerOrder, Telling, Told, Who,
};
use cluster_view::{RoleWord, Snapshot};
use event_book::{Body, Reason};
use ha_loop::{Agent, Outputs};
use leader_key::{Mode, Watchdog};
use lease_store::{Granted, Store};
use operator_answers::Text;
use pat_base::{Host, MemberId, Name, Required, Tags, Ticks, Word};
use pg_model::Server;
use std::alloc::Global;
use std::process::Abort;
use std::test::Fail;
use store_keys::{ConfigValue, LeaseTxn, MemberInfo, OperatorAction, OperatorRequest, Txn};
use wal_model::History;

fn who(rt: &impl Abort) -> Who {
    Who {
        me: MemberId { number: 0 },
        members: 1,
        scope: Name::read(b"demo").expect(rt, "a name"),
        name: Name::read(b"a").expect(rt, "a name"),
        host: Host::local(),
        tags: Tags {
            nofailover: false,
            nosync: false,
            noloadbalance: false,
            failover_priority: 1,
        },
    }
}

/// What a message asks, in a word.
fn asked(body: &Body) -> &'static str {
    match body {
        Body::Read => "read",
        Body::Request(txn) => match txn.get() {
            Txn::Lease(LeaseTxn::Create { .. }) => "create",
            Txn::Lease(LeaseTxn::Renew { .. }) => "renewal",
            _ => "another request",
        },
        _ => "another message",
    }
}

/// What an output does, in a word.
fn word(rt: &impl Abort, alloc: Global, output: Output) -> &'static str {
    match output {
        Output::Message(Outgoing::Send { body, .. }) => asked(
            &body.into_body(alloc).expect(rt, "memory"),
        ),
        Output::Server(ServerOrder::Begin) => "begin",
        Output::Server(
            ServerOrder::Stop {
                reason: Reason::StoreOutOfReach,
            },
        ) => "out of reach",
        Output::Require { .. } => "require",
        Output::Watchdog(Feeding::Armed { until: Ticks(251) }) => "armed until 251",
        Output::Watchdog(Feeding::Disarmed) => "disarmed",
        Output::Server(ServerOrder::Restart { as_primary: false }) => "restart as a replica",
        Output::Tell(
            Telling::HoldTaken {
                until: Ticks(301),
                from: MemberId { number: 0 },
                sequence: 0,
            },
        ) => "hold until 301",
        Output::Tell(
            Telling::Told {
                request: 7,
                told: Told::Text {
                    status: 200,
                    text: Text::Accepted,
                },
            },
        ) => "accepted",
        Output::Tell(
            Telling::Told {
                request: 7,
                told: Told::Text {
                    status: 500,
                    text: Text::Refused,
                },
            },
        ) => "refused",
        Output::Tell(Telling::Told { request: 7, .. }) => "answer to 7",
        Output::Tell(
            Telling::HoldTaken {
                until: Ticks(305),
                from: MemberId { number: 1 },
                sequence: 9,
            },
        ) => "hold until 305",
        Output::Message(
            Outgoing::FailsafeAnswer {
                to: MemberId { number: 1 },
                incarnation: 4,
                sequence: 9,
                accepted,
            },
        ) => { if accepted { "yes" } else { "no" } }
        _ => "another",
    }
}

/// What an agent acts on, with room for what it does.
#[derive(Drop)]
struct Workplace {
    alloc: Global,
    history: History,
    machine: Machine,
    out: Outputs,
}

impl Workplace {
    fn new(alloc: Global) -> Result<Workplace, Fail> {
        let mut out = Outputs::new(alloc);
        out.reserve(40)?;
        Ok(Workplace {
            alloc,
            history: History::new(alloc),
            machine: Machine {
                server: Server::new(alloc, 83_886_080)?.status(),
                replication: Replication {
                    required: Required::Nobody,
                    confirmed_positions: [None; 16],
                },
                watchdog: Watchdog::new(Mode::Automatic, true, Some(Ticks(50))),
                by_failsafe: false,
                hold: None,
            },
            out,
        })
    }

    /// One input, and the words of what it does.
    fn hears(
        &mut self,
        rt: &impl Abort,
        agent: &mut Agent,
        at: Ticks,
        heard: Heard,
        wanted: &[&str],
    )
        requires { IsSpannedInput heard }
    {
        assert!(rt; at <= Ticks(10_000));
        assert!(rt; agent.room() >= 40);
        assert!(rt; self.out.spare() >= 40);
        assert!(rt; self.machine.server.timeline < 1000);
        assert!(rt; self.machine.server.stop_delay == Ticks(0));
        assert!(rt; self.machine.server.start_delay == Ticks(0));
        let (history, machine, out) = (&self.history, &mut self.machine, &mut self.out);
        match heard {
            Heard::Operated { action } => agent.act(at, action, history, machine, out),
            heard => agent.step(at, heard, history, machine, out),
        }
        for word_wanted in wanted {
            let output = self.out.take().expect(rt, "an output");
            assert_eq!(rt; word(rt, self.alloc, output), *word_wanted);
        }
        assert!(rt; self.out.take().is_none());
    }
}

/// What the store of one member holds at a moment.
fn snapshot(alloc: Global, who: &Who, store: &Store, at: Ticks) -> Result<Snapshot, Fail> {
    let entries = store.entries(at)?;
    Ok(Snapshot::read(alloc, who.scope, &[(who.name, who.host)], entries)?)
}

/// What the store answers the first read, the create on that with what it grants, and the next read.
fn answers(alloc: Global, who: &Who) -> Result<(Snapshot, Granted, Snapshot, Snapshot), Fail> {
    let mut store = Store::new(alloc, ConfigValue::defaults(alloc)?)?;
    let free = snapshot(alloc, who, &store, Ticks(1))?;
    let create = Txn::Lease(LeaseTxn::Create {
        info: MemberInfo {
            host: who.host,
            tags: who.tags,
            state: Word::Running,
            writes: false,
            timeline: None,
            end: None,
        },
        ttl: Ticks(300),
        failsafe: None,
        sync: None,
    });
    let granted = store.apply(Ticks(1), who.me, &create)?;
    let leading = snapshot(alloc, who, &store, Ticks(1))?;
    let read = snapshot(alloc, who, &store, Ticks(101))?;
    Ok((free, granted, leading, read))
}

/// The answer to the read of this number.
fn read_answered(sequence: u64, snapshot: Snapshot) -> Heard
    ensures { IsSpannedInput result }
{
    Heard::ReadAnswered { sequence, snapshot }
}

/// The answer to the create, which is the second question.
fn create_granted(granted: Granted, snapshot: Snapshot) -> Heard
    ensures { IsSpannedInput result }
{
    Heard::Granted {
        sequence: 2,
        granted,
        snapshot,
    }
}

#[test]
fn one_member(rt: HostRuntime) -> Result<(), Fail> {
    let who = who(&rt);
    let (free, granted, leading, read) = answers(rt.alloc(), &who)?;
    let free = read_answered(1, free);
    let granted = create_granted(granted, leading);
    let read = read_answered(3, read);
    let mut place = Workplace::new(rt.alloc())?;
    let mut agent = Agent::start(who, Ticks(0), 1, &mut place.machine);
    place.hears(&rt, &mut agent, Ticks(1), Heard::Wake, &["read"]);
    place.hears(&rt, &mut agent, Ticks(1), free, &["create"]);
    let begun = ["armed until 251", "require", "begin"];
    place.hears(&rt, &mut agent, Ticks(1), granted, &begun);
    place.hears(&rt, &mut agent, Ticks(100), Heard::Wake, &[]);
    place.hears(&rt, &mut agent, Ticks(101), Heard::Wake, &["read"]);
    place.hears(&rt, &mut agent, Ticks(101), read, &["renewal"]);
    place.hears(&rt, &mut agent, Ticks(201), Heard::Wake, &["out of reach"]);
    place.hears(&rt, &mut agent, Ticks(202), Heard::Wake, &["disarmed"]);
    let is_follower = agent.view(Ticks(202), &place.machine).role == RoleWord::Follower;
    agent.wreck();
    assert!(rt; is_follower);
    Ok(())
}

/// An operator has the server of a new agent restarted.
#[test]
fn a_restart(rt: HostRuntime) -> Result<(), Fail> {
    let mut place = Workplace::new(rt.alloc())?;
    let mut agent = Agent::begin(who(&rt), Ticks(0), 1);
    let asked = OperatorRequest::Restart;
    let action = Heard::Operated {
        action: OperatorAction { request: 7, asked },
    };
    let restart = ["restart as a replica", "answer to 7"];
    place.hears(&rt, &mut agent, Ticks(1), action, &restart);
    agent.wreck();
    Ok(())
}

/// Another member, which leads without the key store, asks to go on so.
fn request() -> Heard
    ensures { IsSpannedInput result }
{
    Heard::FailsafeAsked {
        from: MemberId { number: 1 },
        incarnation: 4,
        sequence: 9,
        ttl: Ticks(300),
    }
}

/// A member that waits for nothing acknowledges, and holds.
#[test]
fn an_acknowledgement(rt: HostRuntime) -> Result<(), Fail> {
    let mut place = Workplace::new(rt.alloc())?;
    let mut agent = Agent::begin(who(&rt), Ticks(0), 1);
    let yes = ["hold until 305", "yes"];
    place.hears(&rt, &mut agent, Ticks(5), request(), &yes);
    agent.wreck();
    assert!(rt; place.machine.hold == Some(Ticks(305)));
    Ok(())
}

/// One whose create is on its way doesn't.
#[test]
fn a_refusal(rt: HostRuntime) -> Result<(), Fail> {
    let who = who(&rt);
    let (free, _, _, _) = answers(rt.alloc(), &who)?;
    let free = read_answered(1, free);
    let mut place = Workplace::new(rt.alloc())?;
    let mut agent = Agent::start(who, Ticks(0), 1, &mut place.machine);
    place.hears(&rt, &mut agent, Ticks(1), Heard::Wake, &["read"]);
    place.hears(&rt, &mut agent, Ticks(1), free, &["create"]);
    place.hears(&rt, &mut agent, Ticks(5), request(), &["no"]);
    agent.wreck();
    assert!(rt; place.machine.hold == None);
    Ok(())
}

/// Another member asks by the REST interface for a hold of 30 seconds.
fn hold_asked() -> Heard
    ensures { IsSpannedInput result }
{
    let asked = OperatorRequest::Hold {
        from: MemberId { number: 1 },
        ttl: 300,
    };
    Heard::Operated {
        action: OperatorAction { request: 7, asked },
    }
}

/// A member that follows holds.
#[test]
fn a_hold(rt: HostRuntime) -> Result<(), Fail> {
    let mut place = Workplace::new(rt.alloc())?;
    let mut agent = Agent::begin(who(&rt), Ticks(0), 1);
    let held = ["hold until 301", "accepted"];
    place.hears(&rt, &mut agent, Ticks(1), hold_asked(), &held);
    agent.wreck();
    assert!(rt; place.machine.hold == Some(Ticks(301)));
    Ok(())
}

/// One that waits for the leader key, or leads, doesn't.
#[test]
fn a_hold_refused(rt: HostRuntime) -> Result<(), Fail> {
    let who = who(&rt);
    let (free, granted, leading, _) = answers(rt.alloc(), &who)?;
    let free = read_answered(1, free);
    let granted = create_granted(granted, leading);
    let mut place = Workplace::new(rt.alloc())?;
    let mut agent = Agent::begin(who, Ticks(0), 1);
    place.hears(&rt, &mut agent, Ticks(1), Heard::Wake, &["read"]);
    place.hears(&rt, &mut agent, Ticks(1), free, &["create"]);
    place.hears(&rt, &mut agent, Ticks(1), hold_asked(), &["refused"]);
    let begun = ["armed until 251", "require", "begin"];
    place.hears(&rt, &mut agent, Ticks(1), granted, &begun);
    place.hears(&rt, &mut agent, Ticks(2), hold_asked(), &["refused"]);
    agent.wreck();
    assert!(rt; place.machine.hold == None);
    Ok(())
}
