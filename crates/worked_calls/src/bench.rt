//! What rows are asked of: a key store, and what an agent shows over a read of it.
use crate::stop::{Stop, known};
use crate::words::{name, number, position_or_none, ticks, ticks_or_none};
use cluster_config::ConfigText;
use cluster_view::{AgentView, RoleWord, Snapshot};
use lease_store::Store;
use pat_base::{Host, Lsn, MemberId, Name, State, Tags, Ticks};
use std::alloc::{AllocError, Global};
use store_keys::ConfigValue;

/// The tags of a member that sets none.
pub const TAGS: Tags = Tags {
    nofailover: false,
    nosync: false,
    noloadbalance: false,
    failover_priority: 1,
};

#[derive(Drop)]
pub struct Bench {
    scope: Name,
    members: Vec<(Name, Host)>,
    pub store: Store,
    /// The moment of what is asked next.
    pub now: Ticks,
    shown: AgentView<'static>,
    /// Whether the agent has read the key store.
    has_read: bool,
}

impl Bench {
    /// A cluster `demo` of a and b with the configuration `{}` at tick 0; b shows a replica that follows.
    pub fn new(alloc: Global) -> Result<Bench, Stop> {
        let mut bench = Bench {
            scope: name("demo")?,
            members: Vec::new(alloc),
            store: store_of(alloc, "{}")?,
            now: Ticks(0),
            shown: first_shown(name("demo")?, name("b")?),
            has_read: true,
        };
        bench.set_cluster(alloc, "demo a b")?;
        Ok(bench)
    }

    /// Sets up what a line says: `cluster SCOPE MEMBER[=HOST] ..`, `config JSON`, which begins with a store that has no other key, `at TICK`, and
    /// `shows MEMBER OPTION=VALUE ..`.
    pub fn set_up(&mut self, alloc: Global, word: &str, rest: &str) -> Result<(), Stop> {
        match word {
            "cluster" => self.set_cluster(alloc, rest),
            "config" => {
                self.store = store_of(alloc, rest)?;
                Ok(())
            }
            "at" => {
                self.now = ticks(rest)?;
                Ok(())
            }
            "shows" => self.set_shown(rest),
            _ => Err(Stop::Unknown),
        }
    }

    fn set_cluster(&mut self, alloc: Global, rest: &str) -> Result<(), Stop> {
        let mut parts = rest.split(' ');
        self.scope = name(known(parts.next())?)?;
        self.members.clear();
        for part in parts {
            self.members.push(named_host(part)?)?;
        }
        self.store = store_of(alloc, "{}")?;
        Ok(())
    }

    fn set_shown(&mut self, rest: &str) -> Result<(), Stop> {
        let mut words = rest.split(' ');
        let shows = name(known(words.next())?)?;
        let mut shown = first_shown(self.scope, shows);
        shown.me = known(self.place_of(shows))?;
        self.has_read = true;
        for word in words {
            match known(word.split_once('='))? {
                ("read", "never") => self.has_read = false,
                (option, value) => set_option(&mut shown, option, value)?,
            }
        }
        self.shown = shown;
        Ok(())
    }

    fn place_of(&self, wanted: Name) -> Option<MemberId> {
        for (place, member) in self.members.iter().enumerate() {
            if member.0 == wanted {
                return MemberId::new(u8::try_from(place).ok()?);
            }
        }
        None
    }

    /// What a read of the key store gives now.
    pub fn snapshot(&self, alloc: Global) -> Result<Snapshot, AllocError> {
        let entries = self.store.entries(self.now)?;
        Snapshot::read(alloc, self.scope, &self.members, entries)
    }

    /// What the agent shows now, by its last read.
    pub fn view<'a>(&self, seen: &'a Snapshot) -> AgentView<'a> {
        let mut view: AgentView<'a> = self.shown;
        view.moment = self.now;
        view.seen = if self.has_read { Some(seen) } else { None };
        view
    }

    pub fn scope(&self) -> Name {
        self.scope
    }

    pub fn members(&self) -> &[(Name, Host)] {
        &self.members
    }
}

/// The store of this configuration, which has no other key.
fn store_of(alloc: Global, config: &str) -> Result<Store, Stop> {
    let config = known(ConfigValue::read(alloc, config.as_bytes()).ok())?;
    Ok(Store::new(alloc, config)?)
}

/// A member and its host, as `a=10.0.0.1`, or as `a` where it is reached on this machine.
fn named_host(part: &str) -> Result<(Name, Host), Stop> {
    match part.split_once('=') {
        None => Ok((name(part)?, Host::local())),
        Some((member, host)) => Ok((name(member)?, known(Host::read(host.as_bytes()))?)),
    }
}

/// What an agent shows where no option says otherwise: a replica on timeline 2 that ends at 0/5000000, and that follows.
fn first_shown(scope: Name, name: Name) -> AgentView<'static> {
    AgentView {
        moment: Ticks(0),
        scope,
        me: MemberId { number: 1 },
        name,
        tags: TAGS,
        state: State::Replica,
        timeline: 2,
        end: Some(Lsn {
            position: 83_886_080,
        }),
        receives: false,
        diverged: false,
        was_primary: false,
        role: RoleWord::Follower,
        seen: None,
        last_read: None,
        last_turn: None,
        hold: None,
        waits: false,
    }
}

fn set_option(shown: &mut AgentView<'static>, option: &str, value: &str) -> Result<(), Stop> {
    match option {
        "state" => shown.state = state(value)?,
        "role" => shown.role = role(value)?,
        "timeline" => shown.timeline = number(value)?,
        "end" => shown.end = position_or_none(value)?,
        "receives" => shown.receives = value == "yes",
        "read" => shown.last_read = ticks_or_none(value)?,
        "turn" => shown.last_turn = ticks_or_none(value)?,
        "hold" => shown.hold = ticks_or_none(value)?,
        _ => set_tag(&mut shown.tags, option, value)?,
    }
    Ok(())
}

/// Sets a tag by its option.
pub fn set_tag(tags: &mut Tags, option: &str, value: &str) -> Result<(), Stop> {
    match option {
        "nofailover" => tags.nofailover = value == "yes",
        "noloadbalance" => tags.noloadbalance = value == "yes",
        "priority" => {
            let priority: i64 = known(value.parse().ok())?;
            if priority < -1000 || priority > 1000 {
                return Err(Stop::Unknown);
            }
            tags.failover_priority = priority;
        }
        _ => return Err(Stop::Unknown),
    }
    Ok(())
}

/// A moment that is to come.
const LATER: Ticks = Ticks(2000);

fn state(word: &str) -> Result<State, Stop> {
    let (as_primary, was_primary, at) = (true, true, LATER);
    match word {
        "creating" => Ok(State::Creating),
        "stopped" => Ok(State::Stopped),
        "starting" => Ok(State::Starting {
            as_primary: false,
            at,
        }),
        "starting-as-primary" => Ok(State::Starting { as_primary, at }),
        "replica" => Ok(State::Replica),
        "primary" => Ok(State::Primary),
        "stopping" => Ok(State::Stopping {
            was_primary: false,
            at,
        }),
        "stopping-as-primary" => Ok(State::Stopping { was_primary, at }),
        "crashed" => Ok(State::Crashed),
        _ => Err(Stop::Unknown),
    }
}

pub fn role(word: &str) -> Result<RoleWord, Stop> {
    match word {
        "follower" => Ok(RoleWord::Follower),
        "holder" => Ok(RoleWord::Holder),
        "ready" => Ok(RoleWord::Ready),
        "leader" => Ok(RoleWord::Leader),
        "ending" => Ok(RoleWord::Ending),
        "unleased" => Ok(RoleWord::Unleased),
        _ => Err(Stop::Unknown),
    }
}
