//! Who waits for one agent, and what ends that.
ghost use Rattle.std.specs.Prelude.{◌≡◌};
ghost use Rattle.live_owing.specs.Owed.{begun, is_client, refusal, waited_on};

/// The most ticks of 100 ms for which a client waits.
const MOST_WAITING: u64 = 600;

/// Who asked an agent.
#[derive(Clone, Copy, Debug, PartialEq, Eq)]
pub enum Owner {
    /// The client of this number, at the port of the member.
    Client(u64),
    /// A line that the client of this number sent to the control port.
    Line(u64),
    /// A line of the script.
    Script,
}

/// What is owed at a member.
#[derive(Clone, Copy, Debug, PartialEq, Eq)]
pub struct Debt {
    /// To whom the next reply of its agent is due.
    pub owner: Owner,
    /// For how many ticks of 100 ms a client has waited; 0 for a line, which may wait without end.
    pub waited: u64,
}

/// What comes to who asked an agent.
#[derive(Clone, Copy, Debug, PartialEq, Eq)]
pub enum Outcome {
    /// The reply of the agent is to this one.
    Reply(Owner),
    /// The client of this number is answered `No result in time`.
    NoResult(u64),
}

/// What is owed to who has just asked.
pub(crate) fn begun(owner: Owner) -> Debt
    ensures { result ≡ begun owner }
{
    Debt { owner, waited: 0 }
}

/// What is owed after one more tick, if anything is.
pub(crate) fn waited_on(debt: Debt) -> Option<Debt>
    ensures { result ≡ waited_on debt.owner debt.waited }
{
    match debt.owner {
        Owner::Client(_) if debt.waited >= MOST_WAITING - 1 => None,
        Owner::Client(client) => Some(Debt {
            owner: Owner::Client(client),
            waited: debt.waited + 1,
        }),
        Owner::Line(_) | Owner::Script => Some(debt),
    }
}

/// What comes to who waits in vain: nothing to a line.
pub(crate) fn refusal(owed: Option<Debt>) -> Option<Outcome>
    ensures { result ≡ refusal owed }
{
    match owed?.owner {
        Owner::Client(client) => Some(Outcome::NoResult(client)),
        Owner::Line(_) | Owner::Script => None,
    }
}

/// Whether this client waits.
pub(crate) fn is_client(client: u64, owner: Owner) -> bool
    ensures { result ≡ is_client client owner }
{
    match owner {
        Owner::Client(number) => number == client,
        Owner::Line(_) | Owner::Script => false,
    }
}
