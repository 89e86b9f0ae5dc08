//! Laws of what outputs of agents bring.
ghost use Rattle.std.specs.Prelude.{ℕ, ◌≡◌, ◌<◌, true, None, Some, List, All, slice_get};
ghost use Rattle.std.specs.Option.{ForSome};
ghost use Rattle.pat_base.specs.declared.member_id.MemberId.{MemberId};
ghost use Rattle.pat_base.specs.declared.peer_answer.PeerAnswer.{PeerAnswer};
ghost use Rattle.pg_model.specs.Facts.{ServerFacts, has_data};
ghost use Rattle.event_book.specs.declared.member.Member.{Member};
ghost use Rattle.event_book.specs.declared.message.Body.TheVariants.{Answer};
ghost use Rattle.agent_model.specs.declared.output.Output.{Output};
ghost use Rattle.agent_model.specs.declared.output.Target.TheVariants.{Member as ToMember};
ghost use Rattle.agent_commit_law.specs.Committing.{IsCovered, StandsAlone};
ghost use Rattle.agent_outputs.specs.Orders.{IsOfTable};
ghost use Rattle.cluster_model.specs.declared.heard_message.HeardMessage.{HeardMessage};
ghost use Rattle.cluster_model.specs.Cluster.{cluster_over};
ghost use Rattle.cluster_model.specs.Messages.{begin_events, output_events, receiver_of, replying_events};
ghost use Rattle.cluster_model.specs.Parts.{each};
ghost use Rattle.cluster_model.specs.State.{Cluster};
ghost use Rattle.commit_actions.specs.Actions.{IsNumbered};
ghost use Rattle.commit_showing.specs.Books.{AllLeaveCommits};
ghost use Rattle.commit_actions.specs.Past.{Past, Setup, VolatileState, past_over, state_of};
ghost use Rattle.commit_showing.specs.Showing.{AreOwn};
ghost use Rattle.commit_servers.specs.Acting.{Fits};
ghost use Rattle.commit_servers.specs.Matching.{IsLiveAhead, IsSameServers, live_in};
ghost use Rattle.commit_servers.specs.Sound.{AreServersSound};
ghost use Rattle.commit_showing.specs.Changes.{AllLeaveOrder};
ghost use Rattle.commit_parts.specs.Moving.{Moves, MovesFrom};
ghost use Rattle.commit_parts.specs.Reading.{volatile_of};
ghost use Rattle.commit_outputs.specs.Answering.{AnswersNone, LogEndsAt};

/// What outputs bring is allowed actions, one after another, wherever servers fit; and they fit behind them.
pub fn outputs_are_actions()
    // Those that stand alone, of which none answers a member that asks.
    ensures alone { (setup : Setup) (member : Member) (message : HeardMessage) (past : Past) (cluster : Cluster) (outs : List Output) → Fits past cluster.facts (volatile_of cluster)
        → All IsOfTable outs → All StandsAlone outs → All AnswersNone outs → Moves setup past cluster (each (output_events member message) cluster outs) }
    // The answer to a member that asked under this number of its incarnation. It tells where the log of who answers ends, if that has one.
    ensures answers { (setup : Setup) (member : Member) (past : Past) (cluster : Cluster) (to : MemberId) (incarnation sequence : ℕ) (answer : PeerAnswer) → Fits past cluster.facts (volatile_of cluster)
        → ((peer : Member) → slice_get cluster.facts.members to.number ≡ Some peer → IsNumbered ((state_of setup past (volatile_of cluster)).members peer.id.number) incarnation sequence)
        → ForSome answer.end (LogEndsAt (state_of setup past (volatile_of cluster)) member.id.number)
        → Moves setup past cluster (replying_events cluster member (receiver_of cluster.facts.members (ToMember to)) incarnation sequence (Answer answer)) }
    // The order by which a server with data begins: ahead of it the law has the server live, as it is behind it.
    ensures begins { (setup : Setup) (past : Past) (states : ℕ → VolatileState) (cluster : Cluster) (member : Member) (s : ServerFacts) → IsSameServers past cluster.facts → AreServersSound cluster.facts
        → IsLiveAhead states cluster.facts.servers member.id.number → ((n : ℕ) → (states n).agent ≡ (volatile_of cluster n).agent)
        → slice_get cluster.facts.servers member.id.number ≡ Some s → has_data s.state ≡ true
        → live_in (cluster_over cluster (begin_events cluster member)).facts.servers member.id.number ≡ true → MovesFrom setup past states cluster (begin_events cluster member) }
{}

/// What outputs bring that an input of the law covers is its agent's own, and leaves commits, the order of required lists and sync key, and
/// what is in flight, if nothing is in flight under a number that isn't given yet.
pub fn covered_outputs_leave_commits()
    ensures { (member : Member) (message : HeardMessage) (past : Past) (cluster : Cluster) (outs : List Output) → ((i : ℕ) → cluster.facts.sent < i → past.flight i ≡ None)
        → All IsCovered outs → All IsOfTable outs
        → AreOwn member.id.number (each (output_events member message) cluster outs) × AllLeaveCommits (each (output_events member message) cluster outs) × AllLeaveOrder (each (output_events member message) cluster outs)
        × ((i : ℕ) → (past_over past (each (output_events member message) cluster outs)).flight i ≡ past.flight i) }
{}
