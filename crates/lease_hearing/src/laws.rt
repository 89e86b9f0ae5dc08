//! Laws of what agents hear, and of failsafe mode in it.
ghost use Rattle.std.specs.Prelude.{ℕ, Bool, ◌≡◌, List, Some};
ghost use Rattle.pat_base.specs.declared.ticks.Ticks.{Ticks};
ghost use Rattle.store_keys.specs.declared.action.OperatorRequest.{OperatorRequest};
ghost use Rattle.wal_model.specs.declared.entry.HistoryPoint.{HistoryPoint};
ghost use Rattle.rest_message.specs.Requests.{RequestText};
ghost use Rattle.rest_answer.specs.Answers.{Acts};
ghost use Rattle.script_model.specs.Script.{HeadText};
ghost use Rattle.event_book.specs.declared.link.LinkEnd.TheVariants as ends;
ghost use Rattle.event_book.specs.declared.member.Member.{Member};
ghost use Rattle.event_book.specs.Flight.{InFlightFacts, in_flight};
ghost use Rattle.lease_model.specs.Past.{Past};
ghost use Rattle.agent_model.specs.declared.heard.Heard.{Heard};
ghost use Rattle.agent_model.specs.Agents.{Outcome};
ghost use Rattle.agent_model.specs.Table.{step};
ghost use Rattle.agent_sending.specs.Modes.{HearsMode, IsModeRequested};
ghost use Rattle.cluster_model.specs.Hearing.{heard_from};
ghost use Rattle.cluster_model.specs.Messages.{heard_message};
ghost use Rattle.cluster_model.specs.Requests.{answer_at};
ghost use Rattle.cluster_model.specs.State.{Cluster};
ghost use Rattle.lease_parts.specs.Bridged.{IsMatched, SeesMode};
ghost use Rattle.lease_parts.specs.Declaring.{declared_of};
ghost use Rattle.lease_hearing.specs.Hearing.{IsHeardWell};

/// What an agent hears by a message in flight to it is told well: a snapshot has failsafe mode as the head declares it, and a failsafe
/// request is that message to the law too.
pub fn messages_are_heard_well()
    ensures { (head : HeadText) (past : Past) (cluster : Cluster) → IsMatched head past cluster → (member : Member) (number : ℕ) (carried : InFlightFacts) → in_flight cluster.facts.flight number ≡ Some carried → carried.message.to ≡ ends.Member member → (heard : Heard) → heard_from cluster carried ≡ Some heard → IsHeardWell (declared_of head).failsafe cluster.facts.members past.flight member heard (Some number) (heard_message number carried) }
{}

/// No request changes failsafe mode: where the newest snapshot that an agent has tells the mode so, a configuration that the agent lets an
/// operator ask for has it so.
pub fn requests_keep_the_mode()
    ensures { (mode : Bool) (now : Ticks) (o : Outcome) (request : RequestText) (asked : OperatorRequest) → SeesMode mode o.knows → answer_at now o request ≡ Acts asked → IsModeRequested mode asked }
{}

/// Each input leaves the newest snapshot that an agent has with failsafe mode so, where what is heard has the mode so.
pub fn agents_see_the_mode()
    ensures { (mode : Bool) (now : Ticks) (points : List HistoryPoint) (heard : Heard) (o : Outcome) → HearsMode mode heard → SeesMode mode o.knows → SeesMode mode (step now points heard o).knows }
{}
