//! Laws of the parts of a step.
ghost use Rattle.std.specs.Prelude.{ℕ, ◌≡◌, false, List, [], Some};
ghost use Rattle.pat_base.specs.declared.member_id.MemberId.{MemberId};
ghost use Rattle.script_model.specs.declared.line.Command.{Command};
ghost use Rattle.script_model.specs.Script.{HeadText, IsHead};
ghost use Rattle.event_book.specs.declared.event.Event.{Event};
ghost use Rattle.event_book.specs.declared.event.EventKind.TheVariants.{Message, Note};
ghost use Rattle.event_book.specs.declared.event.MessageEvent.TheVariants.{Lost};
ghost use Rattle.event_book.specs.declared.event.Note.{Note as SaidNote};
ghost use Rattle.event_book.specs.declared.link.LinkEnd.TheVariants.{Store};
ghost use Rattle.event_book.specs.declared.member.Member.{Member};
ghost use Rattle.event_book.specs.Flight.{InFlightFacts, in_flight};
ghost use Rattle.event_book.specs.Writers.{HasOneWriter};
ghost use Rattle.cluster_model.specs.Commands.{kinds_of};
ghost use Rattle.cluster_model.specs.Messages.{arrival_events_at};
ghost use Rattle.cluster_model.specs.Next.{acknowledge_events, command_kind, declared, promote_events, receive_events_at_most, agent_start_events};
ghost use Rattle.cluster_model.specs.Parts.{event_of, events_of, for_some};
ghost use Rattle.cluster_model.specs.Starting.{cluster_of};
ghost use Rattle.cluster_model.specs.State.{Cluster};
ghost use Rattle.cluster_model.specs.Ticking.{tick_events};
ghost use Rattle.lease_parts.specs.Bridged.{Bridged};
ghost use Rattle.lease_parts.specs.Kept.{one_writer};
ghost use Rattle.run_promise.specs.Promise.{IsComposable, Upholds, UpholdsAlways};

/// Before the first event, what the law of one writer carries holds of a cluster whose head has no pause. Where it holds, at most one server
/// accepts writes.
pub fn runs_begin_bridged()
    ensures first { (head : HeadText) → IsHead head → head.config.config.pause ≡ false → Bridged head [] (cluster_of head) }
    ensures now { (head : HeadText) (book : List Event) (cluster : Cluster) → Bridged head book cluster → HasOneWriter book }
    // So parts of a step that uphold it do so one after another.
    ensures composable { (head : HeadText) → IsComposable (one_writer head) }
{}

/// While the premises are met, these parts of a step uphold that at most one server accepts writes, at each moment inside them too: all but
/// inputs of agents.
pub fn parts_uphold_one_writer()
    // The clock, with resets, expiries, and the starts and stops of primaries that are complete.
    ensures ticks { (head : HeadText) → IsHead head → UpholdsAlways (one_writer head) tick_events }
    // What a member's server receives and confirms, and the commits that it acknowledges.
    ensures receipts { (head : HeadText) (most : ℕ) (member : Member) → UpholdsAlways (one_writer head) (λ (cluster : Cluster). receive_events_at_most cluster most member) }
    ensures acknowledgements { (head : HeadText) (member : Member) → UpholdsAlways (one_writer head) (λ (cluster : Cluster). acknowledge_events cluster member) }
    // A message that comes to the key store, which answers it; one that is lost; and what is told beside.
    ensures arrivals { (head : HeadText) (book : List Event) (cluster : Cluster) (number : ℕ) (message : InFlightFacts) → Bridged head book cluster
        → in_flight cluster.facts.flight number ≡ Some message → message.message.to ≡ Store → Upholds (one_writer head) book cluster (arrival_events_at cluster number message Store) }
    ensures losses { (head : HeadText) (number : ℕ) → UpholdsAlways (one_writer head) (λ (cluster : Cluster). event_of cluster (Message (Lost number))) }
    ensures notes { (head : HeadText) (note : SaidNote) → UpholdsAlways (one_writer head) (λ (cluster : Cluster). event_of cluster (Note note)) }
    // Agents that start, operators that promote, which breaks a premise, and the commands that bring one event at most.
    ensures restarts { (head : HeadText) (id : MemberId) → IsHead head → UpholdsAlways (one_writer head) (λ (cluster : Cluster). for_some (declared cluster id) (agent_start_events cluster)) }
    ensures promotions { (head : HeadText) (member : Member) → UpholdsAlways (one_writer head) (λ (cluster : Cluster). promote_events cluster member) }
    ensures commands { (head : HeadText) (command : Command) → IsHead head → UpholdsAlways (one_writer head) (λ (cluster : Cluster). events_of cluster (kinds_of (command_kind cluster command))) }
{}
