//! Laws of whom a load balancer finds. Each is a function without a body whose contract is what is proved.
ghost use Rattle.std.specs.Prelude.{◌≡◌, ◌++◌, List};
ghost use Rattle.script_model.specs.Script.{HeadText, IsHead};
ghost use Rattle.event_book.specs.declared.event.Event.{Event};
ghost use Rattle.event_book.specs.declared.member.Member.{Member};
ghost use Rattle.event_book.specs.Writers.{AcceptsWrites};
ghost use Rattle.cluster_model.specs.declared.step.Step.{Step};
ghost use Rattle.cluster_model.specs.Cluster.{cluster_over};
ghost use Rattle.cluster_model.specs.Next.{run_events};
ghost use Rattle.cluster_model.specs.Starting.{cluster_of};
ghost use Rattle.lease_parts.specs.Kept.{WhereMet};
ghost use Rattle.rest_law.specs.Finding.{FindsOne, IsFound};

/// Who answers 200 on a path for primaries accepts writes, at each moment of whatever happened. It needs no premise.
pub fn whoever_is_found_accepts_writes()
    ensures { (head : HeadText) (book : List Event) (member : Member) → IsFound (cluster_over (cluster_of head) book) member → AcceptsWrites book member.id.number }
{}

/// At each moment of a run up to which the premises of one writer are met, also inside a step, at most one member answers 200 on `/`,
/// `/primary` and `/read-write` (Patroni documentation, "Patroni REST API", "Health check endpoints"), whoever is asked on whichever of
/// them: a balancer sends nobody's writes to two servers.
pub fn one_member_is_found_as_primary()
    ensures { (head : HeadText) (steps : List Step) → IsHead head → WhereMet head (run_events (cluster_of head) steps) (FindsOne head) }
{}
