//! Laws of who asks for the leader key.
ghost use Rattle.agent_model.specs.Agents.{EndsAlone, RoleFacts, outcome_from};
ghost use Rattle.agent_model.specs.Table.{step};
ghost use Rattle.agent_model.specs.declared.heard.Heard.{Heard};
ghost use Rattle.agent_model.specs.declared.knowledge.Knowledge.{Knowledge};
ghost use Rattle.agent_model.specs.declared.machine.Machine.{Machine};
ghost use Rattle.agent_roles.specs.Powers.{lease_of};
ghost use Rattle.cluster_model.specs.Cluster.{cluster_over};
ghost use Rattle.cluster_model.specs.Next.{run_events};
ghost use Rattle.cluster_model.specs.Starting.{cluster_of};
ghost use Rattle.cluster_model.specs.declared.step.Step.{Step};
ghost use Rattle.lease_owners.specs.Asking.{AsksOwn, Gives};
ghost use Rattle.lease_owners.specs.Kept.{owners};
ghost use Rattle.lease_owners.specs.Owning.{OwnTheirLeases};
ghost use Rattle.pat_base.specs.declared.ticks.Ticks.{Ticks};
ghost use Rattle.run_promise.specs.Members.{IsDeclared};
ghost use Rattle.run_promise.specs.Parts.{PartsUphold};
ghost use Rattle.script_model.specs.Script.{HeadText, IsHead};
ghost use Rattle.std.specs.Prelude.{All, List, Some, [], ℕ, ◌≡◌, ◌⊎◌};
ghost use Rattle.wal_model.specs.declared.entry.HistoryPoint.{HistoryPoint};

/// An agent asks the key store for the renewal or the release of the leader key only by a revision that it has: its newest snapshot shows it as its own, it was that of its
/// lease, or the grant gives it that it waits for. And it has no lease but the one it had, or that such a grant gives.
pub fn agents_ask_for_their_own_leases()
    ensures asks { (now : Ticks) (points : List HistoryPoint) (heard : Heard) (role : RoleFacts) (knows : Knowledge) (machine : Machine) → EndsAlone role knows.waited → All (AsksOwn heard (outcome_from role knows machine []) (step now points heard (outcome_from role knows machine []))) (step now points heard (outcome_from role knows machine [])).outputs }
    ensures holds { (now : Ticks) (points : List HistoryPoint) (heard : Heard) (role : RoleFacts) (knows : Knowledge) (machine : Machine) (revision : ℕ) → lease_of (step now points heard (outcome_from role knows machine [])).role ≡ Some revision → (lease_of role ≡ Some revision) ⊎ Gives heard (outcome_from role knows machine []) revision }
{}

/// Whoever asks for the leader key as it is now is its holder, behind each step of every run, and without premises: of all that is in flight and that agents hold, the revision by which
/// one asks for the renewal or the release of the leader key was given, and where the key has it, who asks is its holder; and so are whom a grant gives a lease, whom a snapshot
/// shows as the holder, and who has a lease. It is so between any two parts of a step.
pub fn runs_ask_for_their_own_leases()
    ensures behind { (head : HeadText) (steps : List Step) → IsHead head → OwnTheirLeases (cluster_over (cluster_of head) (run_events (cluster_of head) steps)) }
    ensures parts { (head : HeadText) → IsHead head → PartsUphold (IsDeclared head) (owners head) }
{}
