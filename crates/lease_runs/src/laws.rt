//! Laws of every run.
ghost use Rattle.std.specs.Prelude.{ℕ, ◌≡◌, ◌++◌, Bool, List, Option, slice_get};
ghost use Rattle.script_model.specs.Script.{HeadText, IsHead, names_of};
ghost use Rattle.cluster_model.specs.declared.step.Step.{Step};
ghost use Rattle.event_book.specs.declared.event.Event.{Event};
ghost use Rattle.event_book.specs.Kinds.{AllAre};
ghost use Rattle.event_book.specs.Writers.{HasOneWriter};
ghost use Rattle.cluster_model.specs.Cluster.{cluster_over};
ghost use Rattle.cluster_model.specs.Next.{run_events};
ghost use Rattle.cluster_model.specs.Starting.{cluster_of};
ghost use Rattle.event_book.specs.Premises.{IsTimely, IsHandsOff, first_moments};
ghost use Rattle.lease_model.specs.Modes.{IsDeclaredMode};
ghost use Rattle.lease_model.specs.States.{Acts};
ghost use Rattle.lease_runs.specs.Fencing.{AreFenced};
ghost use Rattle.summary_model.specs.Listed.{NamesServer};
ghost use Rattle.summary_model.specs.Sights.{first_since};
ghost use Rattle.summary_model.specs.Telling.{AreMeasured};
ghost use Rattle.lease_parts.specs.Declaring.{declared_of, works_of};
ghost use Rattle.lease_parts.specs.Guarding.{IsGuarded};
ghost use Rattle.lease_parts.specs.Kept.{MeetsPremises};
ghost use Rattle.lease_parts.specs.Volatile.{machine_in};

/// At most one server accepts writes, in every run of every script, at each moment up to which feeds keep the margin, each watchdog is on
/// and works, and nobody pauses or promotes by hand: also inside a step, whatever it asks for.
pub fn runs_have_one_writer()
    ensures declared { (head : HeadText) (steps : List Step) (front rest : List Event)
        → IsHead head → front ++ rest ≡ run_events (cluster_of head) steps
        → IsTimely (declared_of head).margin front → IsHandsOff head.config (works_of head) front → HasOneWriter front }
    // At most one accepts writes also where the premises are read with other functions, which answer alike at each member.
    ensures alike { (head : HeadText) (steps : List Step) (front rest : List Event) (margin : ℕ → Option ℕ) (works : ℕ → Bool)
        → IsHead head → front ++ rest ≡ run_events (cluster_of head) steps
        → ((m : ℕ) → margin m ≡ (declared_of head).margin m) → ((m : ℕ) → works m ≡ works_of head m)
        → IsTimely margin front → IsHandsOff head.config works front → HasOneWriter front }
{}

/// Who acts is guarded, behind each step of a run that meets the premises: the watchdog of a member whose server accepts writes, will when
/// its start is complete, or is about to, resets its machine at a moment to come; and until then the leader key is its own. Where it stays
/// primary without the key store, and so acknowledgements set that moment, failsafe mode is on, and each other member that the failsafe
/// key lists holds until then, so it doesn't take the leader key (Patroni documentation, "DCS Failsafe Mode").
/// That is so whatever `ttl` and the other times are changed to while the cluster runs, and also where the safety margin is half of the lease:
/// a deadline is set for the span that was asked for.
pub fn runs_guard_who_acts()
    ensures { (head : HeadText) → IsHead head → (steps : List Step) → MeetsPremises head (run_events (cluster_of head) steps)
        → (m : ℕ) → Acts (machine_in (cluster_over (cluster_of head) (run_events (cluster_of head) steps)) m)
        → IsGuarded head.config.config.failsafe_mode (cluster_over (cluster_of head) (run_events (cluster_of head) steps)) m }
{}

/// Failsafe mode is the declared one, behind each step of a run that meets the premises: in the configuration that the key store holds, and in
/// each snapshot in flight.
pub fn runs_keep_failsafe_mode()
    ensures { (head : HeadText) → IsHead head → (steps : List Step) → MeetsPremises head (run_events (cluster_of head) steps)
        → IsDeclaredMode head.config.config.failsafe_mode (cluster_over (cluster_of head) (run_events (cluster_of head) steps)).facts }
{}

/// Each run tells before each feed of a watchdog from when that is measured: from the moment at which the answer was sent that tells the
/// grant, or the first of the acknowledgements. It needs no premise.
pub fn runs_tell_measures()
    ensures { (head : HeadText) (steps : List Step) → AreMeasured first_moments first_since (run_events (cluster_of head) steps) }
{}

/// Fencing, in every run: whoever's write under a lease is granted finds the leader key there at that moment, by the revision of that
/// lease. So who writes under a revision of the leader key that is no longer there is refused. It needs no premise.
pub fn runs_are_fenced()
    ensures { (head : HeadText) (steps : List Step) → AreFenced (cluster_of head) (run_events (cluster_of head) steps) }
{}

/// In every run each server that begins to accept writes is told by the name that the head declares for its number. It needs no premise.
pub fn runs_name_their_servers()
    ensures { (head : HeadText) (steps : List Step) → IsHead head → AllAre (NamesServer (slice_get (names_of head))) (run_events (cluster_of head) steps) }
{}
