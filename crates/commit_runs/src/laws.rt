//! Laws of every run.
ghost use Rattle.std.specs.Prelude.{List, []};
ghost use Rattle.cluster_model.specs.declared.step.Step.{Step};
ghost use Rattle.script_model.specs.Script.{HeadText, IsHead};
ghost use Rattle.cluster_model.specs.Next.{run_events};
ghost use Rattle.cluster_model.specs.Starting.{cluster_of};
ghost use Rattle.summary_model.specs.Telling.{TellLosses};
ghost use Rattle.commit_runs.specs.Runs.{KeepsCommitsIn, KeepsOrderIn, first_logs};

/// Every run of a cluster whose head has synchronous mode on keeps commits: each server that accepts writes has each acknowledged commit in
/// its log, at each moment up to which the premises of one writer are met and the mode stays on, also inside a step.
pub fn runs_keep_commits()
    ensures { (head : HeadText) (steps : List Step) → IsHead head → KeepsCommitsIn head (run_events (cluster_of head) steps) }
{}

/// Such a run keeps the order of required lists and sync key too, at each of those moments. The sync key names who accepts writes as the leader, whose
/// commits wait for each standby there. A claim was granted only where there was no sync key, or one that named its sender. Each standby that a
/// member asked to add was one that its commits waited for, and had confirmed the end of the log that the member noted when it last
/// added to its required list or took over its server (Patroni, "Replication modes").
pub fn runs_keep_sync_order()
    ensures { (head : HeadText) (steps : List Step) → IsHead head → KeepsOrderIn head (run_events (cluster_of head) steps) }
{}

/// Each run tells the first loss of an acknowledged commit behind the event that brings it, and tells none before, in every mode. It needs
/// no premise.
pub fn runs_tell_losses()
    ensures { (head : HeadText) (steps : List Step) → IsHead head → TellLosses (first_logs head) [] (run_events (cluster_of head) steps) }
{}
