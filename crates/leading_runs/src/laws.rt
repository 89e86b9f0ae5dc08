//! Laws of steady leaders.
ghost use Rattle.std.specs.Prelude.{List};
ghost use Rattle.script_model.specs.Script.{HeadText, IsHead};
ghost use Rattle.event_book.specs.declared.member.Member.{Member};
ghost use Rattle.cluster_model.specs.declared.step.Step.{Step};
ghost use Rattle.leading_parts.specs.Alone.{LeaveAlone};
ghost use Rattle.leading_runs.specs.Lasting.{LeadsOnOver, cluster_behind, events_behind};
ghost use Rattle.leading_runs.specs.Schedule.{KeepSchedule};
ghost use Rattle.leading_runs.specs.Steady.{IsSteady};

/// A healthy primary is never demoted for another's fault. Where a member is a steady leader behind some steps, then, whatever steps follow but bare ticks, and whatever
/// becomes of the other members, it is one behind them, and its server accepts writes at each moment between, as long as its own machine and its way to the key store are
/// left alone, and no operator asks for a change.
pub fn runs_leave_a_steady_leader()
    ensures { (head : HeadText) (before later : List Step) (member : Member) → IsHead head → KeepSchedule later
        → IsSteady member (cluster_behind head before) → LeaveAlone member.id.number (cluster_behind head before) (events_behind head before later)
        → LeadsOnOver head before later member }
{}
