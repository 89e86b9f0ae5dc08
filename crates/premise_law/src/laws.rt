//! Laws of every run.
ghost use Rattle.std.specs.Prelude.{List};
ghost use Rattle.script_model.specs.Script.{HeadText, IsHead};
ghost use Rattle.cluster_model.specs.declared.step.Step.{Step};
ghost use Rattle.cluster_model.specs.Next.{run_events};
ghost use Rattle.cluster_model.specs.Starting.{cluster_of};
ghost use Rattle.event_book.specs.declared.event.Event.{Event};
ghost use Rattle.premise_law.specs.Feeding.{FeedOnTheirGrants};
ghost use Rattle.premise_law.specs.Passing.{PassOutside};
ghost use Rattle.premise_law.specs.TakingOver.{NotesTakeOvers};

/// In every run a watchdog is armed, and by a grant fed, only in the input by which its member hears of that very grant: the answer that is
/// named tells that this member's own create or renewal of the leader key was granted. So a feed is late only by that member's own delay.
pub fn runs_feed_on_their_grants()
    ensures { (head : HeadText) → IsHead head → (steps : List Step) → FeedOnTheirGrants (run_events (cluster_of head) steps) }
{}

/// In every run whoever leads outside the sync key has read that this doesn't name it: the key that its last turn read, as its agent stands then,
/// has it neither as the leader nor as a standby; and an answer told it that key which came since its agent started, and was sent while the key
/// store had that.
pub fn runs_pass_outside_the_sync_key()
    ensures { (head : HeadText) → IsHead head → (steps : List Step) → PassOutside head (run_events (cluster_of head) steps) }
{}

/// Where a member takes over its running server, it notes where the log of that ends then. That is so in every book.
pub fn runs_note_where_they_take_over()
    ensures { (head : HeadText) (book : List Event) → NotesTakeOvers head book }
{}
