//! Laws of answers. Each is a function without a body whose contract is what is proved. A view stands beside the newest snapshot that its
//! agent accepted.
ghost use Rattle.std.specs.Prelude.{ℕ, ◌≡◌, List, Option, None, true, false};
ghost use Rattle.cluster_view.specs.declared.view.AgentView.{AgentView};
ghost use Rattle.cluster_view.specs.Snapshots.{SnapshotFacts};
ghost use Rattle.operator_answers.specs.Statuses.{not_found};
ghost use Rattle.rest_health.specs.declared.endpoint.Endpoint.{Endpoint};
ghost use Rattle.rest_paths.specs.declared.asking.Ask.TheVariants.{NotAllowed, NotFound};
ghost use Rattle.rest_paths.specs.declared.resource.Page.{Page};
ghost use Rattle.rest_paths.specs.Asking.{ask_of};
ghost use Rattle.rest_paths.specs.Laws.{IsSafe};
ghost use Rattle.rest_message.specs.Requests.{RequestText};
ghost use Rattle.rest_message.specs.Targets.{path_of};
ghost use Rattle.rest_answer.specs.Answers.{IsReplied, Replies, answer_to, health_reply};
ghost use Rattle.rest_answer.specs.Pages.{no_store_answer, page_reply, tells_of_the_cluster};
ghost use Rattle.rest_answer.specs.Replies.{status_alone};
ghost use Rattle.rest_answer.specs.Statuses.{method_not_allowed};

/// Whatever is asked by a safe method is answered at once: the agent is to do nothing for it (RFC 9110, section 9.2.1).
pub fn safe_methods_are_answered_at_once()
    ensures { (view : AgentView) (seen : Option SnapshotFacts) (asked : RequestText) → IsSafe asked.verb → IsReplied (answer_to view seen asked) }
{}

/// Who asks for nothing gets a status with no content: 404 for an unknown path, 405 for a known one with another method.
pub fn requests_for_nothing_have_no_content()
    ensures unknown { (view : AgentView) (seen : Option SnapshotFacts) (asked : RequestText)
        → ask_of asked.verb (path_of asked.target) ≡ NotFound → answer_to view seen asked ≡ Replies (status_alone not_found) }
    ensures other_method { (view : AgentView) (seen : Option SnapshotFacts) (asked : RequestText)
        → ask_of asked.verb (path_of asked.target) ≡ NotAllowed → answer_to view seen asked ≡ Replies (status_alone method_not_allowed) }
{}

/// With and without a body a health check has one status.
pub fn health_checks_without_a_body_tell_the_same()
    ensures { (view : AgentView) (seen : Option SnapshotFacts) (endpoint : Endpoint) (lag : Option (List ℕ))
        → (health_reply view seen endpoint lag true).status ≡ (health_reply view seen endpoint lag false).status }
{}

/// Before the first snapshot no page tells of the cluster: all but `/patroni` answer that there is no answer of the key store yet.
pub fn nothing_is_told_before_the_first_snapshot()
    ensures { (view : AgentView) (page : Page) → tells_of_the_cluster page ≡ true → page_reply page view None ≡ no_store_answer }
{}
