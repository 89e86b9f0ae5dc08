//! What a connection is replied to. Each is a function without a body whose contract is what is proved.
ghost use Rattle.std.specs.Prelude.{◌≡◌, true, false, Some, Ok, Err, slice_get};
ghost use Rattle.pat_base.specs.declared.member_id.MemberId.{MemberId};
ghost use Rattle.store_keys.specs.declared.action.OperatorRequest.{OperatorRequest};
ghost use Rattle.event_book.specs.declared.agent_process.AgentProcess.{AgentProcess};
ghost use Rattle.event_book.specs.declared.member.Member.{Member};
ghost use Rattle.agent_model.specs.Agents.{Outcome};
ghost use Rattle.cluster_model.specs.Inputs.{may_act, moment_of, standing_of};
ghost use Rattle.cluster_model.specs.Next.{declared, run_events};
ghost use Rattle.cluster_model.specs.Requests.{action_of, answer_at};
ghost use Rattle.cluster_model.specs.State.{Cluster};
ghost use Rattle.rest_answer.specs.Answers.{Acts, Replies};
ghost use Rattle.rest_answer.specs.declared.refusal.Refusal.{Refusal};
ghost use Rattle.rest_answer.specs.declared.refusal.Refusal.TheVariants.{NoAgent};
ghost use Rattle.rest_answer.specs.Refusals.{refusal_reply};
ghost use Rattle.rest_message.specs.declared.request.Request.{Request};
ghost use Rattle.rest_message.specs.Replies.{ReplyText};
ghost use Rattle.rest_message.specs.Requests.{request_text};
ghost use Rattle.serve_model.specs.Connections.{Connection, first_visit, read_steps, reply_to};
ghost use Rattle.serve_law.specs.Owing.{IsOwed};

/// Of a connection to a declared member: bytes that are no request are replied to by what they are; a request to an agent that doesn't run or
/// is suspended by 503 `No agent`; and where what the agent shows gives a reply at once, that is the reply. What else it asks is waited for.
pub fn replies_are_those_of_the_table()
    ensures refused { (cluster : Cluster) (id : MemberId) (member : Member) (connection : Connection) (refusal : Refusal) → declared cluster id ≡ Some member → member.id.number ≡ id.number
        → connection.asks ≡ Err refusal → reply_to cluster id connection ≡ refusal_reply refusal }
    ensures silent { (cluster : Cluster) (id : MemberId) (member : Member) (connection : Connection) (request : Request) (process : AgentProcess) → declared cluster id ≡ Some member → member.id.number ≡ id.number
        → connection.asks ≡ Ok request → slice_get cluster.facts.processes member.id.number ≡ Some process → may_act process ≡ false → reply_to cluster id connection ≡ refusal_reply NoAgent }
    ensures at_once { (cluster : Cluster) (id : MemberId) (member : Member) (connection : Connection) (request : Request) (process : AgentProcess) (stands : Outcome) (reply : ReplyText) → declared cluster id ≡ Some member → member.id.number ≡ id.number
        → connection.asks ≡ Ok request → slice_get cluster.facts.processes member.id.number ≡ Some process → may_act process ≡ true → standing_of cluster member ≡ Some stands
        → answer_at (moment_of cluster) stands (request_text request) ≡ Replies reply → reply_to cluster id connection ≡ reply }
{}

/// What a connection asks that the agent is to do, as a switchover, is replied to by what the agent tells that very request, whatever else
/// waits or comes meanwhile; or by 503 `No result in time`, where nothing was replied for 600 ticks.
pub fn a_waiting_reply_is_owed()
    ensures { (cluster : Cluster) (id : MemberId) (member : Member) (connection : Connection) (request : Request) (process : AgentProcess) (stands : Outcome) (asked : OperatorRequest) → declared cluster id ≡ Some member → member.id.number ≡ id.number
        → connection.asks ≡ Ok request → slice_get cluster.facts.processes member.id.number ≡ Some process → may_act process ≡ true → standing_of cluster member ≡ Some stands
        → answer_at (moment_of cluster) stands (request_text request) ≡ Acts asked → IsOwed (action_of stands asked).request id cluster (first_visit connection.asks) (run_events cluster (read_steps cluster id connection)) (reply_to cluster id connection) }
{}
