//! What the law of the timed lease speaks of: the state of a cluster as far as the leader key needs it, its atomic actions, which of them are
//! allowed, and what is carried from one to the next; and what a book determines of that state.
#![tactic(auto)]
