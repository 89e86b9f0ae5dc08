//! Quorum commit: how many of the published standbys may lack an acknowledged commit, and when that changes without
//! losing one.
#![tactic(auto)]

mod aims;
mod candidates;
mod laws;
mod planning;
mod quorums;
mod race;
mod steps;

pub use aims::{need_of, required_of};
pub use laws::{
    a_published_quorum_keeps_commits, few_standbys_lack_a_commit, plans_are_lawful, quorums_meet,
    who_wins_by_quorum,
};
pub use planning::quorum_plan;
pub use quorums::{Need, Quorum, may_publish, may_require, overlap};
pub use race::{quorum_wins, wins_by};
pub use steps::QuorumPlan;
