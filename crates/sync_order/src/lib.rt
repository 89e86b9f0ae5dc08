//! The order of required lists and sync key, from the book alone (Patroni, "Replication modes"): who accepts writes is the leader in the sync
//! key, its commits wait for each standby there, and whom it adds has confirmed what was written before it waited for that one.
#![tactic(auto)]
