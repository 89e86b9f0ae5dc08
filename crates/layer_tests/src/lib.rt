//! Tests of the layers below agents and world, one file a concept, where what is told isn't a row of text, as worked calls are: calls that are
//! drawn, held against plain programs; doors, logs and servers; and texts. A crate with tests is proved twice, so they stand here and not in
//! those crates.
#![tactic(auto)]

#[cfg(test)]
mod checks;
#[cfg(test)]
mod clusters;
#[cfg(test)]
mod doors;
#[cfg(test)]
mod listeners;
#[cfg(test)]
mod logs;
#[cfg(test)]
mod moments;
#[cfg(test)]
mod plain_log;
#[cfg(test)]
mod plain_store;
#[cfg(test)]
mod random_calls;
#[cfg(test)]
mod random_logs;
#[cfg(test)]
mod remotes;
#[cfg(test)]
mod servers;
#[cfg(test)]
mod texts;
