//! Runs: what is played of a script, and of connections behind it, what happens in it, its text and its closing summary. The definitions
//! stand in `specs/`.
#![tactic(auto)]
