//! What a connection to the REST interface of an agent brings to a run, as steps of it, and what is answered on it. The definitions stand in
//! `specs/Connections`.
#![tactic(auto)]
