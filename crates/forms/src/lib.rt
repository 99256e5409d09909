// Lines of docs/CALLS.md by their parts, whatever call they make: the fields that they share, and the answers.

#![tactic(auto)]

pub mod read;
pub mod say;
