// The running things that a list's calls are made on.
#![tactic(auto)]

mod machine;

pub use machine::Machine;
