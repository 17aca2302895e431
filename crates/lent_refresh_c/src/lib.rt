// The C names of `lent_refresh`, which its archive exports: each calls the function there, under the same clauses.
#![tactic(auto)]

mod host;

pub use host::ff_state_refresh;
