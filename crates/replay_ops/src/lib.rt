// Arithmetic, a letter for each call.
#![tactic(auto)]

mod arithmetic;
mod op;
mod values;

pub use arithmetic::call;
