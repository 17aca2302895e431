// Loops over the calls, for bench/ alone. Each holds its state as a local and changes an input at each turn, so that
// no call can be left out of it. What the calls compute is proved where they are, so the loops carry no contract: they are
// safe and end, at slices of any lengths and any count.
#![tactic(auto)]

mod access;
mod fills;
mod inputs;
mod lights;
mod matrices;
mod roots;
mod turns;
