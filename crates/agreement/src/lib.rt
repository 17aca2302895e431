#![tactic(auto)]

// No code: the calls of ff_state do what d3d9_model says.
