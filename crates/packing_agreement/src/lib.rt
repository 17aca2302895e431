#![tactic(auto)]

// No code: the laws of packing that need the abstract state, and document 01's cases.
