#![tactic(auto)]

// No code: general lemmas that the proofs of several crates cite.
