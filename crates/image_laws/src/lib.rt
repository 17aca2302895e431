#![tactic(auto)]

// No code: what is written reads back, what is accepted is written back, and no image but the writing of a valid state is accepted.
