#![tactic(auto)]

// No code: a claim over every list of calls.
