#![tactic(auto)]

// No code: the abstract state that an image holds, said of its bytes alone.
