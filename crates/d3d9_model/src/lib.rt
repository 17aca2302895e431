#![tactic(auto)]

// No code: what document 01 says the calls do, apart from how a state is laid out.
