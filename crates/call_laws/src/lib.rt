#![tactic(auto)]

// No code: what a host's call leaves is an image again, and holds what the abstract state holds.
