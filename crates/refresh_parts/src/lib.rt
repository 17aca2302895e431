// What a refresh on a state that is lent leaves, for C. No code: definitions and theorems.
#![tactic(auto)]
