#![tactic(auto)]

// No code: how far an entry of a matrix product, and so a float of the WV and PALETTE rows, lies from the exact one.
