#![tactic(auto)]

// No code: a direction scaled first packs what the Rust packs, wherever the Rust is the oracle.
