#![tactic(auto)]

// Stores as stacks, sums and counts over shafts, and what a test decides: definitions in specs/, theorems in proofs/. The crate has no
// code.
