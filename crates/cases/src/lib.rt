#![tactic(auto)]

// The proved cases of document 01, "Filled stores to try", and of requests 5/13, 7/13, 8/13 and 9/13: the table in specs/, the theorem over it in proofs/. The crate has no code.
