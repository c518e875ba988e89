#![tactic(auto)]

// Which goals can be reached: the rules of document 01 in specs/, their equivalence to "reachable" in proofs/. The crate has no code.
