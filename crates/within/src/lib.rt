#![tactic(auto)]

// Which goals can be reached within a set of open shafts, and group by group: the definitions in specs/, the theorems in proofs/. The crate has no code.
