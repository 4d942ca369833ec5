#![tactic(auto)]

// No code: the lab's demands 2 and 3, as theorems about what `scope` says of each call, are in proofs/.
