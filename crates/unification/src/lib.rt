#![tactic(auto)]

// The mathematics of unification over types: definitions (specs/) and laws (proofs/). There is no code here.
