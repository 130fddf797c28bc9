#![tactic(auto)]

// Document 01 as definitions (specs/), and what they give for its conditions (proofs/). There is no code here.
