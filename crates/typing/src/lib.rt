// The typing rules of a table as a problem of unification, and Check's verdict as a function: definitions (specs/) and laws
// (proofs/). There is no code here.

#![tactic(auto)]
