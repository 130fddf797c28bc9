#![tactic(auto)]

// What is proved of the definitions of `rules`. There is no code here.
