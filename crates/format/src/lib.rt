// Document 01 as definitions (specs/) and what follows from them (proofs/). There is no code here: every other crate is proved against
// these definitions.
#![tactic(auto)]
