// No code: laws on lists, tables and enums that the proofs of several crates cite.
#![tactic(auto)]
