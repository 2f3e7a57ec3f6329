// No code: the tree of records that a text's tree is written as, and what is written of it.
#![tactic(auto)]
