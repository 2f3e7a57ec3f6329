// No code: the written grammar, what a reading is, refusals 6, 7 and 8 as definitions, and the theorems about them.
#![tactic(auto)]
