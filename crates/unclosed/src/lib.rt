// No code: which strings are closed changes no answer, and a level's count is the number of its operand entries with the flag.
#![tactic(auto)]
