// No code: a pushdown machine for the grammar. The token readers' contracts are runs of it, and the grammar's theorems use it.
#![tactic(auto)]
