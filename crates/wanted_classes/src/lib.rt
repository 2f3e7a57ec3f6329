// No code: what `wanted` says of an operand is what the grammar takes there.
#![tactic(auto)]
