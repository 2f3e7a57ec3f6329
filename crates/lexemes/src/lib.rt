// No code: the words that the written grammar and the machine share. Tokens of a list, what an operand may be, blocks, events.
#![tactic(auto)]
