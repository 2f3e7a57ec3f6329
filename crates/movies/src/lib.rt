// No code: the movie that a text says, in the one form in which movies are compared.
#![tactic(auto)]
