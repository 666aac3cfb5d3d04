// The claim about every list of calls on a book. It has no function.
#![tactic(auto)]
