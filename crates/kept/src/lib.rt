// What the machine's book stands for as one record, and what each call makes of that record. It has no function.
#![tactic(auto)]
