// Cut lists, their choice, rows, the compiler and its listing: definitions and their laws, demand 2 among them.

#![tactic(auto)]
