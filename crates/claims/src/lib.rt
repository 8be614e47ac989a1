// What the demands say of the functions that ship: definitions and laws, no code.

#![tactic(auto)]
