// Definitions (specs/) and laws (proofs/) on lists by index, tests, counts and bits. No code.

#![tactic(auto)]
