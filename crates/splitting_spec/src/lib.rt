// Splitting a job in two: definitions and their laws.

#![tactic(auto)]
