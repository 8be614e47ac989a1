// The move of a stored cascade between one byte a row and two: definitions and their laws.

#![tactic(auto)]
