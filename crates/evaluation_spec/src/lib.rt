// Evaluation of stored cascades: definitions and their laws.

#![tactic(auto)]

// The words of a set of rail words (specs/RailSets.antt says which bit is which).
pub const RAIL_WORDS: usize = 64;
