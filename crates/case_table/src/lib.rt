// Cases A to L of document 01, proved from the definitions as one table (proofs/Table.antt). No code.

#![tactic(auto)]
