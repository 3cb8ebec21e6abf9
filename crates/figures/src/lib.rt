// The worked figures (METHOD.md, "Worked figures"), proved as one table: definitions and proofs, no code.
#![tactic(auto)]
