// The plain machine E and demand 3 (METHOD.md, "One sample" and "The report"): definitions and
// proofs alone.
#![tactic(auto)]
