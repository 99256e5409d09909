// The reduction rule done late: a row's products by pivots are put off and made at once, by a table of products of pivots. The crate has no code:
// specs/Workers.antt says how, proofs/ that it is the rule. proofs/Theorems.antt lists the theorems.

#![tactic(auto)]
