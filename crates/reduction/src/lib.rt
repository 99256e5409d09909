// Document 01's reduction rule, its log, reduced form and the replay checker, over any rows that have bits and a product.
// The crate has no code: specs/ says what is meant, proofs/ what follows. proofs/Theorems.antt lists the theorems.

#![tactic(auto)]
