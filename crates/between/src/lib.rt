// Theorems between calls of different crates, from their contracts alone. The crate has no code.

#![tactic(auto)]
