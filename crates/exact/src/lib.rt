// Request 12, when float sums are exact: the premise stands in specs/Whole.antt, the claims in specs/Claims.antt, the theorems in proofs/.

#![tactic(auto)]
