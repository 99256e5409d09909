// The cases P1 to P12 of document 01 and the ends of the floats stand in specs/Table.antt, and the one claim about them is proved in proofs/Claim.antt.

#![tactic(auto)]
