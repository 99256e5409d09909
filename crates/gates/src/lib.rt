// The gates H, S and controlled-X. The crate has no code: specs/ says what their matrices are and what they make of rows, proofs/ what follows.

#![tactic(auto)]

use pauli::QubitNumber;

// A gate, by value: H of a qubit, S of a qubit, controlled-X of a control and a target.
#[derive(Clone, Copy)]
pub enum Gate {
    H(QubitNumber),
    S(QubitNumber),
    CX {
        control: QubitNumber,
        target: QubitNumber,
    },
}
