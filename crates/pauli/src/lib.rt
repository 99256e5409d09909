// The plain types of the code. What they mean stands in specs/, and the laws in proofs/.

#![tactic(auto)]

// One of the four Pauli matrices.
#[derive(Clone, Copy, Debug, PartialEq, Eq)]
pub enum PauliMatrix {
    I,
    X,
    Y,
    Z,
}

// A power of i, by its exponent.
#[derive(Clone, Copy, Debug, PartialEq, Eq)]
pub struct ComplexSign(pub u8);

// The number of a row in a set.
#[derive(Clone, Copy, Debug, PartialEq, Eq)]
pub struct RowNumber(pub usize);

// The number of a qubit in a row.
#[derive(Clone, Copy, Debug, PartialEq, Eq)]
pub struct QubitNumber(pub usize);
