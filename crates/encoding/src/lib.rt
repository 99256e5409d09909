// How Paulis lie in words: the limits, the refusals of row sets and states, and one qubit of a row's two parts.

#![tactic(auto)]

ghost use Rattle.std.specs.Prelude.{◌≡◌, Bool, cond, not, ◌||◌, ◌&&◌, ◌∷◌, [], ℕ, ◌+◌, ◌*◌, ◌/◌, ◌%◌, ◌^◌, ◌≤◌, ◌<◌, eqb, ltb, leb, length, get_or, drop, set, IfOk};
ghost use Rattle.pauli.specs.Pauli.{of_bits, has_x, has_z};
ghost use Rattle.encoding.specs.Limits.{max_qubits, max_rows, max_words, words_of};
ghost use Rattle.encoding.specs.Words.{odd, bit_at, with_bit, word, unpack};
ghost use Rattle.encoding.specs.Set.{phase_units, exponent_at, with_in, with_exponent, Valid, QubitSet, mem_of, set_of};
ghost use Rattle.pauli.specs.declared.PauliMatrix.TheVariants.{I};
ghost use Rattle.encoding.specs.Refusals.{done_or, smaller, some, is_on, bad_lengths, bad_bits, bad_phases, set_lines, read_lines, Readable, out_lines, state_lines};
ghost use Rattle.encoding.specs.Ranks.{by_rank};

use pauli::{ComplexSign, PauliMatrix, QubitNumber, RowNumber};

pub const MAX_QUBITS: usize = 4096;

pub const MAX_ROWS: usize = 4096;

// Why a call is refused: a number of the table of refusals. The table's laws hold of lines with any numbers (proofs/Ranks.antt: given-iff), and from C
// and in text the number is the answer, so it is a number in a type of its own and no list of names.
#[derive(Clone, Copy, Debug, PartialEq, Eq)]
pub struct Refusal(pub u8);

impl Refusal {
    pub const MANY_QUBITS: Refusal = Refusal(1);

    pub const MANY_ROWS: Refusal = Refusal(2);

    pub const WRONG_LENGTHS: Refusal = Refusal(3);

    pub const SPARE_BITS: Refusal = Refusal(4);

    pub const SPARE_PHASES: Refusal = Refusal(5);

    pub const LARGE_NUMBER: Refusal = Refusal(6);

    pub const REPEATED_ROW: Refusal = Refusal(7);

    pub const FULL_LOG: Refusal = Refusal(8);

    pub const ODD_LOG: Refusal = Refusal(9);

    pub const FALLING_X: Refusal = Refusal(10);

    pub const WILD_COEFFICIENT: Refusal = Refusal(11);

    pub const WILD_SUM: Refusal = Refusal(12);

    pub const NO_TEXT: Refusal = Refusal(13);

    pub const SHORT_OUTPUT: Refusal = Refusal(14);

    pub const REPEATED_COLUMN: Refusal = Refusal(15);

    pub const PAST_I64: Refusal = Refusal(16);

    pub const NO_LOG_FILE: Refusal = Refusal(17);

    pub const OTHER_VERSION: Refusal = Refusal(18);

    pub const SHORT_FILE: Refusal = Refusal(19);

    pub const BYTES_LEFT: Refusal = Refusal(20);

    pub const ONE_QUBIT_TWICE: Refusal = Refusal(21);
}

// A row set that is lent to be read: m rows of n qubits, their X and Z words, and their phases. A set that is changed is lent slice by slice, here and
// in every crate above: a struct of `&mut` slices was tried, and the borrow checker does not cover one that is taken apart and lent on.
#[derive(Clone, Copy)]
pub struct RowSet<'a> {
    pub n: usize,
    pub m: usize,
    pub x: &'a [u64],
    pub z: &'a [u64],
    pub phases: &'a [u64],
}

// The words of a row of n qubits.
pub fn words(n: usize) -> usize
    ensures { result ≡ words_of n }
{
    n.div_ceil(64)
}

// The phase words of m rows.
pub fn phase_words(m: usize) -> usize
    ensures { result ≡ phase_units m }
{
    m.div_ceil(32)
}

// m rows of w words, within the limits.
fn product(m: usize, w: usize) -> usize
    requires { (m ≤ max_rows) × (w ≤ max_words) }
    ensures { result ≡ m * w }
{
    m * w
}

fn bad_lengths(m: usize, w: usize, x: usize, z: usize, p: usize) -> bool
    requires { (m ≤ max_rows) × (w ≤ max_words) }
    ensures { result ≡ bad_lengths m w x z p }
{
    let size = product(m, w);
    x != size || z != size || p != phase_words(m)
}

// Whether a bit at k or above is set in x or z.
fn above(x: u64, z: u64, k: usize) -> bool
    requires { k < 64 }
    ensures { result ≡ some is_on (drop k (word 64 x z)) }
{
    ((x | z) >> k) != 0
}

// Where row r of m rows of w words starts.
fn start(r: usize, w: usize, m: usize) -> usize
    requires { (r < m) × (m * w < 2 ^ 64) }
    ensures { (result ≡ r * w) × (result + w ≤ m * w) }
{
    r * w
}

// Whether in some row a bit at n or above is set: only the last word of a row has such bits.
fn bad_bits(n: usize, w: usize, m: usize, x: &[u64], z: &[u64]) -> bool
    requires { (w ≡ words_of n) × (length x.now ≡ m * w) × (length z.now ≡ m * w) }
    ensures { result ≡ bad_bits n m w x.now z.now }
{
    let k = n % 64;
    if k == 0 {
        return false;
    }
    for r in 0..m {
        let t = start(r, w, m) + (w - 1);
        if above(x[t], z[t], k) {
            return true;
        }
    }
    false
}

// Whether a bit past the last of m exponents is set: only the last word has such bits.
fn bad_phases(m: usize, p: &[u64]) -> bool
    ensures { result ≡ bad_phases m p.now }
{
    let j = m / 32;
    j < p.len() && (p[j] >> (2 * (m % 32))) != 0
}

// The exponent of a row; past the last word it is 0.
pub fn get_exponent(p: &[u64], r: RowNumber) -> ComplexSign
    ensures { result.0 ≡ exponent_at p.now r.0 }
{
    let j = r.0 / 32;
    if j < p.len() {
        return ComplexSign(((p[j] >> (2 * (r.0 % 32))) % 4) as u8);
    }
    ComplexSign(0)
}

// The word v, in which the exponent of a row lies, with that made e, mod 4, so that no carry gets into its neighbour.
pub fn with_exponent(v: u64, r: RowNumber, e: ComplexSign) -> u64
    ensures { result ≡ with_in v (r.0 % 32) e.0 }
{
    let s = 2 * (r.0 % 32);
    let high = (v >> s) / 4 * 4 + (e.0 % 4) as u64;
    (high << s) + v % (1u64 << s)
}

// The exponent of a row becomes e; past the last word nothing is done.
pub fn set_exponent(p: &mut [u64], r: RowNumber, e: ComplexSign)
    ensures { p.new ≡ with_exponent p.old r.0 e.0 }
{
    let j = r.0 / 32;
    if j < p.len() {
        p[j] = with_exponent(p[j], r, e);
    }
}

// The number where the test passes, else the rest of the table.
pub fn pick(test: bool, number: u8, rest: u8) -> u8
    ensures { result ≡ cond test number rest }
{
    if test { number } else { rest }
}

// Of two parts of a call the smaller number.
pub fn smaller(a: Result<(), Refusal>, b: Result<(), Refusal>) -> Result<(), Refusal>
    ensures { result ≡ smaller a b }
{
    match (a, b) {
        (Ok(()), _) => b,
        (_, Ok(())) => a,
        (Err(l), Err(r)) => Err(if l.0 < r.0 { l } else { r }),
    }
}

// The tests of a set that is read, by its parts.
fn parts_fault(n: usize, m: usize, x: &[u64], z: &[u64], phases: &[u64]) -> Result<(), Refusal>
    ensures value { result ≡ done_or (by_rank (set_lines n (mem_of m x.now z.now phases.now))) }
    ensures valid { IfOk result (λ _. Valid n (words_of n) (mem_of m x.now z.now phases.now)) }
{
    if MAX_QUBITS < n {
        return Err(Refusal::MANY_QUBITS);
    }
    if MAX_ROWS < m {
        return Err(Refusal::MANY_ROWS);
    }
    let w = words(n);
    if bad_lengths(m, w, x.len(), z.len(), phases.len()) {
        return Err(Refusal::WRONG_LENGTHS);
    }
    if bad_bits(n, w, m, x, z) {
        return Err(Refusal::SPARE_BITS);
    }
    if bad_phases(m, phases) {
        return Err(Refusal::SPARE_PHASES);
    }
    Ok(())
}

// Whether a set that is read is refused; where it is not, it is a row set.
pub fn set_fault(set: &RowSet<'_>) -> Result<(), Refusal>
    ensures value { result ≡ done_or (by_rank (set_lines set.now.n (set_of set.now))) }
    ensures valid { IfOk result (λ _. Valid set.now.n (words_of set.now.n) (set_of set.now)) }
{
    parts_fault(set.n, set.m, set.x, set.z, set.phases)
}

// The same of a set that is read and of its call's numbers; large says that one of them is too large.
pub fn row_fault(set: &RowSet<'_>, large: bool) -> Result<(), Refusal>
    ensures value { result ≡ done_or (by_rank (read_lines set.now.n (set_of set.now) large)) }
    ensures readable { IfOk result (λ _. Readable set.now.n (set_of set.now) large) }
{
    set_fault(set)?;
    if large {
        return Err(Refusal::LARGE_NUMBER);
    }
    Ok(())
}

// The same of a set that is written only.
pub fn out_fault(set: &RowSet<'_>) -> Result<(), Refusal>
    ensures { result ≡ done_or (by_rank (out_lines set.now.n (set_of set.now))) }
{
    if MAX_QUBITS < set.n {
        return Err(Refusal::MANY_QUBITS);
    }
    if MAX_ROWS < set.m {
        return Err(Refusal::MANY_ROWS);
    }
    if bad_lengths(
        set.m,
        words(set.n),
        set.x.len(),
        set.z.len(),
        set.phases.len(),
    ) {
        return Err(Refusal::WRONG_LENGTHS);
    }
    Ok(())
}

// The same of a lent basis state.
pub fn state_fault(n: usize, s: &[u64]) -> Result<(), Refusal>
    ensures { result ≡ done_or (by_rank (state_lines n s.now)) }
{
    if MAX_QUBITS < n {
        return Err(Refusal::MANY_QUBITS);
    }
    if s.len() != words(n) {
        return Err(Refusal::WRONG_LENGTHS);
    }
    let k = n % 64;
    if k == 0 {
        return Ok(());
    }
    let t = s[s.len() - 1];
    if above(t, t, k) {
        Err(Refusal::SPARE_BITS)
    } else {
        Ok(())
    }
}

// Bit k of the word v.
fn bit_of(v: u64, k: usize) -> bool
    requires { k < 64 }
    ensures { result ≡ odd (v / 2 ^ k) }
{
    (v >> k) % 2 == 1
}

// The word v with its bit k made b.
fn with_bit(v: u64, k: usize, b: bool) -> u64
    requires { k < 64 }
    ensures { result ≡ with_bit v k b }
{
    let mask = 1u64 << k;
    if b { v | mask } else { v & !mask }
}

fn pauli_of(x: bool, z: bool) -> PauliMatrix
    ensures { result ≡ of_bits x z }
{
    match (x, z) {
        (false, false) => PauliMatrix::I,
        (true, false) => PauliMatrix::X,
        (true, true) => PauliMatrix::Y,
        (false, true) => PauliMatrix::Z,
    }
}

fn has_x(p: PauliMatrix) -> bool
    ensures { result ≡ has_x p }
{
    matches!(p, PauliMatrix::X | PauliMatrix::Y)
}

fn has_z(p: PauliMatrix) -> bool
    ensures { result ≡ has_z p }
{
    matches!(p, PauliMatrix::Y | PauliMatrix::Z)
}

// Bit q of a run of words; past its end there is none.
pub fn bit_in(x: &[u64], q: usize) -> bool
    ensures { result ≡ bit_at x.now (q / 64) (q % 64) }
{
    let j = q / 64;
    j < x.len() && bit_of(x[j], q % 64)
}

// The Pauli at a qubit of a row's two parts; past the shorter part it is I.
pub fn get_qubit(x: &[u64], z: &[u64], qubit: QubitNumber) -> PauliMatrix
    ensures { result ≡ get_or (unpack x.now z.now) qubit.0 I }
{
    let j = qubit.0 / 64;
    let k = qubit.0 % 64;
    if j < x.len() && j < z.len() {
        return pauli_of(bit_of(x[j], k), bit_of(z[j], k));
    }
    PauliMatrix::I
}

// A qubit of a row's two parts becomes a Pauli; past the shorter part nothing is done.
pub fn set_qubit(x: &mut [u64], z: &mut [u64], qubit: QubitNumber, pauli: PauliMatrix)
    ensures { QubitSet qubit.0 pauli x.old z.old x.new z.new }
{
    let j = qubit.0 / 64;
    let k = qubit.0 % 64;
    if j < x.len() && j < z.len() {
        x[j] = with_bit(x[j], k, has_x(pauli));
        z[j] = with_bit(z[j], k, has_z(pauli));
    }
}
