// The calls over a row set. Each tests first, as the table of refusals says, and then works; what it answers and leaves stands in specs/Calls.antt.

#![tactic(auto)]

ghost use Rattle.std.specs.Prelude.{◌≡◌, ◌+◌, ◌*◌, ◌%◌, ◌≤◌, ◌<◌, length, get_or, IfOk};
ghost use Rattle.std.specs.Int.Count.{ones};
ghost use Rattle.pauli.specs.declared.PauliMatrix.TheVariants.{I};
ghost use Rattle.pauli.specs.Rows.{phase_of, commute, central, count_of, with_qubit};
ghost use Rattle.encoding.specs.Limits.{max_qubits, max_rows, max_words, words_of};
ghost use Rattle.encoding.specs.Words.{word, unpack};
ghost use Rattle.encoding.specs.Set.{phase_units, exponent_at, rows_of, lay, Sound, bare, row, mem_of, set_of};
ghost use Rattle.encoding.specs.Refusals.{done_or, set_lines, out_lines, state_lines};
ghost use Rattle.encoding.specs.Ranks.{by_rank, joined};
ghost use Rattle.products.specs.Leaves.{SameLength, ProductAt};
ghost use Rattle.cmpnt_list.specs.Calls.{matrix_lines, matrix_fault, laid_matrix, commuting, clash_lines, pair_rows, pair_numbers, get_qubit, SetQubit, count_in, phase_of_mul, commutes_with, belongs_to_centralizer, CompatibilityMatrix, MulPairwise, ImulState};
ghost use Rattle.cmpnt_list.specs.Workers.{AskedMatrix, BothReady, ThirdReady, RowAt, word_end, Written, PhasesOf, masked, from_masks, StateActed};

use encoding::{Refusal, RowSet};
use pauli::{ComplexSign, PauliMatrix, QubitNumber, RowNumber};
use products::Factor;
use std::ops::Range;

// The X and the Z words of a row.
#[derive(Clone, Copy)]
struct RowWords<'a> {
    x: &'a [u64],
    z: &'a [u64],
}

// Where row r of m rows of n qubits lies.
fn row_span(r: usize, n: usize, m: usize) -> Range<usize>
    requires { (r < m) × (n ≤ max_qubits) × (m ≤ max_rows) }
    ensures { RowAt r (words_of n) m result.start result.end }
{
    let w = encoding::words(n);
    let a = r * w;
    a..a + w
}

// Row r of a set.
fn row_words<'a>(set: &RowSet<'a>, r: usize) -> RowWords<'a>
    requires sound { Sound set.now.n (set_of set.now) }
    requires r_lt_m { r < set.now.m }
    ensures x { result.x.now ≡ row (words_of set.now.n) r set.now.x.now }
    ensures z { result.z.now ≡ row (words_of set.now.n) r set.now.z.now }
{
    let s = row_span(r, set.n, set.m);
    RowWords {
        x: &set.x[s.start..s.end],
        z: &set.z[s.start..s.end],
    }
}

// The Pauli at qubit q of row r.
fn read_qubit(set: &RowSet<'_>, r: RowNumber, q: QubitNumber) -> PauliMatrix
    requires sound { Sound set.now.n (set_of set.now) }
    requires r_lt_m { (r.0 < set.now.m) × (q.0 < set.now.n) }
    ensures { result ≡ get_or (rows_of set.now.n (set_of set.now) r.0).ps q.0 I }
{
    let row = row_words(set, r.0);
    encoding::get_qubit(row.x, row.z, q)
}

// The Pauli at a qubit of a row.
#[tactic(auto, using(encoding::proofs::Faults::refusing, encoding::proofs::Faults::passing), unfolding(crate::specs::Calls::get_qubit))]
pub fn get_qubit(
    set: &RowSet<'_>,
    row: RowNumber,
    qubit: QubitNumber,
) -> Result<PauliMatrix, Refusal>
    ensures { result ≡ get_qubit set.now.n (set_of set.now) row.0 qubit.0 }
{
    encoding::row_fault(set, (set.m <= row.0) | (set.n <= qubit.0))?;
    Ok(read_qubit(set, row, qubit))
}

// Qubit q of row r becomes a Pauli.
fn write_qubit(
    n: usize,
    m: usize,
    x: &mut [u64],
    z: &mut [u64],
    r: RowNumber,
    q: QubitNumber,
    pauli: PauliMatrix,
)
    requires sound { Sound n (bare m x.old z.old) }
    requires r_lt_m { (r.0 < m) × (q.0 < n) }
    ensures { bare m x.new z.new ≡ lay n m (with_qubit (rows_of n (bare m x.old z.old)) r.0 q.0 pauli) }
{
    let s = row_span(r.0, n, m);
    encoding::set_qubit(&mut x[s.start..s.end], &mut z[s.start..s.end], q, pauli);
}

// A qubit of a row becomes a Pauli.
#[tactic(auto, using(encoding::proofs::Faults::refusing, encoding::proofs::Faults::passing, encoding::proofs::Faults::kept, encoding::proofs::Faults::made))]
pub fn set_qubit(
    n: usize,
    m: usize,
    x: &mut [u64],
    z: &mut [u64],
    phases: &[u64],
    row: RowNumber,
    qubit: QubitNumber,
    pauli: PauliMatrix,
) -> Result<(), Refusal>
    ensures { SetQubit n (mem_of m x.old z.old phases.now) row.0 qubit.0 pauli (mem_of m x.new z.new phases.now) result }
{
    encoding::row_fault(
        &RowSet { n, m, x, z, phases },
        (m <= row.0) | (n <= qubit.0),
    )?;
    write_qubit(n, m, x, z, row, qubit, pauli);
    Ok(())
}

// The number of qubits of a word that hold the Pauli; of I, the number of the others.
fn count_word(x: u64, z: u64, p: PauliMatrix) -> u64
    ensures { (result ≡ masked p (word 64 x z)) × (result ≤ 64) }
{
    match p {
        PauliMatrix::I => products::count(x | z),
        PauliMatrix::X => products::count(x & !z),
        PauliMatrix::Y => products::count(x & z),
        PauliMatrix::Z => products::count(!x & z),
    }
}

// The same of a row.
fn count_row(x: &[u64], z: &[u64], p: PauliMatrix) -> u64
    requires { (length x.now ≤ max_words) × (length z.now ≡ length x.now) }
    ensures { result ≡ masked p (unpack x.now z.now) }
{
    let mut k: u64 = 0;
    for i in 0..x.len() {
        k += count_word(x[i], z[i], p);
    }
    k
}

// What all counts of a row of n qubits add up to.
fn all_qubits(n: usize) -> u64
    requires { n ≤ max_qubits }
    ensures { result ≡ n }
{
    n as u64
}

// The number of qubits that hold the Pauli, of n, from what the masks count.
fn from_masks(p: PauliMatrix, n: usize, k: u64) -> u64
    requires { (n ≤ max_qubits) × (k ≤ n) }
    ensures { result ≡ from_masks p n k }
{
    let all = all_qubits(n);
    match p {
        PauliMatrix::I => all - k,
        PauliMatrix::X => k,
        PauliMatrix::Y => k,
        PauliMatrix::Z => k,
    }
}

// The number of qubits of row r that hold the Pauli.
fn count_in(set: &RowSet<'_>, r: usize, pauli: PauliMatrix) -> u64
    requires sound { Sound set.now.n (set_of set.now) }
    requires r_lt_m { r < set.now.m }
    ensures { result ≡ count_of set.now.n pauli (rows_of set.now.n (set_of set.now) r) }
{
    let row = row_words(set, r);
    let k = count_row(row.x, row.z, pauli);
    from_masks(pauli, set.n, k)
}

// How many qubits of a row hold a Pauli.
#[tactic(auto, using(encoding::proofs::Faults::refusing, encoding::proofs::Faults::passing), unfolding(crate::specs::Calls::count_in))]
pub fn count(set: &RowSet<'_>, row: RowNumber, pauli: PauliMatrix) -> Result<u64, Refusal>
    ensures { result ≡ count_in set.now.n (set_of set.now) row.0 pauli }
{
    encoding::row_fault(set, set.m <= row.0)?;
    Ok(count_in(set, row.0, pauli))
}

// The exponent of the product of rows a and b.
fn phase_rows(set: &RowSet<'_>, a: usize, b: usize) -> ComplexSign
    requires sound { Sound set.now.n (set_of set.now) }
    requires a_lt_m { (a < set.now.m) × (b < set.now.m) }
    ensures { result.0 ≡ phase_of set.now.n (rows_of set.now.n (set_of set.now) a) (rows_of set.now.n (set_of set.now) b) }
{
    let l = row_words(set, a);
    let r = row_words(set, b);
    products::mul_op_op_phase(l.x, l.z, r.x, r.z).phase
}

// The exponent of the product of two rows, without the rows' own.
#[tactic(auto, using(encoding::proofs::Faults::refusing, encoding::proofs::Faults::passing), unfolding(crate::specs::Calls::phase_of_mul))]
pub fn phase_of_mul(set: &RowSet<'_>, a: RowNumber, b: RowNumber) -> Result<ComplexSign, Refusal>
    ensures { result ≡ phase_of_mul set.now.n (set_of set.now) a.0 b.0 }
{
    encoding::row_fault(set, (set.m <= a.0) | (set.m <= b.0))?;
    Ok(phase_rows(set, a.0, b.0))
}

// The exponent of the product of rows a and b, by look-ups. The two engines take different arguments and promise by different laws, so a function
// over the engine would ask more of its caller than both bodies say.
fn phase_rows_by_table(set: &RowSet<'_>, a: usize, b: usize) -> ComplexSign
    requires sound { Sound set.now.n (set_of set.now) }
    requires a_lt_m { (a < set.now.m) × (b < set.now.m) }
    ensures { result.0 ≡ phase_of set.now.n (rows_of set.now.n (set_of set.now) a) (rows_of set.now.n (set_of set.now) b) }
{
    let l = row_words(set, a);
    let r = row_words(set, b);
    table::mul_op_op_phase_by_table(set.n, l.x, l.z, r.x, r.z)
}

// The same exponent as `phase_of_mul` gives, on a chip that has no instruction for counting ones.
#[tactic(auto, using(encoding::proofs::Faults::refusing, encoding::proofs::Faults::passing), unfolding(crate::specs::Calls::phase_of_mul))]
pub fn phase_of_mul_by_table(
    set: &RowSet<'_>,
    a: RowNumber,
    b: RowNumber,
) -> Result<ComplexSign, Refusal>
    ensures { result ≡ phase_of_mul set.now.n (set_of set.now) a.0 b.0 }
{
    encoding::row_fault(set, (set.m <= a.0) | (set.m <= b.0))?;
    Ok(phase_rows_by_table(set, a.0, b.0))
}

// Whether rows a and b commute.
fn commute_rows(set: &RowSet<'_>, a: usize, b: usize) -> bool
    requires sound { Sound set.now.n (set_of set.now) }
    requires a_lt_m { (a < set.now.m) × (b < set.now.m) }
    ensures { result ≡ commute set.now.n (rows_of set.now.n (set_of set.now) a) (rows_of set.now.n (set_of set.now) b) }
{
    let l = row_words(set, a);
    let r = row_words(set, b);
    products::commutes(l.x, l.z, r.x, r.z)
}

// Whether two rows commute.
#[tactic(auto, using(encoding::proofs::Faults::refusing, encoding::proofs::Faults::passing), unfolding(crate::specs::Calls::commutes_with))]
pub fn commutes_with(set: &RowSet<'_>, a: RowNumber, b: RowNumber) -> Result<bool, Refusal>
    ensures { result ≡ commutes_with set.now.n (set_of set.now) a.0 b.0 }
{
    encoding::row_fault(set, (set.m <= a.0) | (set.m <= b.0))?;
    Ok(commute_rows(set, a.0, b.0))
}

// Whether row r commutes with every row.
fn central_row(set: &RowSet<'_>, r: usize) -> bool
    requires sound { Sound set.now.n (set_of set.now) }
    requires r_lt_m { r < set.now.m }
    ensures { result ≡ central set.now.n set.now.m (rows_of set.now.n (set_of set.now)) r }
{
    (0..set.m).all(|k| commute_rows(set, r, k))
}

// Whether a row commutes with every row of its set.
#[tactic(auto, using(encoding::proofs::Faults::refusing, encoding::proofs::Faults::passing), unfolding(crate::specs::Calls::belongs_to_centralizer))]
pub fn belongs_to_centralizer(set: &RowSet<'_>, row: RowNumber) -> Result<bool, Refusal>
    ensures { result ≡ belongs_to_centralizer set.now.n (set_of set.now) row.0 }
{
    encoding::row_fault(set, set.m <= row.0)?;
    Ok(central_row(set, row.0))
}

// The words of an m by m matrix of bits.
fn matrix_size(m: usize) -> usize
    requires { m ≤ max_rows }
    ensures { result ≡ m * words_of m }
{
    m * encoding::words(m)
}

// Whether an m by m matrix that is lent in size words is refused.
fn square_fault(m: usize, size: usize) -> Result<(), Refusal>
    ensures { result ≡ done_or (by_rank (matrix_lines m size)) }
{
    if encoding::MAX_ROWS < m {
        return Err(Refusal::MANY_ROWS);
    }
    if size != matrix_size(m) {
        return Err(Refusal::WRONG_LENGTHS);
    }
    Ok(())
}

// The same of a set that is read and the matrix of its rows.
fn matrix_fault(set: &RowSet<'_>, size: usize) -> Result<(), Refusal>
    ensures value { result ≡ done_or (matrix_fault set.now.n (set_of set.now) size) }
    ensures none { IfOk result (λ _. AskedMatrix set.now.n (set_of set.now) size) }
{
    encoding::smaller(encoding::set_fault(set), square_fault(set.m, size))
}

// The matrix of a set's rows.
fn fill_matrix(set: &RowSet<'_>, out: &mut [u64])
    requires sound { Sound set.now.n (set_of set.now) }
    requires out_len { length out.old ≡ set.now.m * words_of set.now.m }
    ensures { out.new ≡ laid_matrix set.now.m (commuting set.now.n (set_of set.now)) }
{
    let w = encoding::words(set.n);
    matrix::fill(set.x, set.z, w, set.m, out);
}

// Bit j of row i is set exactly when rows i and j commute.
#[tactic(auto, using(encoding::proofs::Faults::refusing, encoding::proofs::Faults::passing, encoding::proofs::Faults::kept, encoding::proofs::Faults::made))]
pub fn compatibility_matrix(set: &RowSet<'_>, out: &mut [u64]) -> Result<(), Refusal>
    ensures { CompatibilityMatrix set.now.n (set_of set.now) out.old out.new result }
{
    matrix_fault(set, out.len())?;
    fill_matrix(set, out);
    Ok(())
}

// Whether one of two sets that are read is refused.
fn both_fault(left: &RowSet<'_>, right: &RowSet<'_>) -> Result<(), Refusal>
    ensures value { result ≡ done_or (by_rank (joined (set_lines left.now.n (set_of left.now)) (set_lines right.now.n (set_of right.now)))) }
    ensures none { IfOk result (λ _. left.now.n ≡ right.now.n → BothReady left.now.n (set_of left.now) (set_of right.now)) }
{
    encoding::smaller(encoding::set_fault(left), encoding::set_fault(right))
}

// Whether q lent numbers, one for each of m rows, are refused.
fn numbers_fault(m: usize, q: usize) -> Result<(), Refusal>
    ensures { result ≡ done_or (by_rank (clash_lines m q)) }
{
    if q != m {
        return Err(Refusal::WRONG_LENGTHS);
    }
    Ok(())
}

// Whether q lent numbers, or a third set that is written, are refused.
fn third_fault(out: &RowSet<'_>, q: usize) -> Result<(), Refusal>
    ensures value { result ≡ done_or (by_rank (joined (clash_lines out.now.m q) (out_lines out.now.n (set_of out.now)))) }
    ensures none { IfOk result (λ _. ThirdReady out.now.n q (set_of out.now)) }
{
    encoding::smaller(numbers_fault(out.m, q), encoding::out_fault(out))
}

// The parts of two rows, and the part to be written, are lent on.
fn mul_part(
    left: &RowSet<'_>,
    right: &RowSet<'_>,
    s: Range<usize>,
    ox: &mut [u64],
    oz: &mut [u64],
) -> Factor
    requires a_le_e { (s.start ≤ s.end) × (s.end ≤ length left.now.x.now) }
    requires same_length { SameLength (length left.now.x.now) left.now.x.now left.now.z.now right.now.x.now right.now.z.now ox.old oz.old }
    ensures { ProductAt s.start s.end left.now.x.now left.now.z.now right.now.x.now right.now.z.now ox.old oz.old ox.new oz.new result }
{
    let a = s.start;
    let e = s.end;
    products::mul_op_op(
        &left.x[a..e],
        &left.z[a..e],
        &right.x[a..e],
        &right.z[a..e],
        &mut ox[a..e],
        &mut oz[a..e],
    )
}

// The exponent of row r of a product: those of the two rows, and e.
fn mul_exponents(lp: &[u64], rp: &[u64], r: RowNumber, e: ComplexSign) -> ComplexSign
    ensures { result.0 ≡ (exponent_at lp.now r.0 + exponent_at rp.now r.0 + e.0) % 4 }
{
    let a = encoding::get_exponent(lp, r);
    let b = encoding::get_exponent(rp, r);
    products::add_signs(a, b, e)
}

// Where the rows of phase word j end, of m.
fn rows_end(j: usize, m: usize) -> usize
    requires { (m ≤ max_rows) × (j < phase_units m) }
    ensures { result ≡ word_end m j }
{
    if m - j * 32 < 32 {
        return m;
    }
    j * 32 + 32
}

// The rows of phase word j, left times right, are written into the third set, with their numbers of clashes; the word is returned.
fn mul_word(
    left: &RowSet<'_>,
    right: &RowSet<'_>,
    j: usize,
    ox: &mut [u64],
    oz: &mut [u64],
    clashes: &mut [u16],
) -> u64
    requires both_ready { BothReady left.now.n (set_of left.now) (set_of right.now) }
    requires one_m { right.now.m ≡ left.now.m }
    requires j_bound { (j < phase_units left.now.m)
        × Written left.now.n (set_of left.now) (set_of right.now) (j * 32) ox.old oz.old clashes.old }
    ensures phases_of { PhasesOf left.now.n (set_of left.now) (set_of right.now) j left.now.m result }
    ensures rows { Written left.now.n (set_of left.now) (set_of right.now) (word_end left.now.m j) ox.new oz.new clashes.new }
{
    let end = rows_end(j, left.m);
    let mut word = 0u64;
    for r in j * 32..end {
        let f = mul_part(left, right, row_span(r, left.n, left.m), ox, oz);
        let i = mul_exponents(left.phases, right.phases, RowNumber(r), f.phase);
        word = encoding::with_exponent(word, RowNumber(r), i);
        clashes[r] = f.clashes;
    }
    word
}

// Word by word of the phases, left times right is written into the third set, with the numbers of clashes.
fn mul_rows(
    left: &RowSet<'_>,
    right: &RowSet<'_>,
    ox: &mut [u64],
    oz: &mut [u64],
    op: &mut [u64],
    clashes: &mut [u16],
)
    requires both_ready { BothReady left.now.n (set_of left.now) (set_of right.now) }
    requires one_m { right.now.m ≡ left.now.m }
    requires third_ready { ThirdReady left.now.n (length clashes.old) (mem_of left.now.m ox.old oz.old op.old) }
    ensures { (mem_of left.now.m ox.new oz.new op.new ≡ lay left.now.n left.now.m (pair_rows left.now.n (set_of left.now) (set_of right.now))) ×
        (clashes.new ≡ pair_numbers left.now.n (set_of left.now) (set_of right.now)) }
{
    for j in 0..op.len() {
        op[j] = mul_word(left, right, j, ox, oz, clashes);
    }
}

// Each row of the left set times the same row of the right goes into a third set; its exponent is the sum of theirs and of that of the
// product. The number of qubits that hold differing Paulis other than I is given for each row. The three sets have the one n and the one m.
pub fn cmpnts_mul_pairwise(
    n: usize,
    m: usize,
    lx: &[u64],
    lz: &[u64],
    lp: &[u64],
    rx: &[u64],
    rz: &[u64],
    rp: &[u64],
    ox: &mut [u64],
    oz: &mut [u64],
    op: &mut [u64],
    clashes: &mut [u16],
) -> Result<(), Refusal>
    ensures { MulPairwise n (mem_of m lx.now lz.now lp.now) (mem_of m rx.now rz.now rp.now) (mem_of m ox.old oz.old op.old)
        (mem_of m ox.new oz.new op.new) clashes.old
        clashes.new result }
{
    let left = RowSet {
        n,
        m,
        x: lx,
        z: lz,
        phases: lp,
    };
    let right = RowSet {
        n,
        m,
        x: rx,
        z: rz,
        phases: rp,
    };
    let third = third_fault(
        &RowSet {
            n,
            m,
            x: ox,
            z: oz,
            phases: op,
        },
        clashes.len(),
    );
    encoding::smaller(both_fault(&left, &right), third)?;
    mul_rows(&left, &right, ox, oz, op, clashes);
    Ok(())
}

// Row r acts on a basis state.
fn act_on(set: &RowSet<'_>, r: usize, state: &mut [u64]) -> ComplexSign
    requires sound { Sound set.now.n (set_of set.now) }
    requires r_lt_m { (r < set.now.m) × (by_rank (state_lines set.now.n state.old) ≡ 0) }
    ensures { StateActed set.now.n (rows_of set.now.n (set_of set.now) r) state.old state.new result.0 }
{
    let row = row_words(set, r);
    products::imul_op_state(row.x, row.z, state)
}

// A row acts on a lent basis state, which is changed in place; the exponent is returned, without the row's own.
pub fn imul_state(
    set: &RowSet<'_>,
    row: RowNumber,
    state: &mut [u64],
) -> Result<ComplexSign, Refusal>
    ensures { ImulState set.now.n (set_of set.now) row.0 state.old state.new result }
{
    encoding::smaller(
        encoding::row_fault(set, set.m <= row.0),
        encoding::state_fault(set.n, state),
    )?;
    Ok(act_on(set, row.0, state))
}
