// The leaves that the reducer and the checker share: a column of a row, the first listed row with it set, a row multiplied by another.
ghost use Rattle.std.specs.Prelude.{◌≡◌, ◌/◌, ◌%◌, ◌<◌, ◌≤◌};
ghost use Rattle.encoding.specs.Limits.{max_rows, max_words};
ghost use Rattle.encoding.specs.Words.{bit_at};
ghost use Rattle.encoding.specs.Set.{row, mem_of};
ghost use Rattle.terms.specs.Workers.{bit_in, place_from, mul_in, clashes_in, InRows, RowsMultiplied};

use encoding::{MAX_QUBITS, MAX_ROWS, RowSet};
use late::add_exponent_of;
use pauli::{QubitNumber, RowNumber};

// Bit q of row k of words that lie w to a row.
fn row_bit(x: &[u64], w: usize, k: RowNumber, q: QubitNumber) -> bool
    requires { (k.0 < max_rows) × (w ≤ max_words) }
    ensures { result ≡ bit_at (row w k.0 x.now) (q.0 / 64) (q.0 % 64) }
{
    if w <= q.0 / 64 {
        return false;
    }
    encoding::bit_in(x, k.0 * w * 64 + q.0)
}

// Whether column c of row k is set: X of qubit c, or from n on Z of qubit c - n. Past the limits no bit is.
pub fn get_bit(n: usize, x: &[u64], z: &[u64], k: RowNumber, c: usize) -> bool
    ensures { result ≡ bit_in n x.now z.now k.0 c }
{
    if MAX_QUBITS < n {
        return false;
    }
    if MAX_ROWS <= k.0 {
        return false;
    }
    let w = encoding::words(n);
    if c < n {
        return row_bit(x, w, k, QubitNumber(c));
    }
    row_bit(z, w, k, QubitNumber(c - n))
}

// The first place of the list, from t on, of a row with column c set.
pub fn find(n: usize, x: &[u64], z: &[u64], listed: &[u16], t: usize, c: usize) -> Option<usize>
    ensures { result ≡ place_from (λ k. bit_in n x.now z.now k c) t listed.now }
{
    for i in t..listed.len() {
        let k = listed[i] as usize;
        if get_bit(n, x, z, RowNumber(k), c) {
            return Some(i);
        }
    }
    None
}

// Row a is multiplied by row b; a and b may be the same. The number of clashes is returned.
// `late` has the same for its own run; one for both would be public, and would have to test again what both have tested.
fn mul_rows(
    w: usize,
    m: usize,
    x: &mut [u64],
    z: &mut [u64],
    p: &mut [u64],
    a: RowNumber,
    b: RowNumber,
) -> u16
    requires { InRows w a.0 b.0 (mem_of m x.old z.old p.old) }
    ensures { RowsMultiplied w a.0 b.0 (mem_of m x.old z.old p.old) (mem_of m x.new z.new p.new) result }
{
    let f = products::imul_op_op(x, z, a.0 * w, b.0 * w, w);
    add_exponent_of(p, a, b, f.phase);
    f.clashes
}

// Row a of a set is multiplied by row b in place, with its exponent, and the number of clashes is returned. Where lengths do not fit or a row
// is not there, nothing is done, and 0 is returned.
pub fn imul_unchecked(
    n: usize,
    m: usize,
    x: &mut [u64],
    z: &mut [u64],
    p: &mut [u64],
    a: RowNumber,
    b: RowNumber,
) -> u16
    ensures p_value { mem_of m x.new z.new p.new ≡ mul_in n a.0 b.0 (mem_of m x.old z.old p.old) }
    ensures number { result ≡ clashes_in n a.0 b.0 (mem_of m x.old z.old p.old) }
{
    let Ok(()) = encoding::out_fault(&RowSet {
        n,
        m,
        x,
        z,
        phases: p,
    }) else {
        return 0;
    };
    if m <= a.0 {
        return 0;
    }
    if m <= b.0 {
        return 0;
    }
    mul_rows(encoding::words(n), m, x, z, p, a, b)
}
