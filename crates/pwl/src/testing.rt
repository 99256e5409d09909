// The table over a file's bytes: what is refused is refused before anything is written.
ghost use Rattle.std.specs.Prelude.{◌≡◌, false, ◌+◌, ◌*◌, ◌-◌, ◌/◌, ◌≤◌, ◌<◌, length, drop, IfOk};
ghost use Rattle.encoding.specs.Limits.{max_qubits, max_rows, words_of};
ghost use Rattle.encoding.specs.Words.{word as Words·word};
ghost use Rattle.encoding.specs.Set.{phase_units, Valid};
ghost use Rattle.encoding.specs.Refusals.{done_or, some, is_on, too_large, bad_bits, bad_phases, set_lines};
ghost use Rattle.encoding.specs.Ranks.{by_rank};
ghost use Rattle.terms.specs.Refused.{repeated, list_lines};
ghost use Rattle.terms.specs.Workers.{Blank};
ghost use Rattle.pwl.specs.Bytes.{nums};
ghost use Rattle.pwl.specs.Workers.{set_at, marked};

use crate::bytes::{two, word};
use encoding::{MAX_QUBITS, Refusal, bit_in, words};

// Whether one of the count numbers of two bytes each from a place on is `limit` or above.
#[tactic(auto, using(crate::proofs::Tests::large_hit, crate::proofs::Tests::large_more, crate::proofs::Tests::large_end))]
fn too_large(s: &[u8], at: usize, count: usize, limit: usize) -> bool
    requires { at + 2 * count ≤ length s.now }
    ensures { result ≡ some (too_large limit) (nums 2 count (drop at s.now)) }
{
    for i in 0..count {
        if limit <= two(s, at + 2 * i) {
            return true;
        }
    }
    false
}

// Words with a mark for each column of the longest row.
const MARKS: usize = 2 * MAX_QUBITS / 64;

// A number gets its mark: bit k mod 64 of word k div 64.
fn mark(marks: &mut [u64], k: usize)
    requires { k / 64 < length marks.old }
    ensures { marks.new ≡ marked k marks.old }
{
    let j = k / 64;
    marks[j] = marks[j] | (1u64 << (k % 64));
}

// Whether one of them is there twice: each is marked as it comes, and one that has its mark came before.
fn marked_twice(s: &[u8], at: usize, count: usize, marks: &mut [u64]) -> bool
    requires count_in_bounds { at + 2 * count ≤ length s.now }
    requires s_value { some (too_large (64 * length marks.old)) (nums 2 count (drop at s.now)) ≡ false }
    requires blank { Blank marks.old }
    ensures { result ≡ repeated (nums 2 count (drop at s.now)) }
{
    for i in 0..count {
        let k = two(s, at + 2 * i);
        if bit_in(marks, k) {
            return true;
        }
        mark(marks, k);
    }
    false
}

fn twice(s: &[u8], at: usize, count: usize) -> bool
    requires { (at + 2 * count ≤ length s.now) × (some (too_large (max_qubits + max_qubits)) (nums 2 count (drop at s.now)) ≡ false) }
    ensures { result ≡ repeated (nums 2 count (drop at s.now)) }
{
    let mut marks = [0u64; MARKS];
    marked_twice(s, at, count, &mut marks)
}

// Whether an order of a columns at 41, b listed rows at l and c extra rows at e are refused.
pub(crate) fn lists_fault(
    s: &[u8],
    n: usize,
    m: usize,
    a: usize,
    l: usize,
    b: usize,
    e: usize,
    c: usize,
) -> Result<(), Refusal>
    requires n_le_max_qubits { (n ≤ max_qubits) × (m ≤ max_rows) }
    requires a_in_bounds { (41 + 2 * a ≤ length s.now) × (l + 2 * b ≤ length s.now) × (e + 2 * c ≤ length s.now) }
    ensures { result ≡ done_or (by_rank (list_lines n m (nums 2 a (drop 41 s.now)) (nums 2 b (drop l s.now))
        (nums 2 c (drop e s.now)))) }
{
    let i = too_large(s, 41, a, n + n);
    let j = too_large(s, l, b, m);
    let k = too_large(s, e, c, m);
    if i | (j | k) {
        return Err(Refusal::LARGE_NUMBER);
    }
    if twice(s, l, b) {
        return Err(Refusal::REPEATED_ROW);
    }
    if twice(s, 41, a) {
        return Err(Refusal::REPEATED_COLUMN);
    }
    Ok(())
}

// Whether a bit at k or above is set in x or z: as in `encoding`, where it asks for k below 64, which no public function may.
fn above(x: u64, z: u64, k: usize) -> bool
    requires { k < 64 }
    ensures { result ≡ some is_on (drop k (Words·word 64 x z)) }
{
    ((x | z) >> k) != 0
}

// The place of the last word of row r of m rows of w words that lie from a place on.
fn last_word(at: usize, r: usize, w: usize, m: usize, q: usize) -> usize
    requires { (r < m) × (0 < w) × (q ≡ m * w) × (at + 8 * q < 18446744073709551616) }
    ensures { (result ≡ at + 8 * (r * w + (w - 1))) × (r * w + (w - 1) < q) }
{
    at + 8 * (r * w + (w - 1))
}

// Whether in some row a bit at n or above is set: X words at a place, Z words behind them.
#[tactic(auto, using(crate::proofs::Tests::row_seen, encoding::proofs::Spare::rows_none), unfolding(encoding::specs::Refusals::bad_bits, encoding::specs::Refusals::some_below))]
fn bad_bits(s: &[u8], at: usize, n: usize, m: usize, w: usize, q: usize) -> bool
    requires { (w ≡ words_of n) × (q ≡ m * w) × (at + 8 * q + 8 * q ≤ length s.now) }
    ensures { result ≡ bad_bits n m w (nums 8 q (drop at s.now)) (nums 8 q (drop (at + 8 * q) s.now)) }
{
    let k = n % 64;
    if k == 0 {
        return false;
    }
    for r in 0..m {
        let t = last_word(at, r, w, m, q);
        if above(word(s, t), word(s, t + 8 * q), k) {
            return true;
        }
    }
    false
}

// Whether a bit past the last exponent is set, in phase words at a place.
#[tactic(auto, using(crate::proofs::Tests::phase_seen, crate::proofs::Tests::phase_none))]
fn bad_phases(s: &[u8], at: usize, m: usize, v: usize) -> bool
    requires { (v ≡ phase_units m) × (at + 8 * v ≤ length s.now) }
    ensures { result ≡ bad_phases m (nums 8 v (drop at s.now)) }
{
    let j = m / 32;
    j < v && (word(s, at + 8 * j) >> (2 * (m % 32))) != 0
}

// Whether a set that lies from a place on is refused; where it is not, it is a row set.
#[tactic(auto, using(crate::proofs::Tests::set_4, crate::proofs::Tests::set_5, crate::proofs::Tests::set_passed, crate::proofs::Tests::set_valid))]
pub(crate) fn set_fault(
    s: &[u8],
    at: usize,
    n: usize,
    m: usize,
    q: usize,
    v: usize,
) -> Result<(), Refusal>
    requires { (n ≤ max_qubits) × (m ≤ max_rows) × (q ≡ m * words_of n) × (v ≡ phase_units m)
        × (at + 8 * q + 8 * q + 8 * v ≤ length s.now) }
    ensures value { result ≡ done_or (by_rank (set_lines n (set_at m q v at s.now))) }
    ensures valid { IfOk result (λ _. Valid n (words_of n) (set_at m q v at s.now)) }
{
    if bad_bits(s, at, n, m, words(n), q) {
        return Err(Refusal::SPARE_BITS);
    }
    if bad_phases(s, at + 8 * q + 8 * q, m, v) {
        return Err(Refusal::SPARE_PHASES);
    }
    Ok(())
}
