// What the two editions of matrix elements share: the tests of the terms, the block's place among them, and the exponent of a term's action on the ket.

#![tactic(auto)]

ghost use Rattle.std.specs.Prelude.{◌≡◌, suc, ◌^◌, ◌<◌, ◌≤◌, false, length, nat_lt};
ghost use Rattle.encoding.specs.Refusals.{answer_or, done_or};
ghost use Rattle.encoding.specs.Ranks.{by_rank};
ghost use Rattle.mat_elem.specs.Terms.{most_qubits, set_from, falls, lines_to10};
ghost use Rattle.mat_elem.specs.Workers.{shape_lines, word_lines, Looked, block_from, place_of, found_of};
ghost use Rattle.mat_elem.specs.Sums.{exponent_of};

use encoding::Refusal;
use pauli::ComplexSign;
use std::num::wrapping_sub_u64;

pub mod float;
mod guide;
pub mod number;
pub mod states;
pub mod whole;

// n from 1 to 64, and 0 to 65,536 terms.
pub const MIN_QUBITS: usize = 1;

pub const MAX_QUBITS: usize = 64;

pub const MAX_TERMS: usize = 65_536;

// The terms of an operator that is lent to be read: their X and Z words, and the parts of their coefficients.
#[derive(Clone, Copy)]
pub(crate) struct Terms<'a, P> {
    x: &'a [u64],
    z: &'a [u64],
    re: &'a [P],
    im: &'a [P],
}

// Where the block of a word lies: from its first place up to, not including, its last. Empty where no term has that X.
#[derive(Drop)]
pub(crate) struct Place {
    first: usize,
    last: usize,
}

// The lines 1 to 3 of the table, which need no look at the terms.
#[tactic(auto, unfolding(encoding::specs::Ranks::by_rank, encoding::specs::Refusals::answer_or))]
fn shape_fault(
    n: usize,
    m: usize,
    z: usize,
    reals: usize,
    imags: usize,
    many: bool,
    unequal: bool,
) -> Result<(), Refusal>
    ensures { result ≡ done_or (by_rank (shape_lines n m z reals imags many unequal)) }
{
    if (n < MIN_QUBITS) | (MAX_QUBITS < n) {
        return Err(Refusal::MANY_QUBITS);
    }
    if many | (MAX_TERMS < m) {
        return Err(Refusal::MANY_ROWS);
    }
    if unequal | ((z != m) | (reals != m) | (imags != m)) {
        return Err(Refusal::WRONG_LENGTHS);
    }
    Ok(())
}

// The largest word of n bits.
fn top_word(n: usize) -> u64
    requires { n < most_qubits }
    ensures { suc result ≡ 2 ^ n }
{
    (1u64 << n) - 1
}

// Whether a bit of w is set at n or above.
pub(crate) fn above(n: usize, w: u64) -> bool
    ensures { result ≡ set_from n w }
{
    if MAX_QUBITS <= n {
        return false;
    }
    top_word(n) < w
}

// What one pass over the terms finds: the bits that are set in some word, and a fall of X, two findings and no value with its flag. It has no way out,
// so that it is compiled for several terms at once.
#[derive(Drop)]
struct Seen {
    all: u64,
    falls: bool,
}

// A word whose highest bit is set exactly when a is below b: the difference of their halves, less one where b alone has the lowest bit. A comparison of
// words is dearer where several are made at once.
fn borrow(a: u64, b: u64) -> u64
    ensures { set_from 63 result ≡ nat_lt a b }
{
    let d = wrapping_sub_u64(a >> 1, b >> 1);
    wrapping_sub_u64(d, (b & !a) & 1)
}

fn look(x: &[u64], z: &[u64]) -> Seen
    requires { length z.now ≡ length x.now }
    ensures { Looked (x.now) (z.now) result.all result.falls }
{
    let mut all: u64 = 0;
    let mut fall: u64 = 0;
    let mut prev: u64 = 0;
    for i in 0..x.len() {
        let w = x[i];
        all = all | w | z[i];
        fall = fall | borrow(w, prev);
        prev = w;
    }
    Seen {
        all,
        falls: above(63, fall),
    }
}

// The lines 4 to 10.
#[tactic(auto, using(crate::proofs::Bits::bits_seen), unfolding(encoding::specs::Ranks::by_rank, encoding::specs::Refusals::answer_or))]
fn word_fault(n: usize, x: &[u64], z: &[u64], beside: bool) -> Result<(), Refusal>
    requires { length z.now ≡ length x.now }
    ensures { result ≡ done_or (by_rank (word_lines n (x.now) (z.now) beside)) }
{
    let seen = look(x, z);
    if above(n, seen.all) | beside {
        return Err(Refusal::SPARE_BITS);
    }
    if seen.falls {
        return Err(Refusal::FALLING_X);
    }
    Ok(())
}

// The first of the lines 1 to 10 that fits. Of the coefficients only the lengths of their slices are asked.
#[tactic(auto, using(crate::proofs::Faults::lines_shape, crate::proofs::Faults::lines_words, crate::proofs::Faults::same_lengths))]
pub(crate) fn term_fault<P>(
    n: usize,
    terms: &Terms<'_, P>,
    many: bool,
    unequal: bool,
    beside: bool,
) -> Result<(), Refusal>
    ensures { result ≡ done_or (by_rank
        (lines_to10 n terms.now.x.now terms.now.z.now (length terms.now.re.now) (length terms.now.im.now) many unequal beside)) }
{
    shape_fault(
        n,
        terms.x.len(),
        terms.z.len(),
        terms.re.len(),
        terms.im.len(),
        many,
        unequal,
    )?;
    word_fault(n, terms.x, terms.z, beside)
}

// Whether the word at place k is below t: then the block of t starts after it.
fn is_below(x: &[u64], k: usize, t: u64) -> bool
    requires { (falls x.now ≡ false) × (k < length x.now) }
    ensures { result ≡ nat_lt k (block_from (x.now) t) }
{
    x[k] < t
}

// The guess, where the block of t starts at it or after it, and else 0.
fn low_end(x: &[u64], t: u64, guess: usize) -> usize
    requires { falls x.now ≡ false }
    ensures { result ≤ block_from (x.now) t }
{
    if guess == 0 {
        return 0;
    }
    if x.len() < guess {
        return 0;
    }
    if is_below(x, guess - 1, t) { guess } else { 0 }
}

// The guess, where the block of t starts at it or before it, and else the end.
fn high_end(x: &[u64], t: u64, guess: usize) -> usize
    requires { falls x.now ≡ false }
    ensures { (block_from (x.now) t ≤ result) × (result ≤ length (x.now)) }
{
    if x.len() <= guess {
        return x.len();
    }
    if is_below(x, guess, t) {
        x.len()
    } else {
        guess
    }
}

// The first place whose word is t or more, which is not before `low` and not after `high`.
fn lower(x: &[u64], t: u64, low: usize, high: usize) -> usize
    requires x_value { falls x.now ≡ false }
    requires low_bound { (low ≤ block_from x.now t) × (block_from x.now t ≤ high) × (high ≤ length x.now) }
    ensures { result ≡ block_from (x.now) t }
{
    let part = &x[low..high];
    low + part.partition_point(
        |w: &u64| -> bool
            ensures { result ≡ nat_lt w.now t }
        { *w < t },
    )
}

// The same, looked for between the guessed places first.
fn start(x: &[u64], t: u64, guess: Place) -> usize
    requires { falls x.now ≡ false }
    ensures { result ≡ block_from (x.now) t }
{
    let low = low_end(x, t, guess.first);
    let high = high_end(x, t, guess.last);
    lower(x, t, low, high)
}

// The run of words that are t.
pub(crate) fn block(x: &[u64], t: u64, guess: Place) -> Place
    requires { falls x.now ≡ false }
    ensures { result ≡ place_of (x.now) t }
{
    let first = start(x, t, guess);
    for last in first..x.len() {
        if x[last] != t {
            return Place { first, last };
        }
    }
    Place {
        first,
        last: x.len(),
    }
}

// The first line of the table that fits the terms, or else the block of bra XOR ket.
#[tactic(auto, using(crate::proofs::Faults::number_is, crate::proofs::Faults::found_refused, crate::proofs::Faults::found_rising, crate::proofs::Faults::found_none))]
pub(crate) fn find_block<P>(
    n: usize,
    terms: &Terms<'_, P>,
    bra: u64,
    ket: u64,
) -> Result<Place, Refusal>
    ensures { result ≡ found_of n terms.now.x.now terms.now.z.now (length terms.now.re.now) (length terms.now.im.now) bra ket }
{
    let beside = above(n, bra) | above(n, ket);
    term_fault(n, terms, false, false, beside)?;
    let all = Place {
        first: 0,
        last: terms.x.len(),
    };
    Ok(block(terms.x, bra ^ ket, all))
}

// The exponent of i of a term's action on the ket.
pub(crate) fn exponent(x: u64, z: u64, ket: u64) -> ComplexSign
    ensures { result.0 ≡ exponent_of x z ket }
{
    ComplexSign(products::mul_op_state_phase_u64(x, z, ket) as u8)
}
