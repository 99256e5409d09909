// One call a line on standard input, one answer a line on standard output; docs/CALLS.md says how they are written.

#![tactic(auto)]

mod conjugate;
mod drafts;
mod elements;
mod feed;
mod files;
mod line;
mod pairwise;
mod reducing;
mod rows;
mod sets;
mod texts;
mod words;

use elements::Terms;
use encoding::{MAX_QUBITS, MAX_ROWS};
use mat_elem::states::MAX_VECTORS;

// The most elements that a list of a line may have. Rows, lists, terms and states reach past what the library takes, so that a line can
// ask for more and have it refused. Words and logs do not: a set at both limits has 4 MiB, its log 64 MiB, and a program has the
// stack that the system gives it. The words are enough for a word in each of more rows than the limit, or for 70 of the longest rows.
pub(crate) const ROWS: usize = MAX_ROWS + 64;

// The phase words of so many rows.
pub(crate) const PHASES: usize = ROWS / 32;

pub(crate) const WORDS: usize = MAX_ROWS + 512;

pub(crate) const LIST: usize = 2 * MAX_QUBITS + 64;

pub(crate) const LOG: usize = 140000;

pub(crate) const TERMS: usize = 65600;

pub(crate) const STATES: usize = MAX_VECTORS + 64;

// The bytes of a row's text, lent or in a list: more than the longest has, 23,465 of 4,096 qubits.
pub(crate) const TEXT: usize = 24000;

// The bytes of the longest log file that is answered: those that `verdict` takes.
pub(crate) const FILE: usize = 16384;

// The bytes of the longest line, its end among them.
pub(crate) const LINE: usize = 3500000;

// The longest answer is that of a reduction: 70,000 entries of at most 10 bytes, 9,346 words of 17.
pub(crate) const ANSWER: usize = 900000;

// The long arrays are made here, once, and lent; those of sets, lists and logs are made for the line that has them.
fn main(rt: HostRuntime) {
    let mut buf = [0u8; LINE];
    let mut out = [0u8; ANSWER];
    let mut terms = Terms {
        x: [0u64; TERMS],
        z: [0u64; TERMS],
        re: [0i32; TERMS],
        im: [0i32; TERMS],
        fre: [0.0f64; TERMS],
        fim: [0.0f64; TERMS],
    };
    feed::run(&rt, &mut buf, &mut out, &mut terms);
}
