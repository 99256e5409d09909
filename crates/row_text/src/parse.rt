// A text into a row. It is read into words of its own first, so that a text that is none leaves the row as it was.
ghost use Rattle.std.specs.Prelude.{◌≡◌, [], ◌≤◌, ◌<◌, length, drop, take};
ghost use Rattle.encoding.specs.Limits.{max_qubits, max_words, words_of};
ghost use Rattle.encoding.specs.Set.{Sound, mem_of};
ghost use Rattle.row_text.specs.Calls.{ParseElem};
ghost use Rattle.row_text.specs.Workers.{left, lettered as Workers·lettered, PauliIs, BehindSpace, NamedBy, NextPauli};
ghost use Rattle.row_text.specs.Workers.{PauliSet, blank, Holding, Scanned, RowParsed, SetParsed};

use crate::fmt::row_span;
use encoding::{Refusal, RowSet};
use pauli::{PauliMatrix, QubitNumber, RowNumber};

// ---- one Pauli of a text

// The Pauli of a letter.
#[tactic(auto, unfolding(crate::specs::Workers::letter_of))]
fn pauli_of(c: u8) -> Option<PauliMatrix>
    ensures { PauliIs c result }
{
    match c {
        b'X' => Some(PauliMatrix::X),
        b'Y' => Some(PauliMatrix::Y),
        b'Z' => Some(PauliMatrix::Z),
        _ => None,
    }
}

// Where a letter is to stand: at the start of the text, or behind a space.
fn behind_space(s: &[u8], at: usize) -> Option<usize>
    ensures { BehindSpace at s.now result }
{
    if at == 0 {
        return Some(0);
    }
    if text::starts(b' ', s, at) {
        Some(at + 1)
    } else {
        None
    }
}

// A letter's Pauli and its number, and the place behind them.
#[derive(Drop)]
struct Named {
    pauli: PauliMatrix,
    qubit: usize,
    at: usize,
}

// A letter and a number of at most top.
fn lettered(s: &[u8], i: usize, top: usize) -> Option<Named>
    requires { top ≤ max_qubits }
    ensures { NamedBy (Workers·lettered top (drop i s.now)) s.now top result }
{
    if i >= s.len() {
        return None;
    }
    let pauli = pauli_of(s[i])?;
    let (v, at) = text::canonical(s, i + 1, top as u64)?;
    Some(Named {
        pauli,
        qubit: v as usize,
        at,
    })
}

// The next Pauli of a text: at qubit q or above, and below n.
fn next(n: usize, s: &[u8], at: usize, q: usize) -> Option<Named>
    requires { n ≤ max_qubits }
    ensures { NextPauli n q (left at s.now) s.now result }
{
    let i = behind_space(s, at)?;
    let r = lettered(s, i, n)?;
    if r.qubit < q {
        return None;
    }
    if r.qubit < n { Some(r) } else { None }
}

// ---- all of them

// The qubit becomes the Pauli.
fn set_pauli(x: &mut [u64], z: &mut [u64], qubit: usize, pauli: PauliMatrix)
    ensures { PauliSet qubit pauli x.old z.old x.new z.new }
{
    encoding::set_qubit(x, z, QubitNumber(qubit), pauli);
}

// Whether a text is that of a row of n qubits, which is then in x and z; they hold nothing when it starts.
fn scan(n: usize, s: &[u8], x: &mut [u64], z: &mut [u64]) -> bool
    requires n_le_max_qubits { n ≤ max_qubits }
    requires holding { Holding max_words (blank n []) x.old z.old }
    ensures { Scanned n s.now x.new z.new result }
{
    let mut q: usize = 0;
    let mut at: usize = 0;
    // no `for`: each turn goes on behind what it read
    while at < s.len() {
        let Some(r) = next(n, s, at, q) else {
            return false;
        };
        set_pauli(x, z, r.qubit, r.pauli);
        q = r.qubit + 1;
        at = r.at;
    }
    true
}

// ---- the row

// The first words of both parts.
fn copy_row(x: &mut [u64], z: &mut [u64], xs: &[u64], zs: &[u64])
    requires { (length x.old ≤ length xs.now) × (length z.old ≤ length zs.now) }
    ensures { (x.new ≡ take (length x.old) xs.now)
        × (z.new ≡ take (length z.old) zs.now) }
{
    let n = x.len();
    x.copy_from_slice(&xs[..n]);
    let n = z.len();
    z.copy_from_slice(&zs[..n]);
}

// The words of the longest row.
const MAX_WORDS: usize = (encoding::MAX_QUBITS + 63) / 64;

// A text into the two parts of a row, if it is one.
fn parse_row(n: usize, s: &[u8], x: &mut [u64], z: &mut [u64]) -> bool
    requires { (n ≤ max_qubits) × (length x.old ≡ words_of n) × (length z.old ≡ words_of n) }
    ensures { RowParsed n s.now x.old z.old x.new z.new result }
{
    let mut xs = [0u64; MAX_WORDS];
    let mut zs = [0u64; MAX_WORDS];
    if !scan(n, s, &mut xs, &mut zs) {
        return false;
    }
    copy_row(x, z, &xs, &zs);
    true
}

// A text into row r, if it is one.
fn parse_at(
    n: usize,
    m: usize,
    x: &mut [u64],
    z: &mut [u64],
    phases: &[u64],
    r: usize,
    s: &[u8],
) -> bool
    requires sound { Sound n (mem_of m x.old z.old phases.now) }
    requires r_lt_m { r < m }
    ensures { SetParsed n (mem_of m x.old z.old phases.now) r s.now
        (mem_of m x.new z.new phases.now) result }
{
    let span = row_span(r, n, m);
    parse_row(
        n,
        s,
        &mut x[span.start..span.end],
        &mut z[span.start..span.end],
    )
}

// A row becomes the row whose text it is.
pub fn parse_elem(
    n: usize,
    m: usize,
    x: &mut [u64],
    z: &mut [u64],
    phases: &[u64],
    row: RowNumber,
    text: &[u8],
) -> Result<(), Refusal>
    ensures { ParseElem n (mem_of m x.old z.old phases.now) row.0 text.now
        (mem_of m x.new z.new phases.now) result }
{
    encoding::row_fault(&RowSet { n, m, x, z, phases }, m <= row.0)?;
    if parse_at(n, m, x, z, phases, row.0, text) {
        return Ok(());
    }
    Err(Refusal::NO_TEXT)
}
