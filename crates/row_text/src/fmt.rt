// A row into text. Its length is found first, so that a text that does not fit leaves the output as it was.
ghost use Rattle.std.specs.Prelude.{◌≡◌, true, ◌++◌, ◌∷◌, suc, ◌+◌, ◌-◌, ◌*◌, ◌≤◌, ◌<◌, length, drop};
ghost use Rattle.text.specs.Numbers.{numeral};
ghost use Rattle.text.specs.Readers.{Laid};
ghost use Rattle.encoding.specs.Limits.{max_qubits, max_rows, words_of};
ghost use Rattle.encoding.specs.Words.{qubits};
ghost use Rattle.encoding.specs.Set.{rows_of, Sound, set_of};
ghost use Rattle.cmpnt_list.specs.Workers.{RowAt};
ghost use Rattle.row_text.specs.Text.{spell, spaced, text_of};
ghost use Rattle.row_text.specs.Calls.{TextWritten, FmtElem};
ghost use Rattle.row_text.specs.Workers.{falls_short};
ghost use Rattle.row_text.specs.Workers.{LetterIs, short, piece_at, NoneFrom, Steps};

use encoding::{Refusal, RowSet};
use pauli::{PauliMatrix, QubitNumber, RowNumber};
use std::ops::Range;

// The byte of a Pauli; none for I.
fn letter(p: PauliMatrix) -> Option<u8>
    ensures { LetterIs p result }
{
    match p {
        PauliMatrix::I => None,
        PauliMatrix::X => Some(b'X'),
        PauliMatrix::Y => Some(b'Y'),
        PauliMatrix::Z => Some(b'Z'),
    }
}

// ---- what is written next

// Whether qubit q is the first of a word that holds I alone.
fn starts_empty(x: &[u64], z: &[u64], q: usize) -> bool
    ensures { result ≡ true → NoneFrom x.now z.now q }
{
    let j = q / 64;
    if q % 64 != 0 {
        return false;
    }
    if j >= x.len() {
        return false;
    }
    if j >= z.len() {
        return false;
    }
    (x[j] == 0) & (z[j] == 0)
}

// The Pauli of a qubit, and the qubit to look at next.
#[derive(Drop)]
struct Ahead {
    pauli: PauliMatrix,
    next: usize,
}

// An empty word is one step.
fn step(n: usize, x: &[u64], z: &[u64], q: usize) -> Ahead
    requires { (q < n) × (n ≤ max_qubits) }
    ensures { Steps (qubits n x.now z.now) q result.pauli result.next }
{
    if starts_empty(x, z, q) {
        return Ahead {
            pauli: PauliMatrix::I,
            next: q + 64,
        };
    }
    Ahead {
        pauli: encoding::get_qubit(x, z, QubitNumber(q)),
        next: q + 1,
    }
}

// ---- the length

// How many digits the number of a qubit has.
fn digits(q: usize) -> usize
    requires { q < max_qubits }
    ensures { (result ≡ length (numeral 10 q)) × (result ≤ 4) }
{
    if q < 10 {
        return 1;
    }
    if q < 100 {
        return 2;
    }
    if q < 1000 {
        return 3;
    }
    4
}

// How many bytes a Pauli takes: its letter and its number, and the space before them; none for I.
fn piece_size(p: PauliMatrix, q: usize) -> usize
    requires { q < max_qubits }
    ensures { (result ≡ length (spell q p)) × (result ≤ 6) }
{
    match p {
        PauliMatrix::I => 0,
        _ => digits(q) + 2,
    }
}

// The length of the text with a space before it.
fn spaced_size(n: usize, x: &[u64], z: &[u64]) -> usize
    requires { n ≤ max_qubits }
    ensures { result ≡ length (spaced 0 (qubits n x.now z.now)) }
{
    let mut size: usize = 0;
    let mut q: usize = 0;
    // no `for`: an empty word is one step of 64 qubits
    while q < n {
        let s = step(n, x, z, q);
        size += piece_size(s.pauli, q);
        q = s.next;
    }
    size
}

// ---- the bytes, which have room: the place behind them

fn put_short(out: &mut [u8], at: usize, c: u8, q: usize) -> usize
    requires { (q < max_qubits) × (at + length (short c q) ≤ length out.old) }
    ensures { Laid (short c q) out.old at out.new result }
{
    let at = text::put_byte(out, at, c).unwrap();
    text::put_decimal(out, at, q as u64).unwrap()
}

// The same behind a space.
fn put_behind(out: &mut [u8], at: usize, c: u8, q: usize) -> usize
    requires { (q < max_qubits) × (at + suc (length (short c q)) ≤ length out.old) }
    ensures { Laid (32 ∷ short c q) out.old at out.new result }
{
    let at = text::put_byte(out, at, b' ').unwrap();
    put_short(out, at, c, q)
}

// A Pauli with its number; at the start of the output no space stands before it.
fn put_piece(out: &mut [u8], at: usize, p: PauliMatrix, q: usize) -> usize
    requires { (q < max_qubits) × (at + length (piece_at at q p) ≤ length out.old) }
    ensures { Laid (piece_at at q p) out.old at out.new result }
{
    let Some(c) = letter(p) else {
        return at;
    };
    if at == 0 {
        return put_short(out, at, c, q);
    }
    put_behind(out, at, c, q)
}

// The text of a row, which has room.
fn put_row(n: usize, x: &[u64], z: &[u64], out: &mut [u8])
    requires n_le_max_qubits { n ≤ max_qubits }
    requires z_in_bounds { length (text_of (qubits n x.now z.now)) ≤ length out.old }
    ensures { out.new ≡ text_of (qubits n x.now z.now)
        ++ drop (length (text_of (qubits n x.now z.now))) out.old }
{
    let mut at: usize = 0;
    let mut q: usize = 0;
    // no `for`: an empty word is one step of 64 qubits
    while q < n {
        let s = step(n, x, z, q);
        at = put_piece(out, at, s.pauli, q);
        q = s.next;
    }
}

// ---- the call

// The text of a row that lies in x and z.
fn fmt_row(n: usize, x: &[u64], z: &[u64], out: &mut [u8]) -> Result<usize, Refusal>
    requires { n ≤ max_qubits }
    ensures { TextWritten (falls_short (qubits n x.now z.now) out.old)
        (qubits n x.now z.now) out.old out.new result }
{
    let size = spaced_size(n, x, z).saturating_sub(1);
    if size > out.len() {
        return Err(Refusal::SHORT_OUTPUT);
    }
    put_row(n, x, z, out);
    Ok(size)
}

// The text of row r.
fn fmt_at(set: &RowSet<'_>, r: usize, out: &mut [u8]) -> Result<usize, Refusal>
    requires sound { Sound set.now.n (set_of set.now) }
    requires r_lt_m { r < set.now.m }
    ensures { TextWritten (falls_short (rows_of set.now.n (set_of set.now) r).ps out.old)
        (rows_of set.now.n (set_of set.now) r).ps out.old out.new result }
{
    let s = row_span(r, set.n, set.m);
    fmt_row(set.n, &set.x[s.start..s.end], &set.z[s.start..s.end], out)
}

// Where row r of m rows of n qubits lies: as in `cmpnt_list`, where it asks for a row of the set, which no public function may.
pub(crate) fn row_span(r: usize, n: usize, m: usize) -> Range<usize>
    requires { (r < m) × (n ≤ max_qubits) × (m ≤ max_rows) }
    ensures { RowAt r (words_of n) m result.start result.end }
{
    let w = encoding::words(n);
    let a = r * w;
    a..a + w
}

// The text of a row into the lent output, and its length.
pub fn fmt_elem(set: &RowSet<'_>, row: RowNumber, out: &mut [u8]) -> Result<usize, Refusal>
    ensures { FmtElem set.now.n (set_of set.now) row.0 out.old out.new result }
{
    encoding::row_fault(set, set.m <= row.0)?;
    fmt_at(set, row.0, out)
}
