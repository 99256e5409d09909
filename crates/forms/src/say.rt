// The answers of docs/CALLS.md, piece by piece behind what was written before, where that fitted.
ghost use Rattle.std.specs.Prelude.{◌≡◌, cond, [], ◌∷◌, ◌++◌, ◌*◌, ◌<◌, take};
ghost use Rattle.forms.specs.Answers.{Says, number_text, word_text, integer_text, float_text, words_text, numbers_text, set_text, end as lineEnd, bad_line, refuse as refused, ok_number, acted_word, letter_of, ok_letter, got_line, phase_line, truth_line, tally_text, ok_counts, count_line, ok_set, changed_line, ok_product, product_line, ok_pairs, pair_line, ok_acted, act_line, ok_matrix, matrix_line, text_field, ok_text, written_line, pairs_of, pair_text, pairs_text, standing as standingText, ok_reduced, full_log, reduce_line, verdict_at, verdict_plain, check_line, undo_line, octets_text, ok_file, file_line, ok_whole, ok_float, whole_line, float_line, total_line};
ghost use Rattle.text.specs.Numbers.{numeral, digits as Numbers·digits};
ghost use Rattle.text.specs.Lists.{joined, listed};

use encoding::Refusal;
use pauli::{ComplexSign, PauliMatrix};
use replay::{NotUndone, Verdict};
use terms::{Canonicalized, Stopped};

// ---- a piece

pub fn letters(out: &mut [u8], at: usize, s: &[u8]) -> Option<usize>
    ensures { Says s.now out.old at out.new result }
{
    text::put_text(out, at, s)
}

fn mark(out: &mut [u8], at: usize, c: u8) -> Option<usize>
    ensures { Says (c ∷ []) out.old at out.new result }
{
    text::put_byte(out, at, c)
}

// ---- a space, and a field

fn number(out: &mut [u8], at: usize, v: u64) -> Option<usize>
    ensures { Says (number_text v) out.old at out.new result }
{
    let at = mark(out, at, b' ')?;
    text::put_decimal(out, at, v)
}

fn word(out: &mut [u8], at: usize, v: u64) -> Option<usize>
    ensures { Says (word_text v) out.old at out.new result }
{
    let at = mark(out, at, b' ')?;
    text::put_hexadecimal(out, at, v)
}

fn integer(out: &mut [u8], at: usize, v: i64) -> Option<usize>
    ensures { Says (integer_text v) out.old at out.new result }
{
    let at = mark(out, at, b' ')?;
    text::put_integer(out, at, v)
}

fn float(out: &mut [u8], at: usize, v: f64) -> Option<usize>
    ensures { Says (float_text v) out.old at out.new result }
{
    let at = mark(out, at, b' ')?;
    text::put_float(out, at, v)
}

fn words(out: &mut [u8], at: usize, xs: &[u64]) -> Option<usize>
    ensures { Says (words_text xs.now) out.old at out.new result }
{
    let at = mark(out, at, b' ')?;
    text::put_words(out, at, xs)
}

fn halves(out: &mut [u8], at: usize, xs: &[u16]) -> Option<usize>
    ensures { Says (numbers_text xs.now) out.old at out.new result }
{
    let at = mark(out, at, b' ')?;
    text::put_halves(out, at, xs)
}

// ---- pairs

// The pair a:b.
fn pair(out: &mut [u8], at: usize, a: u16, b: u16) -> Option<usize>
    ensures { Says (pair_text (a, b)) out.old at out.new result }
{
    let at = text::put_decimal(out, at, a as u64)?;
    let at = text::put_byte(out, at, b':')?;
    text::put_decimal(out, at, b as u64)
}

// A comma and a pair.
fn further(out: &mut [u8], at: usize, a: u16, b: u16) -> Option<usize>
    ensures { Says (44 ∷ pair_text (a, b)) out.old at out.new result }
{
    let at = text::put_byte(out, at, b',')?;
    pair(out, at, a, b)
}

// A pair, and of the others elements 0 and 1, 2 and 3, and so on; one that is left over is not written.
fn joined_pairs(out: &mut [u8], at: usize, a: u16, b: u16, others: &[u16]) -> Option<usize>
    ensures { Says (joined pair_text (a, b) (pairs_of others.now)) out.old at out.new result }
{
    let mut end = pair(out, at, a, b)?;
    for i in 0..others.len() / 2 {
        end = further(out, end, others[2 * i], others[2 * i + 1])?;
    }
    Some(end)
}

// Pairs with commas between them; a minus for none.
fn put_pairs(out: &mut [u8], at: usize, xs: &[u16]) -> Option<usize>
    ensures { Says (listed pair_text (pairs_of xs.now)) out.old at out.new result }
{
    match xs {
        [a, b, others @ ..] => joined_pairs(out, at, *a, *b, others),
        _ => text::put_byte(out, at, b'-'),
    }
}

fn pairs(out: &mut [u8], at: usize, xs: &[u16]) -> Option<usize>
    ensures { Says (pairs_text xs.now) out.old at out.new result }
{
    let at = mark(out, at, b' ')?;
    put_pairs(out, at, xs)
}

// ---- several fields, and the line's end

fn set(out: &mut [u8], at: usize, x: &[u64], z: &[u64], p: &[u64]) -> Option<usize>
    ensures { Says (set_text x.now z.now p.now) out.old at out.new result }
{
    let at = words(out, at, x)?;
    let at = words(out, at, z)?;
    words(out, at, p)
}

fn end(out: &mut [u8], at: usize) -> Option<usize>
    ensures { Says (10 ∷ []) out.old at out.new result }
{
    mark(out, at, b'\n')
}

fn set_end(out: &mut [u8], at: usize, x: &[u64], z: &[u64], p: &[u64]) -> Option<usize>
    ensures { Says (set_text x.now z.now p.now ++ lineEnd) out.old at out.new result }
{
    let at = set(out, at, x, z, p)?;
    end(out, at)
}

fn number_end(out: &mut [u8], at: usize, v: u64) -> Option<usize>
    ensures { Says (number_text v ++ lineEnd) out.old at out.new result }
{
    let at = number(out, at, v)?;
    end(out, at)
}

fn words_end(out: &mut [u8], at: usize, xs: &[u64]) -> Option<usize>
    ensures { Says (words_text xs.now ++ lineEnd) out.old at out.new result }
{
    let at = words(out, at, xs)?;
    end(out, at)
}

// ---- lines

pub fn bad(out: &mut [u8], at: usize) -> Option<usize>
    ensures { Says (bad_line) out.old at out.new result }
{
    letters(out, at, b"bad line\n")
}

#[tactic(auto, unfolding(crate::specs::Answers::refuse))]
fn refuse(out: &mut [u8], at: usize, k: Refusal) -> Option<usize>
    ensures { Says (refused k.0) out.old at out.new result }
{
    let at = letters(out, at, b"refuse")?;
    number_end(out, at, k.0 as u64)
}

#[tactic(auto, unfolding(crate::specs::Answers::ok_number))]
pub fn ok_number(out: &mut [u8], at: usize, v: u64) -> Option<usize>
    ensures { Says (ok_number v) out.old at out.new result }
{
    let at = letters(out, at, b"ok")?;
    number_end(out, at, v)
}

// ok e word
#[tactic(auto, unfolding(crate::specs::Answers::acted_word))]
pub fn acted_word(out: &mut [u8], at: usize, e: u64, state: u64) -> Option<usize>
    ensures { Says (acted_word e state) out.old at out.new result }
{
    let at = letters(out, at, b"ok")?;
    let at = number(out, at, e)?;
    let at = word(out, at, state)?;
    end(out, at)
}

fn letter_of(p: PauliMatrix) -> u8
    ensures { result ≡ letter_of p }
{
    match p {
        PauliMatrix::I => b'I',
        PauliMatrix::X => b'X',
        PauliMatrix::Y => b'Y',
        PauliMatrix::Z => b'Z',
    }
}

#[tactic(auto, unfolding(crate::specs::Answers::ok_letter))]
fn ok_letter(out: &mut [u8], at: usize, p: PauliMatrix) -> Option<usize>
    ensures { Says (ok_letter p) out.old at out.new result }
{
    let at = letters(out, at, b"ok ")?;
    let at = mark(out, at, letter_of(p))?;
    end(out, at)
}

pub fn got(out: &mut [u8], at: usize, g: Result<PauliMatrix, Refusal>) -> Option<usize>
    ensures { Says (got_line g) out.old at out.new result }
{
    match g {
        Ok(p) => ok_letter(out, at, p),
        Err(k) => refuse(out, at, k),
    }
}

pub fn phase(out: &mut [u8], at: usize, a: Result<ComplexSign, Refusal>) -> Option<usize>
    ensures { Says (phase_line a) out.old at out.new result }
{
    match a {
        Ok(e) => ok_number(out, at, e.0 as u64),
        Err(k) => refuse(out, at, k),
    }
}

fn bit(b: bool) -> u64
    ensures { result ≡ cond b 1 0 }
{
    if b { 1 } else { 0 }
}

pub fn truth(out: &mut [u8], at: usize, a: Result<bool, Refusal>) -> Option<usize>
    ensures { Says (truth_line a) out.old at out.new result }
{
    match a {
        Ok(b) => ok_number(out, at, bit(b)),
        Err(k) => refuse(out, at, k),
    }
}

// A call refuses all four counts or none.
fn tally(out: &mut [u8], at: usize, a: Result<u64, Refusal>) -> Option<usize>
    ensures { Says (tally_text a) out.old at out.new result }
{
    match a {
        Ok(k) => number(out, at, k),
        Err(_) => letters(out, at, b""),
    }
}

#[tactic(auto, unfolding(crate::specs::Answers::ok_counts))]
fn ok_counts(
    out: &mut [u8],
    at: usize,
    i: u64,
    x: Result<u64, Refusal>,
    y: Result<u64, Refusal>,
    z: Result<u64, Refusal>,
) -> Option<usize>
    ensures { Says (ok_counts i x y z) out.old at out.new result }
{
    let at = letters(out, at, b"ok")?;
    let at = number(out, at, i)?;
    let at = tally(out, at, x)?;
    let at = tally(out, at, y)?;
    let at = tally(out, at, z)?;
    end(out, at)
}

pub fn counts(
    out: &mut [u8],
    at: usize,
    i: Result<u64, Refusal>,
    x: Result<u64, Refusal>,
    y: Result<u64, Refusal>,
    z: Result<u64, Refusal>,
) -> Option<usize>
    ensures { Says (count_line i x y z) out.old at out.new result }
{
    match i {
        Ok(k) => ok_counts(out, at, k, x, y, z),
        Err(k) => refuse(out, at, k),
    }
}

#[tactic(auto, unfolding(crate::specs::Answers::ok_set))]
fn ok_set(out: &mut [u8], at: usize, x: &[u64], z: &[u64], p: &[u64]) -> Option<usize>
    ensures { Says (ok_set x.now z.now p.now) out.old at out.new result }
{
    let at = letters(out, at, b"ok")?;
    set_end(out, at, x, z, p)
}

pub fn changed(
    out: &mut [u8],
    at: usize,
    a: Result<(), Refusal>,
    x: &[u64],
    z: &[u64],
    p: &[u64],
) -> Option<usize>
    ensures { Says (changed_line a x.now z.now p.now) out.old at out.new result }
{
    match a {
        Ok(()) => ok_set(out, at, x, z, p),
        Err(k) => refuse(out, at, k),
    }
}

#[tactic(auto, unfolding(crate::specs::Answers::ok_product))]
fn ok_product(out: &mut [u8], at: usize, c: u16, x: &[u64], z: &[u64], p: &[u64]) -> Option<usize>
    ensures { Says (ok_product c x.now z.now p.now) out.old at out.new result }
{
    let at = letters(out, at, b"ok")?;
    let at = set(out, at, x, z, p)?;
    number_end(out, at, c as u64)
}

pub fn product(
    out: &mut [u8],
    at: usize,
    a: Result<u16, Refusal>,
    x: &[u64],
    z: &[u64],
    p: &[u64],
) -> Option<usize>
    ensures { Says (product_line a x.now z.now p.now) out.old at out.new result }
{
    match a {
        Ok(c) => ok_product(out, at, c, x, z, p),
        Err(k) => refuse(out, at, k),
    }
}

#[tactic(auto, unfolding(crate::specs::Answers::ok_pairs))]
fn ok_pairs(out: &mut [u8], at: usize, x: &[u64], z: &[u64], p: &[u64], c: &[u16]) -> Option<usize>
    ensures { Says (ok_pairs x.now z.now p.now c.now) out.old at out.new result }
{
    let at = letters(out, at, b"ok")?;
    let at = set(out, at, x, z, p)?;
    let at = halves(out, at, c)?;
    end(out, at)
}

pub fn paired(
    out: &mut [u8],
    at: usize,
    a: Result<(), Refusal>,
    x: &[u64],
    z: &[u64],
    p: &[u64],
    c: &[u16],
) -> Option<usize>
    ensures { Says (pair_line a x.now z.now p.now c.now) out.old at out.new result }
{
    match a {
        Ok(()) => ok_pairs(out, at, x, z, p, c),
        Err(k) => refuse(out, at, k),
    }
}

#[tactic(auto, unfolding(crate::specs::Answers::ok_acted))]
fn ok_acted(out: &mut [u8], at: usize, e: u8, state: &[u64]) -> Option<usize>
    ensures { Says (ok_acted e state.now) out.old at out.new result }
{
    let at = letters(out, at, b"ok")?;
    let at = number(out, at, e as u64)?;
    words_end(out, at, state)
}

pub fn acted(
    out: &mut [u8],
    at: usize,
    a: Result<ComplexSign, Refusal>,
    state: &[u64],
) -> Option<usize>
    ensures { Says (act_line a state.now) out.old at out.new result }
{
    match a {
        Ok(e) => ok_acted(out, at, e.0, state),
        Err(k) => refuse(out, at, k),
    }
}

#[tactic(auto, unfolding(crate::specs::Answers::ok_matrix))]
fn ok_matrix(out: &mut [u8], at: usize, m: &[u64]) -> Option<usize>
    ensures { Says (ok_matrix m.now) out.old at out.new result }
{
    let at = letters(out, at, b"ok")?;
    words_end(out, at, m)
}

pub fn matrix(out: &mut [u8], at: usize, a: Result<(), Refusal>, m: &[u64]) -> Option<usize>
    ensures { Says (matrix_line a m.now) out.old at out.new result }
{
    match a {
        Ok(()) => ok_matrix(out, at, m),
        Err(k) => refuse(out, at, k),
    }
}

// ---- the text of a row

// A space and the text; nothing where it is empty.
fn text_field(out: &mut [u8], at: usize, s: &[u8]) -> Option<usize>
    ensures { Says (text_field s.now) out.old at out.new result }
{
    if s.is_empty() {
        return letters(out, at, b"");
    }
    let at = mark(out, at, b' ')?;
    letters(out, at, s)
}

// The first n of the bytes.
fn text_part(out: &mut [u8], at: usize, n: usize, b: &[u8]) -> Option<usize>
    ensures { Says (text_field (take n b.now)) out.old at out.new result }
{
    if n <= b.len() {
        return text_field(out, at, &b[0..n]);
    }
    text_field(out, at, b)
}

#[tactic(auto, unfolding(crate::specs::Answers::ok_text))]
fn ok_text(out: &mut [u8], at: usize, n: usize, b: &[u8]) -> Option<usize>
    ensures { Says (ok_text n b.now) out.old at out.new result }
{
    let at = letters(out, at, b"ok")?;
    let at = number(out, at, n as u64)?;
    let at = text_part(out, at, n, b)?;
    end(out, at)
}

pub fn written(out: &mut [u8], at: usize, a: Result<usize, Refusal>, b: &[u8]) -> Option<usize>
    ensures { Says (written_line a b.now) out.old at out.new result }
{
    match a {
        Ok(n) => ok_text(out, at, n, b),
        Err(k) => refuse(out, at, k),
    }
}

// ---- reductions

// The first entries of the log, and the rows.
#[tactic(auto, unfolding(crate::specs::Answers::standing))]
fn standing(
    out: &mut [u8],
    at: usize,
    n: usize,
    log: &[u16],
    x: &[u64],
    z: &[u64],
    p: &[u64],
) -> Option<usize>
    ensures { Says (standingText n log.now x.now z.now p.now) out.old at out.new result }
{
    let at = entries(out, at, n, log)?;
    set_end(out, at, x, z, p)
}

fn entries(out: &mut [u8], at: usize, n: usize, log: &[u16]) -> Option<usize>
    ensures { Says (pairs_text (take (n * 2) log.now)) out.old at out.new result }
{
    if n <= log.len() / 2 {
        let e = n * 2;
        return pairs(out, at, &log[0..e]);
    }
    pairs(out, at, log)
}

#[tactic(auto, unfolding(crate::specs::Answers::ok_reduced))]
fn ok_reduced(
    out: &mut [u8],
    at: usize,
    n: usize,
    t: usize,
    log: &[u16],
    x: &[u64],
    z: &[u64],
    p: &[u64],
) -> Option<usize>
    ensures { Says (ok_reduced n t log.now x.now z.now p.now) out.old at out.new result }
{
    let at = letters(out, at, b"ok")?;
    let at = number(out, at, n as u64)?;
    let at = number(out, at, t as u64)?;
    standing(out, at, n, log, x, z, p)
}

#[tactic(auto, unfolding(crate::specs::Answers::full_log))]
fn full(
    out: &mut [u8],
    at: usize,
    n: usize,
    log: &[u16],
    x: &[u64],
    z: &[u64],
    p: &[u64],
) -> Option<usize>
    ensures { Says (full_log n log.now x.now z.now p.now) out.old at out.new result }
{
    let at = letters(out, at, b"refuse 8")?;
    let at = number(out, at, n as u64)?;
    standing(out, at, n, log, x, z, p)
}

pub fn reduced(
    out: &mut [u8],
    at: usize,
    a: Result<Canonicalized, Stopped>,
    log: &[u16],
    x: &[u64],
    z: &[u64],
    p: &[u64],
) -> Option<usize>
    ensures { Says (reduce_line a log.now x.now z.now p.now) out.old at out.new result }
{
    match a {
        Ok(Canonicalized { entries, t }) => ok_reduced(out, at, entries, t, log, x, z, p),
        Err(Stopped::Full(capacity)) => full(out, at, capacity, log, x, z, p),
        Err(Stopped::Refused(k)) => refuse(out, at, k),
    }
}

// A verdict with a number, and the rows.
#[tactic(auto, unfolding(crate::specs::Answers::verdict_at))]
fn verdict_at(
    out: &mut [u8],
    at: usize,
    name: &[u8],
    k: usize,
    x: &[u64],
    z: &[u64],
    p: &[u64],
) -> Option<usize>
    ensures { Says (verdict_at name.now k x.now z.now p.now) out.old at out.new result }
{
    let at = letters(out, at, name)?;
    let at = number(out, at, k as u64)?;
    set_end(out, at, x, z, p)
}

#[tactic(auto, unfolding(crate::specs::Answers::verdict_plain))]
fn verdict(out: &mut [u8], at: usize, name: &[u8], x: &[u64], z: &[u64], p: &[u64]) -> Option<usize>
    ensures { Says (verdict_plain name.now x.now z.now p.now) out.old at out.new result }
{
    let at = letters(out, at, name)?;
    set_end(out, at, x, z, p)
}

pub fn checked(
    out: &mut [u8],
    at: usize,
    a: Result<Verdict, Refusal>,
    x: &[u64],
    z: &[u64],
    p: &[u64],
) -> Option<usize>
    ensures { Says (check_line a x.now z.now p.now) out.old at out.new result }
{
    match a {
        Ok(Verdict::BadEntry(k)) => verdict_at(out, at, b"ok bad", k, x, z, p),
        Ok(Verdict::Differs(k)) => verdict_at(out, at, b"ok differs", k, x, z, p),
        Ok(Verdict::NotReduced) => verdict(out, at, b"ok notreduced", x, z, p),
        Ok(Verdict::Yes) => verdict(out, at, b"ok yes", x, z, p),
        Err(k) => refuse(out, at, k),
    }
}

pub fn undone(
    out: &mut [u8],
    at: usize,
    a: Result<(), NotUndone>,
    x: &[u64],
    z: &[u64],
    p: &[u64],
) -> Option<usize>
    ensures { Says (undo_line a x.now z.now p.now) out.old at out.new result }
{
    match a {
        Err(NotUndone::BadEntry(k)) => verdict_at(out, at, b"ok bad", k, x, z, p),
        Ok(()) => verdict(out, at, b"ok done", x, z, p),
        Err(NotUndone::Refused(k)) => refuse(out, at, k),
    }
}

// ---- log files

// A byte in two digits.
fn octet(out: &mut [u8], at: usize, v: u8) -> Option<usize>
    ensures { Says (Numbers·digits 16 2 v) out.old at out.new result }
{
    let at = text::put_hexadecimal(out, at, (v / 16) as u64)?;
    text::put_hexadecimal(out, at, (v % 16) as u64)
}

fn octets(out: &mut [u8], at: usize, xs: &[u8]) -> Option<usize>
    ensures { Says (octets_text xs.now) out.old at out.new result }
{
    let mut end = letters(out, at, b"")?;
    for b in xs {
        end = octet(out, end, *b)?;
    }
    Some(end)
}

// The first n of the bytes.
fn octets_part(out: &mut [u8], at: usize, n: usize, b: &[u8]) -> Option<usize>
    ensures { Says (octets_text (take n b.now)) out.old at out.new result }
{
    if n <= b.len() {
        return octets(out, at, &b[0..n]);
    }
    octets(out, at, b)
}

#[tactic(auto, unfolding(crate::specs::Answers::ok_file))]
fn ok_file(out: &mut [u8], at: usize, n: usize, b: &[u8]) -> Option<usize>
    ensures { Says (ok_file n b.now) out.old at out.new result }
{
    let at = letters(out, at, b"ok ")?;
    let at = octets_part(out, at, n, b)?;
    end(out, at)
}

pub fn filed(out: &mut [u8], at: usize, a: Result<usize, Refusal>, b: &[u8]) -> Option<usize>
    ensures { Says (file_line a b.now) out.old at out.new result }
{
    match a {
        Ok(n) => ok_file(out, at, n, b),
        Err(k) => refuse(out, at, k),
    }
}

// ---- matrix elements

#[tactic(auto, unfolding(crate::specs::Answers::ok_whole))]
fn ok_whole(out: &mut [u8], at: usize, re: i64, im: i64) -> Option<usize>
    ensures { Says (ok_whole re im) out.old at out.new result }
{
    let at = letters(out, at, b"ok")?;
    let at = integer(out, at, re)?;
    let at = integer(out, at, im)?;
    end(out, at)
}

pub fn whole(out: &mut [u8], at: usize, a: mat_elem::whole::Element) -> Option<usize>
    ensures { Says (whole_line a) out.old at out.new result }
{
    match a {
        Ok(Some(c)) => ok_whole(out, at, c.re, c.im),
        Ok(None) => letters(out, at, b"none\n"),
        Err(k) => refuse(out, at, k),
    }
}

#[tactic(auto, unfolding(crate::specs::Answers::ok_float))]
fn ok_float(out: &mut [u8], at: usize, re: f64, im: f64) -> Option<usize>
    ensures { Says (ok_float re im) out.old at out.new result }
{
    let at = letters(out, at, b"ok")?;
    let at = float(out, at, re)?;
    let at = float(out, at, im)?;
    end(out, at)
}

pub fn floating(out: &mut [u8], at: usize, a: mat_elem::float::Element) -> Option<usize>
    ensures { Says (float_line a) out.old at out.new result }
{
    match a {
        Ok(Some(c)) => ok_float(out, at, c.re, c.im),
        Ok(None) => letters(out, at, b"none\n"),
        Err(k) => refuse(out, at, k),
    }
}

pub fn total(out: &mut [u8], at: usize, a: mat_elem::states::Total) -> Option<usize>
    ensures { Says (total_line a) out.old at out.new result }
{
    match a {
        Ok(c) => ok_whole(out, at, c.re, c.im),
        Err(k) => refuse(out, at, k),
    }
}
