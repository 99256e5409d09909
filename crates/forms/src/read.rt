// The parts that lines have in common. A reader answers what it reads and the place behind it, or none where no such fields stand.
ghost use Rattle.std.specs.Prelude.{◌≡◌, length};
ghost use Rattle.text.specs.Numbers.{number, octet, integer, float};
ghost use Rattle.text.specs.Lists.{list, log};
ghost use Rattle.text.specs.Lines.{field, field_of, marked};
ghost use Rattle.forms.specs.Form.{letter};
ghost use Rattle.forms.specs.Fields.{Finds, itself, Any, NumberRead, ListRead, closed_at};
ghost use Rattle.forms.specs.Fields.{TwoRead, BetweenRead, SetRead, RowsRead, ListsRead, LengthsRead, RestRead, WholeRead, FloatsRead, VectorsRead};
ghost use Rattle.forms.specs.Workers.{Names};

use pauli::PauliMatrix;

// What is read where the line ends behind it.
pub fn last<T: Drop>(s: &[u8], read: Option<(T, usize)>) -> Option<T>
    ensures { result ≡ closed_at (length s.now) read }
{
    let (v, at) = read?;
    (at == s.len()).then_some(v)
}

// ---- single fields: those of `text`

// A number of at most `most`.
pub fn number(s: &[u8], at: usize, most: usize) -> Option<(usize, usize)>
    ensures { NumberRead (field (number 10 most)) most s.now at result }
{
    let (v, at) = text::number_field(s, at, most as u64)?;
    Some((v as usize, at))
}

// The same behind a comma.
fn number_behind(s: &[u8], at: usize, most: usize) -> Option<(usize, usize)>
    ensures { NumberRead (marked 44 (number 10 most)) most s.now at result }
{
    let (v, at) = text::number_after(b',', s, at, most as u64)?;
    Some((v as usize, at))
}

pub fn word(s: &[u8], at: usize) -> Option<(u64, usize)>
    ensures { Finds (field (number 16 18446744073709551615)) itself Any s.now at result }
{
    text::word_field(s, at)
}

// A list is answered by how many items it has.
pub fn words(s: &[u8], at: usize, out: &mut [u64]) -> Option<(usize, usize)>
    ensures { ListRead (field_of (list (number 16 18446744073709551615))) s.now at out.old out.new result }
{
    text::words_field(s, at, out).ok()
}

pub fn halves(s: &[u8], at: usize, out: &mut [u16]) -> Option<(usize, usize)>
    ensures { ListRead (field_of (list (number 10 65535))) s.now at out.old out.new result }
{
    text::halves_field(s, at, out).ok()
}

pub fn log(s: &[u8], at: usize, out: &mut [u16]) -> Option<(usize, usize)>
    ensures { ListRead (field_of (log (number 10 65535))) s.now at out.old out.new result }
{
    text::log_field(s, at, out).ok()
}

pub fn octets(s: &[u8], at: usize, out: &mut [u8]) -> Option<(usize, usize)>
    ensures { ListRead (field_of (list octet)) s.now at out.old out.new result }
{
    text::octets_field(s, at, out).ok()
}

fn ints(s: &[u8], at: usize, out: &mut [i32]) -> Option<(usize, usize)>
    ensures { ListRead (field_of (list (integer 2147483647))) s.now at out.old out.new result }
{
    text::ints_field(s, at, out).ok()
}

fn floats(s: &[u8], at: usize, out: &mut [f64]) -> Option<(usize, usize)>
    ensures { ListRead (field_of (list float)) s.now at out.old out.new result }
{
    text::floats_field(s, at, out).ok()
}

// ---- sets

// X Z P: how many X words, Z words and phase words.
#[derive(Clone, Copy)]
pub struct Set {
    pub x: usize,
    pub z: usize,
    pub p: usize,
}

pub fn read_set(
    s: &[u8],
    at: usize,
    x: &mut [u64],
    z: &mut [u64],
    p: &mut [u64],
) -> Option<(Set, usize)>
    ensures { SetRead s.now at x.old x.new z.old z.new p.old p.new result }
{
    let (x, at) = words(s, at, x)?;
    let (z, at) = words(s, at, z)?;
    let (p, at) = words(s, at, p)?;
    Some((Set { x, z, p }, at))
}

// n m X Z P: the same behind n and m.
#[derive(Clone, Copy)]
pub struct Rows {
    pub n: usize,
    pub m: usize,
    pub x: usize,
    pub z: usize,
    pub p: usize,
}

pub fn read_rows(
    s: &[u8],
    at: usize,
    x: &mut [u64],
    z: &mut [u64],
    p: &mut [u64],
) -> Option<(Rows, usize)>
    ensures { RowsRead s.now at x.old x.new z.old z.new p.old p.new result }
{
    let (n, at) = number(s, at, usize::MAX)?;
    let (m, at) = number(s, at, usize::MAX)?;
    let (Set { x, z, p }, at) = read_set(s, at, x, z, p)?;
    Some((Rows { n, m, x, z, p }, at))
}

// ---- numbers

// a b
#[derive(Clone, Copy)]
pub struct Two {
    pub a: usize,
    pub b: usize,
}

pub fn read_two(s: &[u8], at: usize) -> Option<(Two, usize)>
    ensures { TwoRead s.now at result }
{
    let (a, at) = number(s, at, usize::MAX)?;
    let (b, at) = number(s, at, usize::MAX)?;
    Some((Two { a, b }, at))
}

// order listed extra
#[derive(Clone, Copy)]
pub struct Lists {
    pub order: usize,
    pub listed: usize,
    pub extra: usize,
}

pub fn read_lists(
    s: &[u8],
    at: usize,
    order: &mut [u16],
    listed: &mut [u16],
    extra: &mut [u16],
) -> Option<(Lists, usize)>
    ensures { ListsRead s.now at order.old order.new listed.old listed.new extra.old extra.new result }
{
    let (order, at) = halves(s, at, order)?;
    let (listed, at) = halves(s, at, listed)?;
    let (extra, at) = halves(s, at, extra)?;
    Some((
        Lists {
            order,
            listed,
            extra,
        },
        at,
    ))
}

// lx,lz,lp,lc
#[derive(Clone, Copy)]
pub struct Lengths {
    pub x: usize,
    pub z: usize,
    pub p: usize,
    pub c: usize,
}

pub fn read_lengths(
    s: &[u8],
    at: usize,
    i: usize,
    j: usize,
    k: usize,
    m: usize,
) -> Option<(Lengths, usize)>
    ensures { LengthsRead i j k m s.now at result }
{
    let (x, at) = number(s, at, i)?;
    let (z, at) = number_behind(s, at, j)?;
    let (p, at) = number_behind(s, at, k)?;
    let (c, at) = number_behind(s, at, m)?;
    Some((Lengths { x, z, p, c }, at))
}

// ---- letters, and the line's rest

// The Pauli of a letter.
fn named(c: u8) -> Option<PauliMatrix>
    ensures { Names c result }
{
    match c {
        b'I' => Some(PauliMatrix::I),
        b'X' => Some(PauliMatrix::X),
        b'Y' => Some(PauliMatrix::Y),
        b'Z' => Some(PauliMatrix::Z),
        _ => None,
    }
}

// A Pauli's letter behind a space.
pub fn read_letter(s: &[u8], at: usize) -> Option<(PauliMatrix, usize)>
    ensures { Finds (field letter) itself Any s.now at result }
{
    if at >= s.len() || s[at] != b' ' {
        return None;
    }
    let i = at + 1;
    if i >= s.len() {
        return None;
    }
    let p = named(s[i])?;
    Some((p, i + 1))
}

// The text behind the space that the line goes on with; an empty one where it ends.
pub fn read_rest(s: &[u8], at: usize) -> Option<&[u8]>
    ensures { RestRead s.now at result (λ t. t.now) }
{
    if at >= s.len() {
        return Some(&s[s.len()..]);
    }
    if s[at] != b' ' {
        return None;
    }
    Some(&s[at + 1..])
}

// ---- matrix elements

// n X Z RE IM: the terms, how many words and parts of each list.
#[derive(Clone, Copy)]
pub struct Terms {
    pub n: usize,
    pub x: usize,
    pub z: usize,
    pub re: usize,
    pub im: usize,
}

pub fn read_whole(
    s: &[u8],
    at: usize,
    x: &mut [u64],
    z: &mut [u64],
    re: &mut [i32],
    im: &mut [i32],
) -> Option<(Terms, usize)>
    ensures { WholeRead s.now at x.old x.new z.old z.new
        re.old re.new im.old im.new result }
{
    let (n, at) = number(s, at, usize::MAX)?;
    let (x, at) = words(s, at, x)?;
    let (z, at) = words(s, at, z)?;
    let (re, at) = ints(s, at, re)?;
    let (im, at) = ints(s, at, im)?;
    Some((Terms { n, x, z, re, im }, at))
}

pub fn read_floats(
    s: &[u8],
    at: usize,
    x: &mut [u64],
    z: &mut [u64],
    re: &mut [f64],
    im: &mut [f64],
) -> Option<(Terms, usize)>
    ensures { FloatsRead s.now at x.old x.new z.old z.new
        re.old re.new im.old im.new result }
{
    let (n, at) = number(s, at, usize::MAX)?;
    let (x, at) = words(s, at, x)?;
    let (z, at) = words(s, at, z)?;
    let (re, at) = floats(s, at, re)?;
    let (im, at) = floats(s, at, im)?;
    Some((Terms { n, x, z, re, im }, at))
}

// W RE IM: the words and the parts of a state.
#[derive(Clone, Copy)]
pub struct Vectors {
    pub w: usize,
    pub re: usize,
    pub im: usize,
}

pub fn read_vectors(
    s: &[u8],
    at: usize,
    w: &mut [u64],
    re: &mut [i32],
    im: &mut [i32],
) -> Option<(Vectors, usize)>
    ensures { VectorsRead s.now at w.old w.new
        re.old re.new im.old im.new result }
{
    let (w, at) = words(s, at, w)?;
    let (re, at) = ints(s, at, re)?;
    let (im, at) = ints(s, at, im)?;
    Some((Vectors { w, re, im }, at))
}

// bra ket
#[derive(Clone, Copy)]
pub struct Between {
    pub bra: u64,
    pub ket: u64,
}

pub fn read_between(s: &[u8], at: usize) -> Option<(Between, usize)>
    ensures { BetweenRead s.now at result }
{
    let (bra, at) = word(s, at)?;
    let (ket, at) = word(s, at)?;
    Some((Between { bra, ket }, at))
}
