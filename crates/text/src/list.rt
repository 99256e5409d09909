// Lists out of text into lent slices, as fields of a line: a space, and then the list. A list that is longer than its slice is not read;
// what was taken of it by then stands there.
ghost use Rattle.std.specs.Prelude.{◌≡◌, List, ℕ, drop};
ghost use Rattle.text.specs.Readers.{Got, Reads};
ghost use Rattle.text.specs.Numbers.{number, octet as Numbers·octet, integer as Numbers·integer, float as Numbers·float};
ghost use Rattle.text.specs.Lists.{Fills, list, log, items_of, colon as Lists·colon, mark as Lists·mark, dash as Lists·dash};
ghost use Rattle.text.specs.Lines.{field_of};

use crate::read::{decimal, float, hexadecimal, integer, no_digit, octet, past, starts};

// A kind of item: how one is read.
trait Item<T: Copy> {
    ghost reads: { List ℕ → Got T };

    fn read(s: &[u8], at: usize) -> Option<(T, usize)>
        ensures { Reads reads s.now at result };
}

struct Word;

impl Item<u64> for Word {
    ghost reads = { number 16 18446744073709551615 };

    fn read(s: &[u8], at: usize) -> Option<(u64, usize)> {
        hexadecimal(s, at)
    }
}

struct Half;

impl Item<u16> for Half {
    ghost reads = { number 10 65535 };

    fn read(s: &[u8], at: usize) -> Option<(u16, usize)> {
        let (v, next) = decimal(s, at, 65535)?;
        Some((v as u16, next))
    }
}

struct Byte;

impl Item<u8> for Byte {
    ghost reads = { number 10 255 };

    fn read(s: &[u8], at: usize) -> Option<(u8, usize)> {
        let (v, next) = decimal(s, at, 255)?;
        Some((v as u8, next))
    }
}

struct Octet;

impl Item<u8> for Octet {
    ghost reads = { Numbers·octet };

    fn read(s: &[u8], at: usize) -> Option<(u8, usize)> {
        octet(s, at)
    }
}

struct Int;

impl Item<i32> for Int {
    ghost reads = { Numbers·integer 2147483647 };

    fn read(s: &[u8], at: usize) -> Option<(i32, usize)> {
        integer(s, at)
    }
}

struct Float;

impl Item<f64> for Float {
    ghost reads = { Numbers·float };

    fn read(s: &[u8], at: usize) -> Option<(f64, usize)> {
        float(s, at)
    }
}

// What stands between items: a colon behind a pair's first, a comma behind any other.
fn mark(first: bool) -> u8
    ensures { result ≡ Lists·mark first }
{
    if first { b':' } else { b',' }
}

// One item or more, in pairs or not, and no more than `out` has room for.
fn items<T: Copy, I: Item<T>>(
    s: &[u8],
    at: usize,
    pairs: bool,
    out: &mut [T],
) -> Result<(usize, usize), usize>
    ensures { Fills (items_of pairs pairs I.reads) s.now at out.old out.new result }
{
    let mut at = at;
    let mut first = pairs;
    for n in 0..out.len() {
        let Some((v, i)) = I::read(s, at) else {
            return Err(n);
        };
        out[n] = v;
        let Some(next) = past(mark(first), s, i) else {
            return if first { Err(n + 1) } else { Ok((n + 1, i)) };
        };
        at = next;
        first = pairs & !first;
    }
    Err(out.len())
}

// Whether the minus that stands for the empty list is at a place, and not one before a number.
fn dash(s: &[u8], at: usize) -> bool
    ensures { result ≡ Lists·dash (drop at s.now) }
{
    match past(b'-', s, at) {
        Some(i) => no_digit(s, i),
        None => false,
    }
}

fn list_field<T: Copy, I: Item<T>>(
    s: &[u8],
    at: usize,
    out: &mut [T],
) -> Result<(usize, usize), usize>
    ensures { Fills (field_of (list I.reads)) s.now at out.old out.new result }
{
    let Some(at) = past(b' ', s, at) else {
        return Err(0);
    };
    if dash(s, at) {
        return Ok((0, at + 1));
    }
    items::<T, I>(s, at, false, out)
}

// Whether a colon stands behind the number here.
fn colon(s: &[u8], at: usize) -> bool
    ensures { result ≡ Lists·colon (number 10 65535 (drop at s.now)) }
{
    match decimal(s, at, 65535) {
        Some((_, i)) => starts(b':', s, i),
        None => false,
    }
}

// A log, flat or in pairs: `0,1,1,0` or `0:1,1:0`.
pub fn log_field(s: &[u8], at: usize, out: &mut [u16]) -> Result<(usize, usize), usize>
    ensures { Fills (field_of (log (number 10 65535))) s.now at out.old out.new result }
{
    let Some(at) = past(b' ', s, at) else {
        return Err(0);
    };
    if dash(s, at) {
        return Ok((0, at + 1));
    }
    items::<u16, Half>(s, at, colon(s, at), out)
}

// ---- lists by what they are of; each answers how many items there were, and the place behind them, or how many were taken of what is no list

pub fn words_field(s: &[u8], at: usize, out: &mut [u64]) -> Result<(usize, usize), usize>
    ensures { Fills (field_of (list (number 16 18446744073709551615))) s.now at out.old out.new result }
{
    list_field::<u64, Word>(s, at, out)
}

pub fn halves_field(s: &[u8], at: usize, out: &mut [u16]) -> Result<(usize, usize), usize>
    ensures { Fills (field_of (list (number 10 65535))) s.now at out.old out.new result }
{
    list_field::<u16, Half>(s, at, out)
}

pub fn bytes_field(s: &[u8], at: usize, out: &mut [u8]) -> Result<(usize, usize), usize>
    ensures { Fills (field_of (list (number 10 255))) s.now at out.old out.new result }
{
    list_field::<u8, Byte>(s, at, out)
}

// Bytes by two digits each in hexadecimal.
pub fn octets_field(s: &[u8], at: usize, out: &mut [u8]) -> Result<(usize, usize), usize>
    ensures { Fills (field_of (list Numbers·octet)) s.now at out.old out.new result }
{
    list_field::<u8, Octet>(s, at, out)
}

pub fn ints_field(s: &[u8], at: usize, out: &mut [i32]) -> Result<(usize, usize), usize>
    ensures { Fills (field_of (list (Numbers·integer 2147483647))) s.now at out.old out.new result }
{
    list_field::<i32, Int>(s, at, out)
}

pub fn floats_field(s: &[u8], at: usize, out: &mut [f64]) -> Result<(usize, usize), usize>
    ensures { Fills (field_of (list Numbers·float)) s.now at out.old out.new result }
{
    list_field::<f64, Float>(s, at, out)
}
