// Numbers into text: each writer answers the place behind its text. The digits are counted first, so that a number that does not fit
// leaves all as it was.
ghost use Rattle.std.specs.Prelude.{◌≡◌, [], ◌∷◌, ◌+◌, ◌≤◌, ◌<◌, length};
ghost use Rattle.text.specs.Readers.{Wrote};
ghost use Rattle.text.specs.Workers.{Room};
ghost use Rattle.text.specs.Numbers.{digits, numeral, integral, pattern, glyph as Numbers·glyph, size as Numbers·size};

#[tactic(auto, unfolding(crate::specs::Numbers::glyph))]
fn glyph(d: u64) -> u8
    requires { d < 16 }
    ensures { result ≡ Numbers·glyph d }
{
    if d < 10 { 48 + d as u8 } else { 87 + d as u8 }
}

// A u64 has at most 20 digits in base 10 or more: one past them.
const MOST_DIGITS: usize = 21;

fn size(base: u64, v: u64) -> usize
    requires { 1 < base }
    ensures { (result ≡ Numbers·size base 20 v) × (result ≤ 21) }
{
    let mut w = v;
    for n in 1..MOST_DIGITS {
        if w < base {
            return n;
        }
        w = w / base;
    }
    MOST_DIGITS
}

// The place behind n bytes, if they have room from a place on.
fn room(len: usize, at: usize, n: usize) -> Option<usize>
    ensures { Room n len at result }
{
    if n <= len && at <= len - n {
        Some(at + n)
    } else {
        None
    }
}

// The last digits of v, as many as there is room for, from the last to the first.
fn put_digits(out: &mut [u8], base: u64, v: u64)
    requires { (1 < base) × (base ≤ 16) }
    ensures { out.new ≡ digits base (length out.old) v }
{
    let mut w = v;
    for i in (0..out.len()).rev() {
        out[i] = glyph(w % base);
        w = w / base;
    }
}

fn put_run(out: &mut [u8], at: usize, base: u64, n: usize, v: u64) -> Option<usize>
    requires { (1 < base) × (base ≤ 16) }
    ensures { Wrote (digits base n v) out.old at out.new result }
{
    let end = room(out.len(), at, n)?;
    put_digits(&mut out[at..end], base, v);
    Some(end)
}

// A number in base 10 or 16.
pub(crate) fn put_numeral(out: &mut [u8], at: usize, base: u64, v: u64) -> Option<usize>
    requires { (1 < base) × (base ≤ 16) }
    ensures { Wrote (numeral base v) out.old at out.new result }
{
    let n = size(base, v);
    put_run(out, at, base, n, v)
}

pub fn put_decimal(out: &mut [u8], at: usize, v: u64) -> Option<usize>
    ensures { Wrote (numeral 10 v) out.old at out.new result }
{
    put_numeral(out, at, 10, v)
}

pub fn put_hexadecimal(out: &mut [u8], at: usize, v: u64) -> Option<usize>
    ensures { Wrote (numeral 16 v) out.old at out.new result }
{
    put_numeral(out, at, 16, v)
}

pub fn put_byte(out: &mut [u8], at: usize, c: u8) -> Option<usize>
    ensures { Wrote (c ∷ []) out.old at out.new result }
{
    let end = room(out.len(), at, 1)?;
    out[at] = c;
    Some(end)
}

pub fn put_text(out: &mut [u8], at: usize, s: &[u8]) -> Option<usize>
    ensures { Wrote s.now out.old at out.new result }
{
    let end = room(out.len(), at, s.len())?;
    out[at..end].copy_from_slice(s);
    Some(end)
}

// A minus and a number.
fn put_minus(out: &mut [u8], at: usize, m: u64) -> Option<usize>
    ensures { Wrote (45 ∷ numeral 10 m) out.old at out.new result }
{
    room(out.len(), at, size(10, m) + 1)?;
    let at = put_byte(out, at, b'-')?;
    put_decimal(out, at, m)
}

pub fn put_integer(out: &mut [u8], at: usize, v: i64) -> Option<usize>
    ensures { Wrote (integral v) out.old at out.new result }
{
    let m = v.unsigned_abs();
    if v < 0 {
        return put_minus(out, at, m);
    }
    put_decimal(out, at, m)
}

// What a NaN is written as.
const NAN_BITS: u64 = 0x7ff8_0000_0000_0000;

// The bits of x; those of the quiet NaN where x is one.
fn bits_of(x: f64) -> u64
    ensures { result ≡ pattern x }
{
    if x == x { f64::to_bits(x) } else { NAN_BITS }
}

// A float's bits, in 16 digits.
pub fn put_float(out: &mut [u8], at: usize, x: f64) -> Option<usize>
    ensures { Wrote (digits 16 16 (pattern x)) out.old at out.new result }
{
    let bits = bits_of(x);
    put_run(out, at, 16, 16, bits)
}
