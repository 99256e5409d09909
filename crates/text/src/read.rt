// Numbers out of text, as lines have them: leading zeros are taken, and no more digits than `places`.
ghost use Rattle.std.specs.Prelude.{◌≡◌, ◌+◌, ◌*◌, ◌-◌, ◌≤◌, ◌<◌, ◌&&◌, cond, not, ltb, leb, drop, Some, None, IfSome};
ghost use Rattle.text.specs.Readers.{Reads, starts as Readers·starts};
ghost use Rattle.text.specs.Workers.{Passes, DigitIn};
ghost use Rattle.text.specs.Numbers.{no_digit, minus, float_of, places as Numbers·places, takes as Numbers·takes, number as Numbers·number, canonical as Numbers·canonical, octet as Numbers·octet, integer as Numbers·integer, float as Numbers·float};

// The value of a digit of a base, `0` to `9` and `a` to `f`.
#[tactic(auto, unfolding(crate::specs::Numbers::digit_of))]
fn digit(c: u8, base: u64) -> Option<u64>
    requires { base ≤ 16 }
    ensures { DigitIn base c result }
{
    let d = match c {
        b'0'..=b'9' => c - b'0',
        b'a'..=b'f' => c - 87,
        _ => return None,
    };
    let d = u64::from(d);
    if d < base { Some(d) } else { None }
}

// Whether v with the digit d behind it is at most `most`: compared by division, so that nothing wraps.
fn within(v: u64, base: u64, d: u64, most: u64) -> bool
    requires { 0 < base }
    ensures { result ≡ leb (v * base + d) most }
{
    d <= most && v <= (most - d) / base
}

// Whether d may stand behind so many digits that make v.
fn takes(places: usize, behind: usize, v: u64, base: u64, d: u64, most: u64) -> bool
    requires { 0 < base }
    ensures { result ≡ Numbers·takes base most (places - behind) v d }
{
    (behind < places) & within(v, base, d, most)
}

// Digits from one place to another that make v; nothing where there is none.
fn ended(v: u64, at: usize, i: usize) -> Option<(u64, usize)>
    ensures { result ≡ cond (ltb at i) (Some (v, i)) None }
{
    if at < i { Some((v, i)) } else { None }
}

fn number(s: &[u8], at: usize, base: u64, places: usize, most: u64) -> Option<(u64, usize)>
    requires { (1 < base) × (base ≤ 16) × (places ≡ Numbers·places base) }
    ensures read { Reads (Numbers·number base most) s.now at result }
    ensures low { IfSome result (λ r. r.0 ≤ most) }
{
    let mut v: u64 = 0;
    for i in at..s.len() {
        let Some(d) = digit(s[i], base) else {
            return ended(v, at, i);
        };
        if !takes(places, i - at, v, base, d, most) {
            return None;
        }
        v = v * base + d;
    }
    ended(v, at, s.len())
}

// A number in decimal of at most `most`.
pub fn decimal(s: &[u8], at: usize, most: u64) -> Option<(u64, usize)>
    ensures read { Reads (Numbers·number 10 most) s.now at result }
    ensures low { IfSome result (λ r. r.0 ≤ most) }
{
    number(s, at, 10, 20, most)
}

// A word, in hexadecimal and lower case.
pub fn hexadecimal(s: &[u8], at: usize) -> Option<(u64, usize)>
    ensures { Reads (Numbers·number 16 18446744073709551615) s.now at result }
{
    number(s, at, 16, 16, u64::MAX)
}

// Whether the byte c stands at a place.
pub fn starts(c: u8, s: &[u8], at: usize) -> bool
    ensures { result ≡ Readers·starts c (drop at s.now) }
{
    at < s.len() && s[at] == c
}

// The place behind the byte c, if it stands at a place.
pub(crate) fn past(c: u8, s: &[u8], at: usize) -> Option<usize>
    ensures { Passes c s.now at result }
{
    if starts(c, s, at) { Some(at + 1) } else { None }
}

// Whether there is no decimal digit at a place.
pub(crate) fn no_digit(s: &[u8], at: usize) -> bool
    ensures { result ≡ no_digit (drop at s.now) }
{
    at >= s.len() || digit(s[at], 10).is_none()
}

// Whether a zero stands before another digit.
fn is_led(s: &[u8], at: usize) -> bool
    ensures { result ≡ (Readers·starts 48 (drop at s.now) && not (no_digit (drop 1 (drop at s.now)))) }
{
    match past(b'0', s, at) {
        Some(i) => !no_digit(s, i),
        None => false,
    }
}

// The same as `decimal`, with no zero before another digit: each number has one text.
pub fn canonical(s: &[u8], at: usize, most: u64) -> Option<(u64, usize)>
    ensures read { Reads (Numbers·canonical most) s.now at result }
    ensures low { IfSome result (λ r. r.0 ≤ most) }
{
    if is_led(s, at) {
        return None;
    }
    decimal(s, at, most)
}

// A byte, by two digits in hexadecimal and lower case.
pub(crate) fn octet(s: &[u8], at: usize) -> Option<(u8, usize)>
    ensures { Reads Numbers·octet s.now at result }
{
    if at >= s.len() || at + 1 >= s.len() {
        return None;
    }
    let high = digit(s[at], 16)?;
    let low = digit(s[at + 1], 16)?;
    Some(((high * 16 + low) as u8, at + 2))
}

const MOST_INT: u64 = 2147483647;

// The magnitude of the least i32 has no place among the others: as an i64 it is turned.
fn negated(m: u64) -> i32
    requires { m ≤ 2147483648 }
    ensures { result ≡ minus m }
{
    (-(m as i64)) as i32
}

// An i32, with a minus before it or not.
pub fn integer(s: &[u8], at: usize) -> Option<(i32, usize)>
    ensures { Reads (Numbers·integer 2147483647) s.now at result }
{
    if let Some(i) = past(b'-', s, at) {
        let (m, next) = decimal(s, i, MOST_INT + 1)?;
        return Some((negated(m), next));
    }
    let (m, next) = decimal(s, at, MOST_INT)?;
    Some((m as i32, next))
}

// The bits of infinity: what is above them, the sign aside, is a NaN's.
const INFINITY: u64 = 0x7ff0_0000_0000_0000;

const SIGN: u64 = 0x8000_0000_0000_0000;

// The float of a pattern; where it is a NaN's, the NaN.
fn float_of(bits: u64) -> f64
    ensures { result ≡ float_of bits }
{
    if bits % SIGN <= INFINITY {
        f64::from_bits(bits)
    } else {
        0.0 / 0.0
    }
}

// A float, by its bits in hexadecimal.
pub fn float(s: &[u8], at: usize) -> Option<(f64, usize)>
    ensures { Reads Numbers·float s.now at result }
{
    let (bits, next) = hexadecimal(s, at)?;
    Some((float_of(bits), next))
}
