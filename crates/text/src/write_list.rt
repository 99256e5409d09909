// Lists into text. Where a list does not fit, the bytes before its place are as they were, and those behind it are open.
ghost use Rattle.std.specs.Prelude.{◌≡◌, ◌∷◌, ℕ, ◌<◌, ◌≤◌};
ghost use Rattle.text.specs.Readers.{Added};
ghost use Rattle.text.specs.Numbers.{numeral};
ghost use Rattle.text.specs.Lists.{joined, listed};

use crate::write::{put_byte, put_numeral};

// An unsigned number of any width.
trait Unsigned: Copy {
    ghost value: { Self → ℕ };

    fn wide(self) -> u64
        ensures { result ≡ value self };
}

impl Unsigned for u8 {
    ghost value = { λ v. v };

    fn wide(self) -> u64 {
        u64::from(self)
    }
}

impl Unsigned for u16 {
    ghost value = { λ v. v };

    fn wide(self) -> u64 {
        u64::from(self)
    }
}

impl Unsigned for u64 {
    ghost value = { λ v. v };

    fn wide(self) -> u64 {
        self
    }
}

// A comma and a number.
fn put_further(out: &mut [u8], at: usize, base: u64, v: u64) -> Option<usize>
    requires { (1 < base) × (base ≤ 16) }
    ensures { Added (44 ∷ numeral base v) out.old at out.new result }
{
    let at = put_byte(out, at, b',')?;
    put_numeral(out, at, base, v)
}

// A number, and others with a comma before each.
fn put_joined<T: Unsigned>(
    out: &mut [u8],
    at: usize,
    base: u64,
    first: T,
    others: &[T],
) -> Option<usize>
    requires { (1 < base) × (base ≤ 16) }
    ensures { Added (joined (λ x. numeral base (T.value x)) first others.now) out.old at out.new result }
{
    let mut end = put_numeral(out, at, base, first.wide())?;
    for x in others {
        end = put_further(out, end, base, x.wide())?;
    }
    Some(end)
}

// Numbers with commas between them; a minus for none.
fn put_list<T: Unsigned>(out: &mut [u8], at: usize, base: u64, xs: &[T]) -> Option<usize>
    requires { (1 < base) × (base ≤ 16) }
    ensures { Added (listed (λ x. numeral base (T.value x)) xs.now) out.old at out.new result }
{
    match xs {
        [] => put_byte(out, at, b'-'),
        [first, others @ ..] => put_joined(out, at, base, *first, others),
    }
}

pub fn put_words(out: &mut [u8], at: usize, xs: &[u64]) -> Option<usize>
    ensures { Added (listed (numeral 16) xs.now) out.old at out.new result }
{
    put_list(out, at, 16, xs)
}

pub fn put_bytes(out: &mut [u8], at: usize, xs: &[u8]) -> Option<usize>
    ensures { Added (listed (numeral 10) xs.now) out.old at out.new result }
{
    put_list(out, at, 10, xs)
}

pub fn put_halves(out: &mut [u8], at: usize, xs: &[u16]) -> Option<usize>
    ensures { Added (listed (numeral 10) xs.now) out.old at out.new result }
{
    put_list(out, at, 10, xs)
}
