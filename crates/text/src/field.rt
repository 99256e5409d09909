// Single fields of a line: a space, and then what it is.
ghost use Rattle.std.specs.Prelude.{◌≤◌, IfSome};
ghost use Rattle.text.specs.Readers.{Reads};
ghost use Rattle.text.specs.Numbers.{number};
ghost use Rattle.text.specs.Lines.{marked, field};

use crate::read::{decimal, hexadecimal, past};

// A number behind the byte c.
pub fn number_after(c: u8, s: &[u8], at: usize, most: u64) -> Option<(u64, usize)>
    ensures read { Reads (marked c (number 10 most)) s.now at result }
    ensures low { IfSome result (λ r. r.0 ≤ most) }
{
    let i = past(c, s, at)?;
    decimal(s, i, most)
}

pub fn number_field(s: &[u8], at: usize, most: u64) -> Option<(u64, usize)>
    ensures read { Reads (field (number 10 most)) s.now at result }
    ensures low { IfSome result (λ r. r.0 ≤ most) }
{
    number_after(b' ', s, at, most)
}

pub fn word_field(s: &[u8], at: usize) -> Option<(u64, usize)>
    ensures { Reads (field (number 16 18446744073709551615)) s.now at result }
{
    let i = past(b' ', s, at)?;
    hexadecimal(s, i)
}
