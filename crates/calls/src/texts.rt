// The calls on the text of a row: written into lent bytes, and read, from the rest of the line or from a list of bytes. These bytes are few,
// and made for the line that has them.
ghost use Rattle.encoding.specs.Set.{mem_of, set_of};
ghost use Rattle.std.specs.Prelude.{length, drop};
ghost use Rattle.forms.specs.Answers.{Says};
ghost use Rattle.calls.specs.Answer.{row_written, write_in, row_read, read_line, readx_in};
ghost use Rattle.calls.specs.Limits.{most_text};

use crate::TEXT;
use encoding::RowSet;
use forms::{read, say};
use pauli::RowNumber;

fn into_bytes(
    set: &RowSet<'_>,
    row: usize,
    b: &mut [u8],
    out: &mut [u8],
    to: usize,
) -> Option<usize>
    ensures { Says (row_written set.now.n (set_of set.now) row (length b.old)) out.old to out.new result }
{
    let a = row_text::fmt_elem(set, RowNumber(row), b);
    say::written(out, to, a, b)
}

pub(crate) fn write(
    s: &[u8],
    at: usize,
    set: &RowSet<'_>,
    out: &mut [u8],
    to: usize,
) -> Option<usize>
    ensures { Says (write_in most_text set.now.n (set_of set.now) (drop at s.now)) out.old to out.new result }
{
    let mut b = [0u8; TEXT];
    let Some((row, at)) = read::number(s, at, usize::MAX) else {
        return say::bad(out, to);
    };
    let Some(e) = read::last(s, read::number(s, at, TEXT)) else {
        return say::bad(out, to);
    };
    into_bytes(set, row, &mut b[0..e], out, to)
}

fn parsed(
    n: usize,
    m: usize,
    x: &mut [u64],
    z: &mut [u64],
    p: &[u64],
    row: usize,
    t: &[u8],
    out: &mut [u8],
    to: usize,
) -> Option<usize>
    ensures { Says (row_read n (mem_of m x.old z.old p.now) row t.now) out.old to out.new result }
{
    let a = row_text::parse_elem(n, m, x, z, p, RowNumber(row), t);
    say::changed(out, to, a, x, z, p)
}

pub(crate) fn read_text(
    s: &[u8],
    at: usize,
    n: usize,
    m: usize,
    x: &mut [u64],
    z: &mut [u64],
    p: &[u64],
    out: &mut [u8],
    to: usize,
) -> Option<usize>
    ensures { Says (read_line n (mem_of m x.old z.old p.now) (drop at s.now)) out.old to out.new result }
{
    let Some((row, at)) = read::number(s, at, usize::MAX) else {
        return say::bad(out, to);
    };
    let Some(t) = read::read_rest(s, at) else {
        return say::bad(out, to);
    };
    parsed(n, m, x, z, p, row, t, out, to)
}

pub(crate) fn read_bytes(
    s: &[u8],
    at: usize,
    n: usize,
    m: usize,
    x: &mut [u64],
    z: &mut [u64],
    p: &[u64],
    out: &mut [u8],
    to: usize,
) -> Option<usize>
    ensures { Says (readx_in most_text n (mem_of m x.old z.old p.now) (drop at s.now)) out.old to out.new result }
{
    let mut b = [0u8; TEXT];
    let Some((row, at)) = read::number(s, at, usize::MAX) else {
        return say::bad(out, to);
    };
    let Some(e) = read::last(s, read::octets(s, at, &mut b)) else {
        return say::bad(out, to);
    };
    parsed(n, m, x, z, p, row, &b[0..e], out, to)
}
