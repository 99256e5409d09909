// The calls on a set. Its fields are read and its parts lent here, for all of them: what a call has besides stands behind.
ghost use Rattle.encoding.specs.Set.{mem_of, set_of};
ghost use Rattle.std.specs.Prelude.{drop};
ghost use Rattle.forms.specs.Answers.{Says};
ghost use Rattle.calls.specs.Answer.{lends, changes, on_set, by_set, Answers};

use crate::{PHASES, WORDS, conjugate, pairwise, reducing, rows, texts};
use encoding::RowSet;
use forms::{read, say};
use naming::{Changes, Lends, OnSet, Reduces};

// Calls that read it and write elsewhere. The set ends at `at`.
fn lending(
    c: Lends,
    s: &[u8],
    at: usize,
    set: &RowSet<'_>,
    out: &mut [u8],
    to: usize,
) -> Option<usize>
    ensures { Answers (lends c set.now.n (set_of set.now) (drop at s.now)) out.old to out.new result }
{
    match c {
        Lends::Act => rows::act(s, at, set, out, to),
        Lends::Matrix => rows::matrix(s, at, set, out, to),
        Lends::Write => texts::write(s, at, set, out, to),
        Lends::Pair => pairwise::pair(s, at, set, out, to),
    }
}

// Calls that change its rows one by one.
fn changing(
    c: Changes,
    s: &[u8],
    at: usize,
    n: usize,
    m: usize,
    x: &mut [u64],
    z: &mut [u64],
    p: &mut [u64],
    out: &mut [u8],
    to: usize,
) -> Option<usize>
    ensures { Says (changes c n (mem_of m x.old z.old p.old) (drop at s.now)) out.old to out.new result }
{
    match c {
        Changes::Imul => rows::imul(s, at, n, m, x, z, p, out, to),
        Changes::Set => rows::set(s, at, n, m, x, z, p, out, to),
        Changes::Gate => conjugate::gate(s, at, n, m, x, z, p, out, to),
        Changes::Read => texts::read_text(s, at, n, m, x, z, p, out, to),
        Changes::Readx => texts::read_bytes(s, at, n, m, x, z, p, out, to),
    }
}

// Reductions, the checker, and the way back.
fn reductions(
    c: Reduces,
    s: &[u8],
    at: usize,
    n: usize,
    m: usize,
    x: &mut [u64],
    z: &mut [u64],
    p: &mut [u64],
    out: &mut [u8],
    to: usize,
) -> Option<usize> {
    match c {
        Reduces::Reduce => reducing::reduce(s, at, n, m, x, z, p, out, to),
        Reduces::All => reducing::reduce_all(s, at, n, m, x, z, p, out, to),
        Reduces::Check => reducing::check(s, at, n, m, x, z, p, out, to),
        Reduces::Undo => reducing::undo(s, at, n, m, x, z, p, out, to),
    }
}

fn called(
    c: OnSet,
    s: &[u8],
    at: usize,
    n: usize,
    m: usize,
    x: &mut [u64],
    z: &mut [u64],
    phases: &mut [u64],
    out: &mut [u8],
    to: usize,
) -> Option<usize>
    ensures { Answers (on_set c n (mem_of m x.old z.old phases.old) (drop at s.now)) out.old to out.new result }
{
    match c {
        OnSet::Two(k) => rows::two(k, s, at, &RowSet { n, m, x, z, phases }, out, to),
        OnSet::One(k) => rows::one(k, s, at, &RowSet { n, m, x, z, phases }, out, to),
        OnSet::Lent(k) => lending(k, s, at, &RowSet { n, m, x, z, phases }, out, to),
        OnSet::Changed(k) => changing(k, s, at, n, m, x, z, phases, out, to),
        OnSet::Reduced(k) => reductions(k, s, at, n, m, x, z, phases, out, to),
    }
}

// The answer to a line that names a call on a set.
pub(crate) fn answer(c: OnSet, s: &[u8], end: usize, out: &mut [u8], to: usize) -> Option<usize>
    ensures { Answers (by_set c (drop end s.now)) out.old to out.new result }
{
    let mut x = [0u64; WORDS];
    let mut z = [0u64; WORDS];
    let mut p = [0u64; PHASES];
    let Some((q, at)) = read::read_rows(s, end, &mut x, &mut z, &mut p) else {
        return say::bad(out, to);
    };
    let (x, z, p) = (&mut x[0..q.x], &mut z[0..q.z], &mut p[0..q.p]);
    called(c, s, at, q.n, q.m, x, z, p, out, to)
}
