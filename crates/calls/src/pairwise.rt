// The call on two sets and a third that is lent for their product.

use crate::{PHASES, ROWS, WORDS};
use encoding::RowSet;
use forms::{read, say};

pub(crate) fn pair(
    s: &[u8],
    at: usize,
    set: &RowSet<'_>,
    out: &mut [u8],
    to: usize,
) -> Option<usize> {
    let mut x2 = [0u64; WORDS];
    let mut z2 = [0u64; WORDS];
    let mut p2 = [0u64; PHASES];
    let mut x3 = [0u64; WORDS];
    let mut z3 = [0u64; WORDS];
    let mut p3 = [0u64; PHASES];
    let mut c = [0u16; ROWS];
    let Some((t, at)) = read::read_set(s, at, &mut x2, &mut z2, &mut p2) else {
        return say::bad(out, to);
    };
    let Some(l) = read::last(s, read::read_lengths(s, at, WORDS, WORDS, PHASES, ROWS)) else {
        return say::bad(out, to);
    };
    let (x2, z2, p2) = (&x2[0..t.x], &z2[0..t.z], &p2[0..t.p]);
    let (x3, z3, p3) = (&mut x3[0..l.x], &mut z3[0..l.z], &mut p3[0..l.p]);
    let c = &mut c[0..l.c];
    let a = cmpnt_list::cmpnts_mul_pairwise(
        set.n, set.m, set.x, set.z, set.phases, x2, z2, p2, x3, z3, p3, c,
    );
    say::paired(out, to, a, x3, z3, p3, c)
}
