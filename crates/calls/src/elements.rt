// Matrix elements: n X Z RE IM bra ket, and of states n X Z RE IM BRAS BRE BIM KETS KRE KIM.

use crate::{ANSWER, STATES, TERMS};
use forms::{read, say};

// The words and the factors of a line's terms.
#[derive(Drop)]
pub(crate) struct Terms {
    pub(crate) x: [u64; TERMS],
    pub(crate) z: [u64; TERMS],
    pub(crate) re: [i32; TERMS],
    pub(crate) im: [i32; TERMS],
    pub(crate) fre: [f64; TERMS],
    pub(crate) fim: [f64; TERMS],
}

// Of whole numbers, and below of floats: the two differ in the type of number and in three of the six functions that they call.
pub(crate) fn whole(
    s: &[u8],
    at: usize,
    terms: &mut Terms,
    out: &mut [u8; ANSWER],
    to: usize,
) -> Option<usize> {
    let Terms { x, z, re, im, .. } = terms;
    let Some((q, at)) = read::read_whole(s, at, x, z, re, im) else {
        return say::bad(out, to);
    };
    let Some(t) = read::last(s, read::read_between(s, at)) else {
        return say::bad(out, to);
    };
    let e = mat_elem::whole::mat_elem_cmpnts_from_presorted(
        q.n,
        &x[0..q.x],
        &z[0..q.z],
        &re[0..q.re],
        &im[0..q.im],
        t.bra,
        t.ket,
    );
    say::whole(out, to, e)
}

pub(crate) fn float(
    s: &[u8],
    at: usize,
    terms: &mut Terms,
    out: &mut [u8; ANSWER],
    to: usize,
) -> Option<usize> {
    let Terms { x, z, fre, fim, .. } = terms;
    let Some((q, at)) = read::read_floats(s, at, x, z, fre, fim) else {
        return say::bad(out, to);
    };
    let Some(t) = read::last(s, read::read_between(s, at)) else {
        return say::bad(out, to);
    };
    let e = mat_elem::float::mat_elem_cmpnts_from_presorted(
        q.n,
        &x[0..q.x],
        &z[0..q.z],
        &fre[0..q.re],
        &fim[0..q.im],
        t.bra,
        t.ket,
    );
    say::floating(out, to, e)
}

// ---- states of many basis vectors

// The lists of the two states are short, and made for the line that has them.
pub(crate) fn among_states(
    s: &[u8],
    at: usize,
    terms: &mut Terms,
    out: &mut [u8; ANSWER],
    to: usize,
) -> Option<usize> {
    let mut bras = [0u64; STATES];
    let mut bre = [0i32; STATES];
    let mut bim = [0i32; STATES];
    let mut kets = [0u64; STATES];
    let mut kre = [0i32; STATES];
    let mut kim = [0i32; STATES];
    let Terms { x, z, re, im, .. } = terms;
    let Some((q, at)) = read::read_whole(s, at, x, z, re, im) else {
        return say::bad(out, to);
    };
    let Some((f, at)) = read::read_vectors(s, at, &mut bras, &mut bre, &mut bim) else {
        return say::bad(out, to);
    };
    let Some(g) = read::last(s, read::read_vectors(s, at, &mut kets, &mut kre, &mut kim)) else {
        return say::bad(out, to);
    };
    let (x, z, re, im) = (&x[0..q.x], &z[0..q.z], &re[0..q.re], &im[0..q.im]);
    let (bras, bre, bim) = (&bras[0..f.w], &bre[0..f.re], &bim[0..f.im]);
    let (kets, kre, kim) = (&kets[0..g.w], &kre[0..g.re], &kim[0..g.im]);
    let e = mat_elem::states::mat_elem_from_presorted(
        q.n, x, z, re, im, bras, bre, bim, kets, kre, kim,
    );
    say::total(out, to, e)
}
