// Reductions, the checker of their logs, and their way back. The lists and the log that a line has are made for it.

use crate::drafts::Drafts;
use crate::{LIST, LOG, PHASES, WORDS};
use forms::{read, say};
use terms::Lists;

pub(crate) fn reduce(
    s: &[u8],
    at: usize,
    n: usize,
    m: usize,
    x: &mut [u64],
    z: &mut [u64],
    p: &mut [u64],
    out: &mut [u8],
    to: usize,
) -> Option<usize> {
    let mut drafts = Drafts::new();
    let mut log = [0u16; LOG];
    let Some((lists, log)) = drafts.read_asked(s, at, &mut log) else {
        return say::bad(out, to);
    };
    let a = terms::canonicalize(n, m, x, z, p, &lists, log);
    say::reduced(out, to, a, log, x, z, p)
}

// Over all columns and rows.
pub(crate) fn reduce_all(
    s: &[u8],
    at: usize,
    n: usize,
    m: usize,
    x: &mut [u64],
    z: &mut [u64],
    p: &mut [u64],
    out: &mut [u8],
    to: usize,
) -> Option<usize> {
    let mut log = [0u16; LOG];
    let Some(u) = read::last(s, read::number(s, at, LOG)) else {
        return say::bad(out, to);
    };
    let log = &mut log[0..u];
    let a = terms::canonicalize_all(n, m, x, z, p, log);
    say::reduced(out, to, a, log, x, z, p)
}

// ---- the checker

pub(crate) fn check(
    s: &[u8],
    at: usize,
    n: usize,
    m: usize,
    x: &mut [u64],
    z: &mut [u64],
    p: &mut [u64],
    out: &mut [u8],
    to: usize,
) -> Option<usize> {
    let mut drafts = Drafts::new();
    let mut log = [0u16; LOG];
    let mut x2 = [0u64; WORDS];
    let mut z2 = [0u64; WORDS];
    let mut p2 = [0u64; PHASES];
    let Some((lists, at)) = drafts.read(s, at) else {
        return say::bad(out, to);
    };
    let Some((u, at)) = read::log(s, at, &mut log) else {
        return say::bad(out, to);
    };
    let Some(t) = read::last(s, read::read_set(s, at, &mut x2, &mut z2, &mut p2)) else {
        return say::bad(out, to);
    };
    let (x2, z2, p2) = (&x2[0..t.x], &z2[0..t.z], &p2[0..t.p]);
    let a = replay::check(n, m, x, z, p, &lists, &log[0..u], x2, z2, p2);
    say::checked(out, to, a, x, z, p)
}

// ---- the way back

pub(crate) fn undo(
    s: &[u8],
    at: usize,
    n: usize,
    m: usize,
    x: &mut [u64],
    z: &mut [u64],
    p: &mut [u64],
    out: &mut [u8],
    to: usize,
) -> Option<usize> {
    let mut listed = [0u16; LIST];
    let mut extra = [0u16; LIST];
    let mut log = [0u16; LOG];
    let Some((l, at)) = read::halves(s, at, &mut listed) else {
        return say::bad(out, to);
    };
    let Some((e, at)) = read::halves(s, at, &mut extra) else {
        return say::bad(out, to);
    };
    let Some(u) = read::last(s, read::log(s, at, &mut log)) else {
        return say::bad(out, to);
    };
    let lists = Lists {
        order: &[],
        listed: &listed[0..l],
        extra: &extra[0..e],
    };
    let a = replay::undo::undo(n, m, x, z, p, &lists, &log[0..u]);
    say::undone(out, to, a, x, z, p)
}
