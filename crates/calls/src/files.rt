// The log file of a reduction. The line's set is read a second time, into the rows that are reduced: the rows that the file starts from
// stay as they came.
ghost use Rattle.std.specs.Prelude.{◌≤◌};

use crate::drafts::Drafts;
use crate::{FILE, LOG, PHASES, WORDS};
use encoding::RowSet;
use forms::{read, say};
use terms::Lists;

// The units of so many entries.
fn units(entries: usize, most: usize) -> usize
    ensures { result ≤ most }
{
    if entries <= most / 2 {
        return entries * 2;
    }
    most
}

// A reduction that is not finished has no file: the answer is that of `reduce`.
fn reduced(
    set: &RowSet<'_>,
    lists: &Lists<'_>,
    log: &mut [u16],
    cx: &mut [u64],
    cz: &mut [u64],
    cp: &mut [u64],
    b: &mut [u8],
    out: &mut [u8],
    to: usize,
) -> Option<usize> {
    match terms::canonicalize(set.n, set.m, cx, cz, cp, lists, log) {
        Ok(done) => finished(set, lists, done.entries, log, cx, cz, cp, b, out, to),
        stopped => say::reduced(out, to, stopped, log, cx, cz, cp),
    }
}

fn finished(
    set: &RowSet<'_>,
    lists: &Lists<'_>,
    entries: usize,
    log: &[u16],
    cx: &[u64],
    cz: &[u64],
    cp: &[u64],
    b: &mut [u8],
    out: &mut [u8],
    to: usize,
) -> Option<usize> {
    let e = units(entries, log.len());
    let a = pwl::write(
        set.n,
        set.m,
        set.x,
        set.z,
        set.phases,
        lists,
        &log[0..e],
        cx,
        cz,
        cp,
        b,
    );
    say::filed(out, to, a, b)
}

// The lists, the log and the file are made for the line.
fn on_rows(
    s: &[u8],
    at: usize,
    set: &RowSet<'_>,
    cx: &mut [u64],
    cz: &mut [u64],
    cp: &mut [u64],
    out: &mut [u8],
    to: usize,
) -> Option<usize> {
    let mut drafts = Drafts::new();
    let mut log = [0u16; LOG];
    let mut b = [0u8; FILE];
    let Some((lists, log)) = drafts.read_asked(s, at, &mut log) else {
        return say::bad(out, to);
    };
    reduced(set, &lists, log, cx, cz, cp, &mut b, out, to)
}

// Into the rows that are reduced.
fn reread(s: &[u8], end: usize, set: &RowSet<'_>, out: &mut [u8], to: usize) -> Option<usize> {
    let mut cx = [0u64; WORDS];
    let mut cz = [0u64; WORDS];
    let mut cp = [0u64; PHASES];
    let Some((q, at)) = read::read_rows(s, end, &mut cx, &mut cz, &mut cp) else {
        return say::bad(out, to);
    };
    let (cx, cz, cp) = (&mut cx[0..q.x], &mut cz[0..q.z], &mut cp[0..q.p]);
    on_rows(s, at, set, cx, cz, cp, out, to)
}

// The set's fields start at `end`.
pub(crate) fn file(s: &[u8], end: usize, out: &mut [u8], to: usize) -> Option<usize> {
    let mut x = [0u64; WORDS];
    let mut z = [0u64; WORDS];
    let mut p = [0u64; PHASES];
    let Some((q, _)) = read::read_rows(s, end, &mut x, &mut z, &mut p) else {
        return say::bad(out, to);
    };
    let set = RowSet {
        n: q.n,
        m: q.m,
        x: &x[0..q.x],
        z: &z[0..q.z],
        phases: &p[0..q.p],
    };
    reread(s, end, &set, out, to)
}
