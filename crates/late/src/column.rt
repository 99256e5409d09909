// A pivot and a column done late; the columns of the order, in blocks.
ghost use Rattle.encoding.specs.Set.{mem_of};
ghost use Rattle.std.specs.Prelude.{◌≡◌, ◌++◌, ◌+◌, ◌^◌, ◌≤◌, ◌<◌, length};
ghost use Rattle.pauli.specs.Row.{mul_row, bit_row};
ghost use Rattle.reduction.specs.Log.{capacity};
ghost use Rattle.reduction.specs.Workers.{through, pivot_c, column_c, Below};
ghost use Rattle.tabled.specs.Workers.{Clearing, Within};
ghost use Rattle.late.specs.Workers.{table_rows, block_pivots, on, at_of, come, come_of, Among, store, Runs, PivotIn, SearchIn, Found, ColumnIn, BeginIn, Began, StepIn, StartIn, begun, start, Does};

use crate::clear::{Late, column_at, find, freeze};
use crate::lead::lead;
use crate::rows::pay_all;
use crate::{Lists, Progress};

// Two to the power g.
fn power(g: usize) -> u8
    requires { g < block_pivots }
    ensures { result ≡ 2 ^ g }
{
    1u8 << g
}

// A pivot and the row found; o is two to the power of the block's pivots.
fn pivot_by(
    n: usize,
    m: usize,
    x: &mut [u64],
    z: &mut [u64],
    p: &mut [u64],
    owed: &mut [u8],
    tx: &mut [u64],
    tz: &mut [u64],
    tp: &mut [u64],
    log: &mut [u16],
    lists: &Lists<'_>,
    s: Late,
    o: u8,
    c: usize,
    pivot: u16,
    found: u16,
) -> Result<Late, Late>
    requires pivot_in { PivotIn n c pivot found o
        (store (mem_of m x.old z.old p.old) (mem_of table_rows tx.old tz.old tp.old) owed.old log.old (on s)) }
    requires below { Below m lists.now.listed.now × Below m lists.now.extra.now }
    ensures { Runs n (Clearing (bit_row n) (mul_row n) c pivot s.g)
        (pivot_c (bit_row n) (mul_row n) (capacity log.old) (lists.now.listed.now ++ lists.now.extra.now) c pivot found)
        (store (mem_of m x.old z.old p.old) (mem_of table_rows tx.old tz.old tp.old) owed.old log.old (on s))
        (store (mem_of m x.new z.new p.new) (mem_of table_rows tx.new tz.new tp.new) owed.new log.new (at_of result)) }
{
    let r = lead(n, m, x, z, p, owed, tx, tz, tp, log, s, c, pivot, found)?;
    freeze(n, m, x, z, p, owed, tx, tz, tp, log, lists, r, o, c, pivot)
}

// The first place of the list, from t on, of a row with column c set.
fn find_column(
    n: usize,
    m: usize,
    x: &[u64],
    z: &[u64],
    p: &[u64],
    owed: &[u8],
    tx: &[u64],
    tz: &[u64],
    tp: &[u64],
    listed: &[u16],
    t: usize,
    c: usize,
) -> Option<usize>
    requires { SearchIn n c t (mem_of m x.now z.now p.now) owed.now (mem_of table_rows tx.now tz.now tp.now) listed.now }
    ensures { Found n c t (mem_of m x.now z.now p.now) owed.now (mem_of table_rows tx.now tz.now tp.now) listed.now result }
{
    find(column_at(n, x, z, tx, tz, c), owed, listed, t)
}

// One column of the order, in a block that has room for a pivot more.
fn column(
    n: usize,
    m: usize,
    x: &mut [u64],
    z: &mut [u64],
    p: &mut [u64],
    owed: &mut [u8],
    tx: &mut [u64],
    tz: &mut [u64],
    tp: &mut [u64],
    log: &mut [u16],
    lists: &Lists<'_>,
    s: Late,
    o: u8,
    c: usize,
) -> Result<Late, Late>
    requires column_in { ColumnIn n c o lists.now.listed.now
        (store (mem_of m x.old z.old p.old) (mem_of table_rows tx.old tz.old tp.old) owed.old log.old (on s)) }
    requires below { Below m lists.now.listed.now × Below m lists.now.extra.now }
    ensures t_in_bounds { Among (length lists.now.listed.now) result }
    ensures runs { Runs n (Within block_pivots)
        (column_c (bit_row n) (mul_row n) (capacity log.old) lists.now.listed.now lists.now.extra.now c)
        (store (mem_of m x.old z.old p.old) (mem_of table_rows tx.old tz.old tp.old) owed.old log.old (on s))
        (store (mem_of m x.new z.new p.new) (mem_of table_rows tx.new tz.new tp.new) owed.new log.new (at_of result)) }
{
    let t = s.t;
    let Some(f) = find_column(n, m, x, z, p, owed, tx, tz, tp, lists.listed, t, c) else {
        return Ok(s);
    };
    let r = pivot_by(
        n,
        m,
        x,
        z,
        p,
        owed,
        tx,
        tz,
        tp,
        log,
        lists,
        s,
        o,
        c,
        lists.listed[t],
        lists.listed[f],
    )?;
    let entries = r.entries;
    let g = r.g;
    Ok(Late {
        entries,
        t: t + 1,
        g,
    })
}

// Where the block has all its pivots, every row pays, and a new block begins.
fn begin(
    n: usize,
    m: usize,
    x: &mut [u64],
    z: &mut [u64],
    p: &mut [u64],
    owed: &mut [u8],
    tx: &[u64],
    tz: &[u64],
    tp: &[u64],
    s: Late,
) -> Late
    requires { BeginIn n (mem_of m x.old z.old p.old) owed.old (mem_of table_rows tx.now tz.now tp.now) (on s) }
    ensures { Began n (mem_of table_rows tx.now tz.now tp.now)
        (mem_of m x.old z.old p.old) owed.old (on s) (mem_of m x.new z.new p.new) owed.new (on result) }
{
    let e = s.entries;
    let t = s.t;
    if s.g < crate::BLOCK {
        return s;
    }
    pay_all(n, m, x, z, p, owed, tx, tz, tp);
    Late {
        entries: e,
        t,
        g: 0,
    }
}

// One column of the order.
fn step(
    n: usize,
    m: usize,
    x: &mut [u64],
    z: &mut [u64],
    p: &mut [u64],
    owed: &mut [u8],
    tx: &mut [u64],
    tz: &mut [u64],
    tp: &mut [u64],
    log: &mut [u16],
    lists: &Lists<'_>,
    s: Late,
    c: usize,
) -> Result<Late, Late>
    requires step_in { StepIn n c lists.now.listed.now
        (store (mem_of m x.old z.old p.old) (mem_of table_rows tx.old tz.old tp.old) owed.old log.old (on s)) }
    requires below { Below m lists.now.listed.now × Below m lists.now.extra.now }
    ensures t_in_bounds { Among (length lists.now.listed.now) result }
    ensures runs { Runs n (Within block_pivots)
        (column_c (bit_row n) (mul_row n) (capacity log.old) lists.now.listed.now lists.now.extra.now c)
        (store (mem_of m x.old z.old p.old) (mem_of table_rows tx.old tz.old tp.old) owed.old log.old (on s))
        (store (mem_of m x.new z.new p.new) (mem_of table_rows tx.new tz.new tp.new) owed.new log.new (at_of result)) }
{
    let r = begin(n, m, x, z, p, owed, tx, tz, tp, s);
    let o = power(r.g);
    column(n, m, x, z, p, owed, tx, tz, tp, log, lists, r, o, c)
}

// The columns of the order, one after another, from an empty log on.
fn columns(
    n: usize,
    m: usize,
    x: &mut [u64],
    z: &mut [u64],
    p: &mut [u64],
    owed: &mut [u8],
    tx: &mut [u64],
    tz: &mut [u64],
    tp: &mut [u64],
    log: &mut [u16],
    lists: &Lists<'_>,
) -> Result<Late, Late>
    requires start_in { StartIn n (mem_of m x.old z.old p.old) owed.old (mem_of table_rows tx.old tz.old tp.old) }
    requires below { Below (n + n) lists.now.order.now × Below m lists.now.listed.now × Below m lists.now.extra.now }
    ensures { Runs n (Within block_pivots)
        (through (column_c (bit_row n) (mul_row n) (capacity log.old) lists.now.listed.now lists.now.extra.now) lists.now.order.now)
        (store (mem_of m x.old z.old p.old) (mem_of table_rows tx.old tz.old tp.old) owed.old log.old begun)
        (store (mem_of m x.new z.new p.new) (mem_of table_rows tx.new tz.new tp.new) owed.new log.new (at_of result)) }
{
    let mut r = Late {
        entries: 0,
        t: 0,
        g: 0,
    };
    for &c in lists.order {
        r = step(n, m, x, z, p, owed, tx, tz, tp, log, lists, r, c as usize)?;
    }
    Ok(r)
}

// How far a run has come, without the block.
fn progress(r: Result<Late, Late>) -> Result<Progress, Progress>
    ensures { come result ≡ come_of (at_of r) }
{
    match r {
        Ok(s) => Ok(Progress {
            entries: s.entries,
            t: s.t,
        }),
        Err(s) => Err(Progress {
            entries: s.entries,
            t: s.t,
        }),
    }
}

// The same, and at the end every row pays.
pub(crate) fn reduce(
    n: usize,
    m: usize,
    x: &mut [u64],
    z: &mut [u64],
    p: &mut [u64],
    owed: &mut [u8],
    tx: &mut [u64],
    tz: &mut [u64],
    tp: &mut [u64],
    log: &mut [u16],
    lists: &Lists<'_>,
) -> Result<Progress, Progress>
    requires start_in { StartIn n (mem_of m x.old z.old p.old) owed.old (mem_of table_rows tx.old tz.old tp.old) }
    requires below { Below (n + n) lists.now.order.now × Below m lists.now.listed.now × Below m lists.now.extra.now }
    ensures { Does n
        (through (column_c (bit_row n) (mul_row n) (capacity log.old) lists.now.listed.now lists.now.extra.now) lists.now.order.now)
        (mem_of m x.old z.old p.old) log.old start (mem_of m x.new z.new p.new) log.new (come result) }
{
    let r = columns(n, m, x, z, p, owed, tx, tz, tp, log, lists);
    pay_all(n, m, x, z, p, owed, tx, tz, tp);
    progress(r)
}
