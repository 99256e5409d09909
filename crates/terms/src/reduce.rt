// The reduction rule over a row set that the refusals passed: a function for each step of the rule.
ghost use Rattle.std.specs.Prelude.{◌≡◌, ◌++◌, ◌+◌, ◌≤◌, ◌<◌, length};
ghost use Rattle.pauli.specs.Row.{mul_row, bit_row};
ghost use Rattle.encoding.specs.Set.{Sound, mem_of};
ghost use Rattle.reduction.specs.Log.{capacity};
ghost use Rattle.reduction.specs.Workers.{through, multiply_c, turn_c, lead_c, pivot_c, column_c};
ghost use Rattle.terms.specs.Workers.{Below, Ready, come, going_on, Among, start, Does};

use crate::rows::{find, get_bit, imul_unchecked};
use late::{Lists, Progress};
use pauli::RowNumber;

// Row a is multiplied by row b, and (a, b) is logged, if the entry fits.
fn put(
    n: usize,
    m: usize,
    x: &mut [u64],
    z: &mut [u64],
    p: &mut [u64],
    log: &mut [u16],
    s: Progress,
    a: u16,
    b: u16,
) -> Result<Progress, Progress>
    requires ready { Ready n (mem_of m x.old z.old p.old) log.old (going_on s) }
    requires a_lt_m { (a < m) × (b < m) }
    ensures { Does n (multiply_c (mul_row n) (capacity log.old) a b) (mem_of m x.old z.old p.old) log.old (going_on s) (mem_of m x.new z.new p.new)
        log.new (come result) }
{
    let k = s.entries;
    let t = s.t;
    if log.len() / 2 <= k {
        return Err(s);
    }
    imul_unchecked(n, m, x, z, p, RowNumber(a as usize), RowNumber(b as usize));
    let h = k + k;
    log[h] = a;
    log[h + 1] = b;
    Ok(Progress { entries: k + 1, t })
}

// Row k, if it is another than the pivot and has column c set, is multiplied by the pivot.
fn turn(
    n: usize,
    m: usize,
    x: &mut [u64],
    z: &mut [u64],
    p: &mut [u64],
    log: &mut [u16],
    s: Progress,
    c: usize,
    pivot: u16,
    k: u16,
) -> Result<Progress, Progress>
    requires ready { Ready n (mem_of m x.old z.old p.old) log.old (going_on s) }
    requires c_bound { (c < n + n) × (pivot < m) × (k < m) }
    ensures { Does n (turn_c (bit_row n) (mul_row n) (capacity log.old) c pivot k) (mem_of m x.old z.old p.old) log.old (going_on s)
        (mem_of m x.new z.new p.new) log.new (come result) }
{
    if k == pivot {
        return Ok(s);
    }
    if get_bit(n, x, z, RowNumber(k as usize), c) {
        return put(n, m, x, z, p, log, s, k, pivot);
    }
    Ok(s)
}

// Each row of the list other than the pivot with column c set is multiplied by the pivot, as long as entries fit.
fn clear(
    n: usize,
    m: usize,
    x: &mut [u64],
    z: &mut [u64],
    p: &mut [u64],
    log: &mut [u16],
    list: &[u16],
    s: Progress,
    c: usize,
    pivot: u16,
) -> Result<Progress, Progress>
    requires ready { Ready n (mem_of m x.old z.old p.old) log.old (going_on s) }
    requires c_bound { (c < n + n) × (pivot < m) × Below m list.now }
    ensures { Does n (through (turn_c (bit_row n) (mul_row n) (capacity log.old) c pivot) list.now) (mem_of m x.old z.old p.old)
        log.old (going_on s) (mem_of m x.new z.new p.new) log.new (come result) }
{
    let mut r = s;
    for &k in list {
        r = turn(n, m, x, z, p, log, r, c, pivot, k)?;
    }
    Ok(r)
}

// The pivot is multiplied by the row found, if that is another.
fn lead(
    n: usize,
    m: usize,
    x: &mut [u64],
    z: &mut [u64],
    p: &mut [u64],
    log: &mut [u16],
    s: Progress,
    pivot: u16,
    found: u16,
) -> Result<Progress, Progress>
    requires ready { Ready n (mem_of m x.old z.old p.old) log.old (going_on s) }
    requires pivot_lt_m { (pivot < m) × (found < m) }
    ensures { Does n (lead_c (bit_row n) (mul_row n) (capacity log.old) pivot found) (mem_of m x.old z.old p.old) log.old (going_on s)
        (mem_of m x.new z.new p.new) log.new (come result) }
{
    if found == pivot {
        return Ok(s);
    }
    put(n, m, x, z, p, log, s, pivot, found)
}

// The listed and then the extra rows are cleared.
fn clear_both(
    n: usize,
    m: usize,
    x: &mut [u64],
    z: &mut [u64],
    p: &mut [u64],
    log: &mut [u16],
    lists: &Lists<'_>,
    s: Progress,
    c: usize,
    pivot: u16,
) -> Result<Progress, Progress>
    requires ready { Ready n (mem_of m x.old z.old p.old) log.old (going_on s) }
    requires c_bound { (c < n + n) × (pivot < m) × Below m lists.now.listed.now × Below m lists.now.extra.now }
    ensures { Does n (through (turn_c (bit_row n) (mul_row n) (capacity log.old) c pivot)
        (lists.now.listed.now ++ lists.now.extra.now)) (mem_of m x.old z.old p.old) log.old (going_on s) (mem_of m x.new z.new p.new) log.new
        (come result) }
{
    let r = clear(n, m, x, z, p, log, lists.listed, s, c, pivot)?;
    clear(n, m, x, z, p, log, lists.extra, r, c, pivot)
}

// A pivot and the row found: the pivot is multiplied by it, if it is another, and the other rows are cleared.
fn pivot_by(
    n: usize,
    m: usize,
    x: &mut [u64],
    z: &mut [u64],
    p: &mut [u64],
    log: &mut [u16],
    lists: &Lists<'_>,
    s: Progress,
    c: usize,
    pivot: u16,
    found: u16,
) -> Result<Progress, Progress>
    requires ready { Ready n (mem_of m x.old z.old p.old) log.old (going_on s) }
    requires c_bound { (c < n + n) × (pivot < m) × (found < m) × Below m lists.now.listed.now
        × Below m lists.now.extra.now }
    ensures { Does n (pivot_c (bit_row n) (mul_row n) (capacity log.old)
        (lists.now.listed.now ++ lists.now.extra.now) c pivot found)
        (mem_of m x.old z.old p.old) log.old (going_on s) (mem_of m x.new z.new p.new) log.new (come result) }
{
    let r = lead(n, m, x, z, p, log, s, pivot, found)?;
    clear_both(n, m, x, z, p, log, lists, r, c, pivot)
}

// One column of the order.
fn column(
    n: usize,
    m: usize,
    x: &mut [u64],
    z: &mut [u64],
    p: &mut [u64],
    log: &mut [u16],
    lists: &Lists<'_>,
    s: Progress,
    c: usize,
) -> Result<Progress, Progress>
    requires ready { Ready n (mem_of m x.old z.old p.old) log.old (going_on s) }
    requires c_bound { (c < n + n) × (s.t ≤ length lists.now.listed.now) × Below m lists.now.listed.now × Below m lists.now.extra.now }
    ensures t_in_bounds { Among (length lists.now.listed.now) result }
    ensures does { Does n (column_c (bit_row n) (mul_row n) (capacity log.old) lists.now.listed.now lists.now.extra.now c)
        (mem_of m x.old z.old p.old) log.old (going_on s) (mem_of m x.new z.new p.new) log.new (come result) }
{
    let t = s.t;
    let Some(f) = find(n, x, z, lists.listed, t, c) else {
        return Ok(s);
    };
    let r = pivot_by(
        n,
        m,
        x,
        z,
        p,
        log,
        lists,
        s,
        c,
        lists.listed[t],
        lists.listed[f],
    )?;
    let entries = r.entries;
    Ok(Progress { entries, t: t + 1 })
}

// The columns of the order, one after another, from an empty log on.
fn by_loops(
    n: usize,
    m: usize,
    x: &mut [u64],
    z: &mut [u64],
    p: &mut [u64],
    log: &mut [u16],
    lists: &Lists<'_>,
) -> Result<Progress, Progress>
    requires sound { Sound n (mem_of m x.old z.old p.old) }
    requires below { Below (n + n) lists.now.order.now × Below m lists.now.listed.now × Below m lists.now.extra.now }
    ensures { Does n (through (column_c (bit_row n) (mul_row n) (capacity log.old) lists.now.listed.now lists.now.extra.now)
        lists.now.order.now) (mem_of m x.old z.old p.old) log.old start (mem_of m x.new z.new p.new) log.new (come result) }
{
    let mut r = Progress { entries: 0, t: 0 };
    for &c in lists.order {
        r = column(n, m, x, z, p, log, lists, r, c as usize)?;
    }
    Ok(r)
}

// The rows, and the columns of the order, from which on the table of products of pivots pays.
const LATE_ROWS: usize = 64;

const LATE_COLUMNS: usize = 64;

// The same with products put off, and made by a table.
fn by_table(
    n: usize,
    m: usize,
    x: &mut [u64],
    z: &mut [u64],
    p: &mut [u64],
    log: &mut [u16],
    lists: &Lists<'_>,
) -> Result<Progress, Progress>
    requires sound { Sound n (mem_of m x.old z.old p.old) }
    requires below { Below (n + n) lists.now.order.now × Below m lists.now.listed.now × Below m lists.now.extra.now }
    ensures { Does n (through (column_c (bit_row n) (mul_row n) (capacity log.old) lists.now.listed.now lists.now.extra.now)
        lists.now.order.now) (mem_of m x.old z.old p.old) log.old start (mem_of m x.new z.new p.new) log.new (come result) }
{
    late::columns(n, m, x, z, p, log, lists)
}

// The same, whichever is faster.
pub(crate) fn columns(
    n: usize,
    m: usize,
    x: &mut [u64],
    z: &mut [u64],
    p: &mut [u64],
    log: &mut [u16],
    lists: &Lists<'_>,
) -> Result<Progress, Progress>
    requires sound { Sound n (mem_of m x.old z.old p.old) }
    requires below { Below (n + n) lists.now.order.now × Below m lists.now.listed.now × Below m lists.now.extra.now }
    ensures { Does n (through (column_c (bit_row n) (mul_row n) (capacity log.old) lists.now.listed.now lists.now.extra.now)
        lists.now.order.now) (mem_of m x.old z.old p.old) log.old start (mem_of m x.new z.new p.new) log.new (come result) }
{
    let few = (m < LATE_ROWS) | (lists.order.len() < LATE_COLUMNS);
    if few {
        return by_loops(n, m, x, z, p, log, lists);
    }
    by_table(n, m, x, z, p, log, lists)
}
