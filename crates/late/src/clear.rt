// A column cleared late: rows with the bit set come to owe the pivot, and the entries are logged. The rows and the table go slice by slice, since callers
// hold these slices to write them; what is only read goes as one value.
ghost use Rattle.encoding.specs.Set.{mem_of};
ghost use Rattle.std.specs.Prelude.{◌≡◌, cond, ◌++◌, ◌+◌, ◌-◌, ◌^◌, ◌≤◌, ◌<◌, length};
ghost use Rattle.pauli.specs.Row.{mul_row, bit_row};
ghost use Rattle.reduction.specs.Log.{capacity};
ghost use Rattle.reduction.specs.Workers.{through, turn_c, Below};
ghost use Rattle.tabled.specs.Workers.{Clearing};
ghost use Rattle.late.specs.Workers.{table_rows, on, at_of, Placed, store, Runs, Reads, Sees, seen_bit, place_from, OweIn, Owes, TurnIn, FreezeIn};

use crate::Lists;
use crate::rows::double;
use pauli::RowNumber;

// How far a run has come: the entries in its log, the pivots, and the pivots of the block. It is the error of a step that finds the log full, with rows
// and log as after the entries that fitted.
#[derive(Drop)]
pub struct Late {
    pub entries: usize,
    pub t: usize,
    pub g: usize,
}

// Where a column is read: bit i of word j of the w words of each row, in b for the rows and in tb for the table.
#[derive(Clone, Copy)]
pub(crate) struct Column<'a> {
    b: &'a [u64],
    tb: &'a [u64],
    w: usize,
    j: usize,
    i: usize,
}

// Column c: X of qubit c, or from n on Z of qubit c - n.
pub(crate) fn column_at<'a>(
    n: usize,
    x: &'a [u64],
    z: &'a [u64],
    tx: &'a [u64],
    tz: &'a [u64],
    c: usize,
) -> Column<'a>
    ensures { Placed n c x.now z.now tx.now tz.now result.b.now result.tb.now result.w result.j result.i }
{
    let w = encoding::words(n);
    if c < n {
        return Column {
            b: x,
            tb: tx,
            w,
            j: c / 64,
            i: c % 64,
        };
    }
    let q = c - n;
    Column {
        b: z,
        tb: tz,
        w,
        j: q / 64,
        i: q % 64,
    }
}

// The column of row k with what it owes.
fn true_bit(col: Column, owed: &[u8], k: usize) -> bool
    requires { Reads col.w col.j col.i col.b.now owed.now col.tb.now × (k < length owed.now) }
    ensures { result ≡ seen_bit col.entry.w col.entry.j col.entry.i col.entry.b.now owed.now col.entry.tb.now k }
{
    let o = owed[k] as usize;
    let v = col.b[k * col.w + col.j] ^ col.tb[o * col.w + col.j];
    (v >> col.i) % 2 == 1
}

// The first place of the list, from t on, of a row with the column set. It is not inlined, for the same reason as `clear_both`.
#[inline(never)]
pub(crate) fn find(col: Column, owed: &[u8], listed: &[u16], t: usize) -> Option<usize>
    requires { Reads col.w col.j col.i col.b.now owed.now col.tb.now × Below (length owed.now) listed.now }
    ensures { result ≡ place_from (seen_bit col.entry.w col.entry.j col.entry.i col.entry.b.now owed.now col.entry.tb.now) t listed.now }
{
    for a in t..listed.len() {
        let k = listed[a] as usize;
        if true_bit(col, owed, k) {
            return Some(a);
        }
    }
    None
}

// One of two values, with no jump: whether a row has a bit no processor foresees.
fn choose<T: Copy>(b: bool, on: T, off: T) -> T
    ensures { result ≡ cond b on off }
{
    if b { on } else { off }
}

// Where b holds, row k comes to owe the pivot, whose bit is h, and (k, pivot) is logged; else what is written is what was there.
fn owe(owed: &mut [u8], log: &mut [u16], s: Late, h: u8, pivot: u16, k: u16, b: bool) -> Late
    requires { OweIn owed.old log.old (on s) h k b }
    ensures { Owes owed.old log.old (on s) h pivot k b owed.new log.new (on result) }
{
    let e = s.entries;
    let t = s.t;
    let g = s.g;
    let q = k as usize;
    owed[q] = owed[q] + choose(b, h, 0);
    let m = e + e;
    let target = log[m];
    let source = log[m + 1];
    log[m] = choose(b, k, target);
    log[m + 1] = choose(b, pivot, source);
    Late {
        entries: choose(b, e + 1, e),
        t,
        g,
    }
}

// The pivot whose column is being cleared: its row, its column, and its bit among the pivots of the block.
#[derive(Clone, Copy)]
struct Pivot {
    row: u16,
    c: usize,
    h: u8,
}

// Row k, if it is another than the pivot and has the column set, comes to owe the pivot. The column is read at col.
fn turn(
    n: usize,
    m: usize,
    x: &[u64],
    z: &[u64],
    p: &[u64],
    owed: &mut [u8],
    tx: &[u64],
    tz: &[u64],
    tp: &[u64],
    log: &mut [u16],
    col: Column,
    s: Late,
    by: Pivot,
    k: u16,
) -> Result<Late, Late>
    requires turn_in { TurnIn n by.c by.row by.h
        (store (mem_of m x.now z.now p.now) (mem_of table_rows tx.now tz.now tp.now) owed.old log.old (on s)) }
    requires sees { Sees n by.c col.w col.j col.i (mem_of m x.now z.now p.now) (mem_of table_rows tx.now tz.now tp.now) col.b.now col.tb.now
        × (k < m) }
    ensures { Runs n (Clearing (bit_row n) (mul_row n) by.c by.row (s.g - 1))
        (turn_c (bit_row n) (mul_row n) (capacity log.old) by.c by.row k)
        (store (mem_of m x.now z.now p.now) (mem_of table_rows tx.now tz.now tp.now) owed.old log.old (on s))
        (store (mem_of m x.now z.now p.now) (mem_of table_rows tx.now tz.now tp.now) owed.new log.new (at_of result)) }
{
    if k == by.row {
        return Ok(s);
    }
    let on = true_bit(col, owed, k as usize);
    let e = s.entries;
    if e < log.len() / 2 {
        return Ok(owe(owed, log, s, by.h, by.row, k, on));
    }
    if on {
        return Err(s);
    }
    Ok(s)
}

// Each row of the list other than the pivot with the column set comes to owe the pivot, as long as entries fit.
fn clear(
    n: usize,
    m: usize,
    x: &[u64],
    z: &[u64],
    p: &[u64],
    owed: &mut [u8],
    tx: &[u64],
    tz: &[u64],
    tp: &[u64],
    log: &mut [u16],
    col: Column,
    list: &[u16],
    s: Late,
    by: Pivot,
) -> Result<Late, Late>
    requires turn_in { TurnIn n by.c by.row by.h
        (store (mem_of m x.now z.now p.now) (mem_of table_rows tx.now tz.now tp.now) owed.old log.old (on s)) }
    requires sees { Sees n by.c col.w col.j col.i (mem_of m x.now z.now p.now) (mem_of table_rows tx.now tz.now tp.now) col.b.now col.tb.now
        × Below m list.now }
    ensures { Runs n (Clearing (bit_row n) (mul_row n) by.c by.row (s.g - 1))
        (through (turn_c (bit_row n) (mul_row n) (capacity log.old) by.c by.row) list.now)
        (store (mem_of m x.now z.now p.now) (mem_of table_rows tx.now tz.now tp.now) owed.old log.old (on s))
        (store (mem_of m x.now z.now p.now) (mem_of table_rows tx.now tz.now tp.now) owed.new log.new (at_of result)) }
{
    let mut r = s;
    for &k in list {
        r = turn(n, m, x, z, p, owed, tx, tz, tp, log, col, r, by, k)?;
    }
    Ok(r)
}

// The listed and then the extra rows are cleared. Inlined into the loop over the columns, it leaves that loop's search short of registers.
#[inline(never)]
fn clear_both(
    n: usize,
    m: usize,
    x: &[u64],
    z: &[u64],
    p: &[u64],
    owed: &mut [u8],
    tx: &[u64],
    tz: &[u64],
    tp: &[u64],
    log: &mut [u16],
    col: Column,
    lists: &Lists<'_>,
    s: Late,
    by: Pivot,
) -> Result<Late, Late>
    requires turn_in { TurnIn n by.c by.row by.h
        (store (mem_of m x.now z.now p.now) (mem_of table_rows tx.now tz.now tp.now) owed.old log.old (on s)) }
    requires sees { Sees n by.c col.w col.j col.i (mem_of m x.now z.now p.now) (mem_of table_rows tx.now tz.now tp.now) col.b.now col.tb.now
        × Below m lists.now.listed.now × Below m lists.now.extra.now }
    ensures { Runs n (Clearing (bit_row n) (mul_row n) by.c by.row (s.g - 1))
        (through (turn_c (bit_row n) (mul_row n) (capacity log.old) by.c by.row) (lists.now.listed.now ++ lists.now.extra.now))
        (store (mem_of m x.now z.now p.now) (mem_of table_rows tx.now tz.now tp.now) owed.old log.old (on s))
        (store (mem_of m x.now z.now p.now) (mem_of table_rows tx.now tz.now tp.now) owed.new log.new (at_of result)) }
{
    let r = clear(
        n,
        m,
        x,
        z,
        p,
        owed,
        tx,
        tz,
        tp,
        log,
        col,
        lists.listed,
        s,
        by,
    )?;
    clear(
        n,
        m,
        x,
        z,
        p,
        owed,
        tx,
        tz,
        tp,
        log,
        col,
        lists.extra,
        r,
        by,
    )
}

// The same, with the column found.
fn clear_column(
    n: usize,
    m: usize,
    x: &[u64],
    z: &[u64],
    p: &[u64],
    owed: &mut [u8],
    tx: &[u64],
    tz: &[u64],
    tp: &[u64],
    log: &mut [u16],
    lists: &Lists<'_>,
    s: Late,
    by: Pivot,
) -> Result<Late, Late>
    requires turn_in { TurnIn n by.c by.row by.h
        (store (mem_of m x.now z.now p.now) (mem_of table_rows tx.now tz.now tp.now) owed.old log.old (on s)) }
    requires below { Below m lists.now.listed.now × Below m lists.now.extra.now }
    ensures { Runs n (Clearing (bit_row n) (mul_row n) by.c by.row (s.g - 1))
        (through (turn_c (bit_row n) (mul_row n) (capacity log.old) by.c by.row) (lists.now.listed.now ++ lists.now.extra.now))
        (store (mem_of m x.now z.now p.now) (mem_of table_rows tx.now tz.now tp.now) owed.old log.old (on s))
        (store (mem_of m x.now z.now p.now) (mem_of table_rows tx.now tz.now tp.now) owed.new log.new (at_of result)) }
{
    let col = column_at(n, x, z, tx, tz, by.c);
    clear_both(n, m, x, z, p, owed, tx, tz, tp, log, col, lists, s, by)
}

// Row pivot becomes the block's next pivot, and column c is cleared; o is two to the power of the block's pivots.
pub(crate) fn freeze(
    n: usize,
    m: usize,
    x: &[u64],
    z: &[u64],
    p: &[u64],
    owed: &mut [u8],
    tx: &mut [u64],
    tz: &mut [u64],
    tp: &mut [u64],
    log: &mut [u16],
    lists: &Lists<'_>,
    s: Late,
    o: u8,
    c: usize,
    pivot: u16,
) -> Result<Late, Late>
    requires freeze_in { FreezeIn n c pivot o (store (mem_of m x.now z.now p.now) (mem_of table_rows tx.old tz.old tp.old) owed.old log.old (on s)) }
    requires below { Below m lists.now.listed.now × Below m lists.now.extra.now }
    ensures { Runs n (Clearing (bit_row n) (mul_row n) c pivot s.g)
        (through (turn_c (bit_row n) (mul_row n) (capacity log.old) c pivot) (lists.now.listed.now ++ lists.now.extra.now))
        (store (mem_of m x.now z.now p.now) (mem_of table_rows tx.old tz.old tp.old) owed.old log.old (on s))
        (store (mem_of m x.now z.now p.now) (mem_of table_rows tx.new tz.new tp.new) owed.new log.new (at_of result)) }
{
    let e = s.entries;
    let t = s.t;
    let g = s.g;
    double(
        n,
        tx,
        tz,
        tp,
        m,
        x,
        z,
        p,
        o as usize,
        RowNumber(pivot as usize),
    );
    let r = Late {
        entries: e,
        t,
        g: g + 1,
    };
    let by = Pivot {
        row: pivot,
        c,
        h: o,
    };
    clear_column(n, m, x, z, p, owed, tx, tz, tp, log, lists, r, by)
}
