// The reduction rule done late: a row's products by the pivots of a block are put off and made at once, by a table of products of these.

#![tactic(auto)]

ghost use Rattle.encoding.specs.Set.{mem_of};
ghost use Rattle.std.specs.Prelude.{◌≡◌, not, ◌||◌, ◌+◌};
ghost use Rattle.pauli.specs.Row.{mul_row, bit_row};
ghost use Rattle.encoding.specs.Refusals.{some, too_large};
ghost use Rattle.reduction.specs.Log.{capacity};
ghost use Rattle.reduction.specs.Workers.{through, column_c};
ghost use Rattle.late.specs.Workers.{come, start, Does, Blanks, ListsIn, Told, Reduces};

use column::reduce;
use encoding::{MAX_ROWS, RowSet};
pub use lead::add_exponent_of;

mod clear;
mod column;
mod lead;
mod rows;

// The entries of the table: one for each set of a block's pivots.
const TABLE: usize = 64;

// The pivots of a block.
const BLOCK: usize = 6;

// The words of the largest table's X part, and of its exponents.
const TABLE_WORDS: usize = 4096;

const TABLE_PHASES: usize = 2;

// What a reduction and its check go by: the columns in order, the rows that may be pivots, and the rows that are cleared besides.
#[derive(Clone, Copy)]
pub struct Lists<'a> {
    pub order: &'a [u16],
    pub listed: &'a [u16],
    pub extra: &'a [u16],
}

// How far a run has come: the entries in its log, the pivots. It is the error of a run that a full log ended, with rows and log as after the entries
// that fitted.
#[derive(Drop)]
pub struct Progress {
    pub entries: usize,
    pub t: usize,
}

// Whether a number of the list is m or above.
fn too_large(list: &[u16], m: usize) -> bool
    ensures { result ≡ some (too_large m) list.now }
{
    list.iter().any(|&k| m <= k as usize)
}

// Whether a set can be reduced by an order and two lists: what refusals 1 to 6 ask.
fn ready(n: usize, m: usize, x: &[u64], z: &[u64], p: &[u64], lists: &Lists<'_>) -> bool
    ensures { Told (ListsIn n lists.now.order.now lists.now.listed.now lists.now.extra.now (mem_of m x.now z.now p.now)) result }
{
    let set = RowSet {
        n,
        m,
        x,
        z,
        phases: p,
    };
    let Ok(()) = encoding::set_fault(&set) else {
        return false;
    };
    let a = too_large(lists.order, n + n);
    let b = too_large(lists.listed, m);
    let c = too_large(lists.extra, m);
    !(a | (b | c))
}

// The parts of the scratch arrays that are used.
fn lend(
    n: usize,
    m: usize,
    x: &mut [u64],
    z: &mut [u64],
    p: &mut [u64],
    owed: &mut [u8],
    tx: &mut [u64],
    tz: &mut [u64],
    tp: &mut [u64],
    log: &mut [u16],
    lists: &Lists<'_>,
) -> Result<Progress, Progress>
    requires { ListsIn n lists.now.order.now lists.now.listed.now lists.now.extra.now (mem_of m x.old z.old p.old)
        × Blanks owed.old tx.old tz.old tp.old }
    ensures { Does n
        (through (column_c (bit_row n) (mul_row n) (capacity log.old) lists.now.listed.now lists.now.extra.now) lists.now.order.now)
        (mem_of m x.old z.old p.old) log.old start (mem_of m x.new z.new p.new) log.new (come result) }
{
    let k = TABLE * encoding::words(n);
    reduce(
        n,
        m,
        x,
        z,
        p,
        &mut owed[0..m],
        &mut tx[0..k],
        &mut tz[0..k],
        tp,
        log,
        lists,
    )
}

// The scratch arrays: what rows owe, and the table.
fn scratched(
    n: usize,
    m: usize,
    x: &mut [u64],
    z: &mut [u64],
    p: &mut [u64],
    log: &mut [u16],
    lists: &Lists<'_>,
) -> Result<Progress, Progress>
    requires { ListsIn n lists.now.order.now lists.now.listed.now lists.now.extra.now (mem_of m x.old z.old p.old) }
    ensures { Does n
        (through (column_c (bit_row n) (mul_row n) (capacity log.old) lists.now.listed.now lists.now.extra.now) lists.now.order.now)
        (mem_of m x.old z.old p.old) log.old start (mem_of m x.new z.new p.new) log.new (come result) }
{
    let mut owed = [0u8; MAX_ROWS];
    let mut tx = [0u64; TABLE_WORDS];
    let mut tz = [0u64; TABLE_WORDS];
    let mut tp = [0u64; TABLE_PHASES];
    lend(
        n, m, x, z, p, &mut owed, &mut tx, &mut tz, &mut tp, log, lists,
    )
}

// The columns of the order, one after another, from an empty log on: the run that the rule's loops make, entry by entry. Where the words are no row set or a number
// is too large, nothing is done.
pub fn columns(
    n: usize,
    m: usize,
    x: &mut [u64],
    z: &mut [u64],
    p: &mut [u64],
    log: &mut [u16],
    lists: &Lists<'_>,
) -> Result<Progress, Progress>
    ensures { Reduces n lists.now.order.now lists.now.listed.now lists.now.extra.now (mem_of m x.old z.old p.old) log.old
        (mem_of m x.new z.new p.new) log.new (come result) }
{
    if ready(n, m, x, z, p, lists) {
        return scratched(n, m, x, z, p, log, lists);
    }
    Ok(Progress { entries: 0, t: 0 })
}
