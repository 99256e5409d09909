// The pivot and the row found pay what they owe, and the pivot is multiplied by the row found, if that is another.
ghost use Rattle.std.specs.Prelude.{◌≡◌, ◌+◌, ◌%◌, ◌<◌};
ghost use Rattle.pauli.specs.Row.{mul_row, bit_row};
ghost use Rattle.encoding.specs.Limits.{words_of};
ghost use Rattle.encoding.specs.Set.{exponent_at, with_exponent, mem_of};
ghost use Rattle.reduction.specs.Log.{capacity};
ghost use Rattle.reduction.specs.Workers.{lead_c};
ghost use Rattle.tabled.specs.Workers.{Led};
ghost use Rattle.late.specs.Workers.{table_rows, on, at_of, store, Runs, RowsBy, RowBy, PutIn, Puts, LeadIn, Finds, Makes, lead_by};

use crate::clear::Late;
use crate::rows::pay;
use pauli::{ComplexSign, RowNumber};

// The exponents of row b and of the product are added to that of row a.
pub fn add_exponent_of(p: &mut [u64], a: RowNumber, b: RowNumber, e: ComplexSign)
    ensures { p.new ≡ with_exponent p.old a.0
        ((exponent_at p.old a.0 + exponent_at p.old b.0 + e.0) % 4) }
{
    let l = encoding::get_exponent(p, a);
    let r = encoding::get_exponent(p, b);
    encoding::set_exponent(p, a, products::add_signs(l, r, e));
}

// Row a is multiplied by row b of the same set.
fn mul_rows(
    w: usize,
    m: usize,
    x: &mut [u64],
    z: &mut [u64],
    p: &mut [u64],
    a: RowNumber,
    b: RowNumber,
)
    requires { RowsBy w a.0 a.0 b.0 (mem_of m x.old z.old p.old) (mem_of m x.old z.old p.old) }
    ensures { RowBy w a.0 a.0 b.0 (mem_of m x.old z.old p.old) (mem_of m x.old z.old p.old) (mem_of m x.new z.new p.new) }
{
    let f = products::imul_op_op(x, z, a.0 * w, b.0 * w, w);
    add_exponent_of(p, a, b, f.phase);
}

// Row a is multiplied by row b, and (a, b) is logged, if the entry fits.
fn put(
    n: usize,
    m: usize,
    x: &mut [u64],
    z: &mut [u64],
    p: &mut [u64],
    log: &mut [u16],
    s: Late,
    a: u16,
    b: u16,
) -> Result<Late, Late>
    requires { PutIn n (mem_of m x.old z.old p.old) log.old (on s) a b }
    ensures { Puts n (mem_of m x.old z.old p.old) log.old (on s) a b (mem_of m x.new z.new p.new) log.new (at_of result) }
{
    let e = s.entries;
    let t = s.t;
    let g = s.g;
    if log.len() / 2 <= e {
        return Err(s);
    }
    mul_rows(
        encoding::words(n),
        m,
        x,
        z,
        p,
        RowNumber(a as usize),
        RowNumber(b as usize),
    );
    let k = e + e;
    log[k] = a;
    log[k + 1] = b;
    Ok(Late {
        entries: e + 1,
        t,
        g,
    })
}

// The row found pays, and the pivot, which owes nothing, is multiplied by it.
fn lead_by(
    n: usize,
    m: usize,
    x: &mut [u64],
    z: &mut [u64],
    p: &mut [u64],
    owed: &mut [u8],
    tx: &[u64],
    tz: &[u64],
    tp: &[u64],
    log: &mut [u16],
    s: Late,
    pivot: u16,
    found: u16,
) -> Result<Late, Late>
    requires { LeadIn n pivot found (store (mem_of m x.old z.old p.old) (mem_of table_rows tx.now tz.now tp.now) owed.old log.old (on s)) }
    ensures { Makes n (lead_by n (capacity log.old) pivot found)
        (store (mem_of m x.old z.old p.old) (mem_of table_rows tx.now tz.now tp.now) owed.old log.old (on s))
        (store (mem_of m x.new z.new p.new) (mem_of table_rows tx.now tz.now tp.now) owed.new log.new (at_of result)) }
{
    pay(n, m, x, z, p, owed, tx, tz, tp, found as usize);
    put(n, m, x, z, p, log, s, pivot, found)
}

// The pivot pays; if the row found is another, that pays too, and the pivot is multiplied by it.
pub(crate) fn lead(
    n: usize,
    m: usize,
    x: &mut [u64],
    z: &mut [u64],
    p: &mut [u64],
    owed: &mut [u8],
    tx: &[u64],
    tz: &[u64],
    tp: &[u64],
    log: &mut [u16],
    s: Late,
    c: usize,
    pivot: u16,
    found: u16,
) -> Result<Late, Late>
    requires lead_in { LeadIn n pivot found (store (mem_of m x.old z.old p.old) (mem_of table_rows tx.now tz.now tp.now) owed.old log.old (on s)) }
    requires finds { Finds n c pivot found (store (mem_of m x.old z.old p.old) (mem_of table_rows tx.now tz.now tp.now) owed.old log.old (on s)) }
    ensures { Runs n (Led (bit_row n) (mul_row n) c pivot s.g) (lead_c (bit_row n) (mul_row n) (capacity log.old) pivot found)
        (store (mem_of m x.old z.old p.old) (mem_of table_rows tx.now tz.now tp.now) owed.old log.old (on s))
        (store (mem_of m x.new z.new p.new) (mem_of table_rows tx.now tz.now tp.now) owed.new log.new (at_of result)) }
{
    pay(n, m, x, z, p, owed, tx, tz, tp, pivot as usize);
    if found == pivot {
        return Ok(s);
    }
    lead_by(n, m, x, z, p, owed, tx, tz, tp, log, s, pivot, found)
}
