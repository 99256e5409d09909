// A row of a set multiplied by a row of another, and what stands on it: rows pay what they owe, the table is doubled.
ghost use Rattle.std.specs.Prelude.{◌≡◌, ◌+◌, ◌*◌, ◌%◌, ◌≤◌, ◌<◌, length};
ghost use Rattle.encoding.specs.Set.{exponent_at, with_exponent, mem_of};
ghost use Rattle.late.specs.Workers.{RoomBy, MultipliedBy, RowsBy, RowBy, Copied, RowPut, Owing, Paid, PaidAll, DoubleIn, FillIn, Doubled, table_rows};

use pauli::{ComplexSign, RowNumber};
use products::Factor;

// The w words of x and z from d on become the product of those from s on and those of bx and bz from t on; its factor is returned.
fn mul_into(
    x: &mut [u64],
    z: &mut [u64],
    bx: &[u64],
    bz: &[u64],
    d: usize,
    s: usize,
    t: usize,
    w: usize,
) -> Factor
    requires { RoomBy w d s t x.old z.old bx.now bz.now }
    ensures { MultipliedBy w d s t x.old z.old bx.now bz.now
        x.new z.new result }
{
    let mut n: u64 = 0;
    let mut f: u64 = 0;
    for i in 0..w {
        let a = s + i;
        let b = t + i;
        let c = d + i;
        let lx = x[a];
        let lz = z[a];
        let rx = bx[b];
        let rz = bz[b];
        n = products::add_clashes(n, lx, lz, rx, rz);
        f = products::turn_threes(f, lx, lz, rx, rz);
        x[c] = lx ^ rx;
        z[c] = lz ^ rz;
    }
    products::factor_from(n, f)
}

// The exponent of row d becomes the sum of that of row a, of that of row b of another set and of e.
fn add_exponent(p: &mut [u64], bp: &[u64], d: RowNumber, a: RowNumber, b: RowNumber, e: ComplexSign)
    ensures { p.new ≡ with_exponent p.old d.0
        ((exponent_at p.old a.0 + exponent_at bp.now b.0 + e.0) % 4) }
{
    let l = encoding::get_exponent(p, a);
    let r = encoding::get_exponent(bp, b);
    encoding::set_exponent(p, d, products::add_signs(l, r, e));
}

// Row d of a set becomes row a of it multiplied by row b of another, with its exponent.
fn mul_by(
    m: usize,
    x: &mut [u64],
    z: &mut [u64],
    p: &mut [u64],
    bm: usize,
    bx: &[u64],
    bz: &[u64],
    bp: &[u64],
    w: usize,
    d: RowNumber,
    a: RowNumber,
    b: RowNumber,
)
    requires { RowsBy w d.0 a.0 b.0 (mem_of m x.old z.old p.old) (mem_of bm bx.now bz.now bp.now) }
    ensures { RowBy w d.0 a.0 b.0 (mem_of m x.old z.old p.old) (mem_of bm bx.now bz.now bp.now) (mem_of m x.new z.new p.new) }
{
    let f = mul_into(x, z, bx, bz, d.0 * w, a.0 * w, b.0 * w, w);
    add_exponent(p, bp, d, a, b, f.phase);
}

// Row k pays what it owes: one product by an entry of the table.
pub(crate) fn pay(
    n: usize,
    m: usize,
    x: &mut [u64],
    z: &mut [u64],
    p: &mut [u64],
    owed: &mut [u8],
    tx: &[u64],
    tz: &[u64],
    tp: &[u64],
    k: usize,
)
    requires { Owing n (mem_of m x.old z.old p.old) owed.old (mem_of table_rows tx.now tz.now tp.now) × (k < m) }
    ensures { Paid n k (mem_of m x.old z.old p.old) owed.old (mem_of table_rows tx.now tz.now tp.now) (mem_of m x.new z.new p.new) owed.new }
{
    let o = owed[k] as usize;
    if o == 0 {
        return;
    }
    mul_by(
        m,
        x,
        z,
        p,
        crate::TABLE,
        tx,
        tz,
        tp,
        encoding::words(n),
        RowNumber(k),
        RowNumber(k),
        RowNumber(o),
    );
    owed[k] = 0;
}

// Every row pays what it owes.
pub(crate) fn pay_all(
    n: usize,
    m: usize,
    x: &mut [u64],
    z: &mut [u64],
    p: &mut [u64],
    owed: &mut [u8],
    tx: &[u64],
    tz: &[u64],
    tp: &[u64],
)
    requires { Owing n (mem_of m x.old z.old p.old) owed.old (mem_of table_rows tx.now tz.now tp.now) }
    ensures { PaidAll n (mem_of m x.old z.old p.old) owed.old (mem_of table_rows tx.now tz.now tp.now) (mem_of m x.new z.new p.new) owed.new }
{
    for k in 0..m {
        pay(n, m, x, z, p, owed, tx, tz, tp, k);
    }
}

// The w words of x from d on become those of y from t on.
fn copy_words(x: &mut [u64], y: &[u64], d: usize, t: usize, w: usize)
    requires { (d + w ≤ length x.old) × (t + w ≤ length y.now) }
    ensures { Copied w d t x.old y.now x.new }
{
    x[d..d + w].copy_from_slice(&y[t..t + w]);
}

// Row d of a set becomes row b of another.
fn put_row(
    m: usize,
    x: &mut [u64],
    z: &mut [u64],
    p: &mut [u64],
    bm: usize,
    bx: &[u64],
    bz: &[u64],
    bp: &[u64],
    w: usize,
    d: RowNumber,
    b: RowNumber,
)
    requires { RowsBy w d.0 d.0 b.0 (mem_of m x.old z.old p.old) (mem_of bm bx.now bz.now bp.now) }
    ensures { RowPut w d.0 b.0 (mem_of m x.old z.old p.old) (mem_of bm bx.now bz.now bp.now) (mem_of m x.new z.new p.new) }
{
    copy_words(x, bx, d.0 * w, b.0 * w, w);
    copy_words(z, bz, d.0 * w, b.0 * w, w);
    encoding::set_exponent(p, d, encoding::get_exponent(bp, b));
}

// Entry i + o of the table becomes entry i times row a, for each i from 1 up to o.
fn fill(
    n: usize,
    w: usize,
    tx: &mut [u64],
    tz: &mut [u64],
    tp: &mut [u64],
    m: usize,
    x: &[u64],
    z: &[u64],
    p: &[u64],
    o: usize,
    a: RowNumber,
)
    requires { FillIn n w o a.0 (mem_of table_rows tx.old tz.old tp.old) (mem_of m x.now z.now p.now) }
    ensures { Doubled n o a.0 (mem_of table_rows tx.old tz.old tp.old) (mem_of m x.now z.now p.now) (mem_of table_rows tx.new tz.new tp.new) }
{
    for i in 1..o {
        mul_by(
            crate::TABLE,
            tx,
            tz,
            tp,
            m,
            x,
            z,
            p,
            w,
            RowNumber(i + o),
            RowNumber(i),
            a,
        );
    }
}

// The table of o entries becomes one of twice as many: entry o is row a, entry i + o is entry i times row a.
pub(crate) fn double(
    n: usize,
    tx: &mut [u64],
    tz: &mut [u64],
    tp: &mut [u64],
    m: usize,
    x: &[u64],
    z: &[u64],
    p: &[u64],
    o: usize,
    a: RowNumber,
)
    requires { DoubleIn n o a.0 (mem_of table_rows tx.old tz.old tp.old) (mem_of m x.now z.now p.now) }
    ensures { Doubled n o a.0 (mem_of table_rows tx.old tz.old tp.old) (mem_of m x.now z.now p.now) (mem_of table_rows tx.new tz.new tp.new) }
{
    let w = encoding::words(n);
    put_row(crate::TABLE, tx, tz, tp, m, x, z, p, w, RowNumber(o), a);
    fill(n, w, tx, tz, tp, m, x, z, p, o, a);
}
