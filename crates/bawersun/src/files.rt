// Log files: the calls of the crate pwl. A front is six numbers, each through a reference of its own.
ghost use Rattle.pwl.specs.File.{run};
ghost use Rattle.pwl.specs.File.{front_of};
ghost use Rattle.pwl.specs.Calls.{opened, Writes, Reads, outputs};
ghost use Rattle.bawersun.specs.Told.{Told, Exactly, Gives, value_seen};

use crate::told;
use encoding::Refusal;
use pwl::Front;
use terms::Lists;

// What is seen of a file that is opened or read; where there is no front, the numbers stay.
fn fronted(
    a: Result<Front, Refusal>,
    n: &mut usize,
    m: &mut usize,
    order: &mut usize,
    listed: &mut usize,
    extra: &mut usize,
    entries: &mut usize,
) -> u8
    ensures { Gives value_seen (front_of n.old m.old order.old listed.old extra.old entries.old)
        (front_of n.new m.new order.new listed.new extra.new entries.new) result a }
{
    match a {
        Ok(f) => {
            *n = f.n;
            *m = f.m;
            *order = f.order;
            *listed = f.listed;
            *extra = f.extra;
            *entries = f.entries;
            0
        }
        Err(r) => r.0,
    }
}

#[unsafe(no_mangle)]
pub extern "C" fn bawersun_pwl_open(
    file: &[u8],
    n: &mut usize,
    m: &mut usize,
    order: &mut usize,
    listed: &mut usize,
    extra: &mut usize,
    entries: &mut usize,
) -> u8
    ensures { Told (Exactly (opened file.now))
        (Gives value_seen (front_of n.old m.old order.old listed.old extra.old entries.old) (front_of n.new m.new order.new listed.new extra.new entries.new) result) }
{
    fronted(pwl::open(file), n, m, order, listed, extra, entries)
}

#[unsafe(no_mangle)]
pub extern "C" fn bawersun_pwl_write(
    n: usize,
    m: usize,
    x: &[u64],
    z: &[u64],
    phases: &[u64],
    order: &[u16],
    listed: &[u16],
    extra: &[u16],
    log: &[u16],
    cx: &[u64],
    cz: &[u64],
    cphases: &[u64],
    out: &mut [u8],
    length: &mut usize,
) -> u8
    ensures { Told (Writes (run n m order.now listed.now extra.now x.now z.now phases.now log.now cx.now cz.now cphases.now) out.old out.new)
        (Gives value_seen length.old length.new result) }
{
    let lists = Lists {
        order,
        listed,
        extra,
    };
    let a = pwl::write(n, m, x, z, phases, &lists, log, cx, cz, cphases, out);
    told(a, length)
}

#[unsafe(no_mangle)]
pub extern "C" fn bawersun_pwl_read(
    file: &[u8],
    units: &mut [u16],
    x: &mut [u64],
    z: &mut [u64],
    phases: &mut [u64],
    claimed: &mut [u64],
    n: &mut usize,
    m: &mut usize,
    order: &mut usize,
    listed: &mut usize,
    extra: &mut usize,
    entries: &mut usize,
) -> u8
    ensures { Told (Reads file.now (outputs units.old x.old z.old phases.old claimed.old) (outputs units.new x.new z.new phases.new claimed.new))
        (Gives value_seen (front_of n.old m.old order.old listed.old extra.old entries.old) (front_of n.new m.new order.new listed.new extra.new entries.new) result) }
{
    let a = pwl::read(file, units, x, z, phases, claimed);
    fronted(a, n, m, order, listed, extra, entries)
}
