// Numbers into bytes, the lowest byte first, one part behind the other.
ghost use Rattle.std.specs.Prelude.{◌≡◌, [], ◌∷◌, ◌+◌, ◌*◌, ◌/◌, ◌%◌, ◌≤◌, length};
ghost use Rattle.text.specs.Readers.{over};
ghost use Rattle.pwl.specs.Bytes.{le, les_of};
ghost use Rattle.pwl.specs.File.{front_for, image, laid, front, bytes_in, shapes_of, run};
ghost use Rattle.pwl.specs.Workers.{parts, task_parts, claim_parts, Put, Imaged};

use crate::Front;
use crate::bytes::Laid;
use crate::opening::{FRONT_BYTES, MARK, VERSION};
use terms::Lists;

fn low(v: u64) -> u8
    ensures { result ≡ v % 256 }
{
    (v % 256) as u8
}

// The k bytes of v at a place. The loop counts from 0, so that it is unrolled where k is known.
#[tactic(auto, using(crate::proofs::Stores::byte_next, crate::proofs::Stores::byte_end))]
fn put(v: u64, k: usize, at: usize, out: &mut [u8])
    requires { at + k ≤ length out.old }
    ensures { out.new ≡ over (le k v) at out.old }
{
    let mut r = v;
    for j in 0..k {
        out[at + j] = low(r);
        r /= 256;
    }
}

// The items of a list at a place; the place behind them is returned.
fn put_list<T: Laid>(list: &[T], at: usize, out: &mut [u8]) -> usize
    requires { at + T.BYTES * length list.now ≤ length out.old }
    ensures { (result ≡ at + T.BYTES * length list.now)
        × (out.new ≡ over (les_of T.BYTES T.value list.now) at out.old) }
{
    let mut p = at;
    for v in list {
        put(v.wide(), T::BYTES, p, out);
        p += T::BYTES;
    }
    p
}

// Three lists, one behind the other.
#[tactic(auto, using(crate::proofs::Stores::three_parts))]
fn put_lists(lists: &Lists<'_>, at: usize, out: &mut [u8]) -> usize
    requires { at + (2 * length lists.now.order.now + 2 * length lists.now.listed.now + 2 * length lists.now.extra.now) ≤ length out.old }
    ensures { (result ≡ at + (2 * length lists.now.order.now + 2 * length lists.now.listed.now + 2 * length lists.now.extra.now))
        × (out.new ≡ over (laid (parts 2 lists.now.order.now lists.now.listed.now lists.now.extra.now)) at out.old) }
{
    let j = put_list(lists.order, at, out);
    let k = put_list(lists.listed, j, out);
    put_list(lists.extra, k, out)
}

// A row set: X, Z and phase words.
#[tactic(auto, using(crate::proofs::Stores::three_parts))]
fn put_rows(x: &[u64], z: &[u64], p: &[u64], at: usize, out: &mut [u8]) -> usize
    requires { at + (8 * length x.now + 8 * length z.now + 8 * length p.now) ≤ length out.old }
    ensures { (result ≡ at + (8 * length x.now + 8 * length z.now + 8 * length p.now))
        × (out.new ≡ over (laid (parts 8 x.now z.now p.now)) at out.old) }
{
    let j = put_list(x, at, out);
    let k = put_list(z, j, out);
    put_list(p, k, out)
}

// The front.
#[tactic(auto, using(crate::proofs::Stores::front_parts))]
fn put_front(f: Front, out: &mut [u8])
    requires { (41 ≤ length out.old) × (f.n ≤ 65535) × (f.m ≤ 65535) }
    ensures { out.new ≡ over (laid (front f)) 0 out.old }
{
    put(MARK as u64, 3, 0, out);
    let head = [VERSION as u16, f.n as u16, f.m as u16];
    let j = put_list(&head, 3, out);
    let counts = [
        f.order as u64,
        f.listed as u64,
        f.extra as u64,
        f.entries as u64,
    ];
    put_list(&counts, j, out);
}

// What was to be reduced, behind the front.
#[tactic(auto, unfolding(crate::specs::File::bytes_in, crate::specs::File::shapes_of))]
fn put_task(lists: &Lists<'_>, x: &[u64], z: &[u64], p: &[u64], out: &mut [u8]) -> usize
    requires { 41 + bytes_in (shapes_of (task_parts lists.now.order.now lists.now.listed.now lists.now.extra.now x.now z.now p.now))
        ≤ length out.old }
    ensures { Put
        (task_parts lists.now.order.now lists.now.listed.now lists.now.extra.now x.now z.now p.now)
        41 out.old out.new result }
{
    let at = put_lists(lists, FRONT_BYTES, out);
    put_rows(x, z, p, at, out)
}

// What is claimed, behind that.
#[tactic(auto, unfolding(crate::specs::File::bytes_in, crate::specs::File::shapes_of))]
fn put_claim(log: &[u16], cx: &[u64], cz: &[u64], cp: &[u64], at: usize, out: &mut [u8]) -> usize
    requires { at + bytes_in (shapes_of (claim_parts log.now cx.now cz.now cp.now)) ≤ length out.old }
    ensures { Put (claim_parts log.now cx.now cz.now cp.now)
        at out.old out.new result }
{
    let next = put_list(log, at, out);
    put_rows(cx, cz, cp, next, out)
}

// The image of a run; its length is returned.
pub(crate) fn put_run(
    f: Front,
    lists: &Lists<'_>,
    x: &[u64],
    z: &[u64],
    p: &[u64],
    log: &[u16],
    cx: &[u64],
    cz: &[u64],
    cp: &[u64],
    out: &mut [u8],
) -> usize
    requires n_bound { (f.n ≤ 65535) × (f.m ≤ 65535)
        × (f ≡ front_for
        (run f.n f.m lists.now.order.now lists.now.listed.now lists.now.extra.now x.now z.now p.now log.now cx.now cz.now cp.now)) }
    requires cp_in_bounds { length (image
        (run f.n f.m lists.now.order.now lists.now.listed.now lists.now.extra.now x.now z.now p.now log.now cx.now cz.now cp.now))
        ≤ length out.old }
    ensures { Imaged (run f.n f.m lists.now.order.now lists.now.listed.now lists.now.extra.now x.now z.now p.now log.now cx.now cz.now cp.now)
        out.old out.new result }
{
    put_front(f, out);
    let at = put_task(lists, x, z, p, out);
    put_claim(log, cx, cz, cp, at, out)
}
