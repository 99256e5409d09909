// Writing a file: every test first, then the image.
ghost use Rattle.pwl.specs.File.{run, whole_len};
ghost use Rattle.std.specs.Prelude.{◌≡◌, [], ◌∷◌, ◌≤◌, ltb};
ghost use Rattle.encoding.specs.Ranks.{by_rank};
ghost use Rattle.pwl.specs.Calls.{short_line, ImageWritten, Writes};
ghost use Rattle.pwl.specs.Workers.{Shaped};

use crate::Front;
use crate::opening::size_fault;
use crate::storing::put_run;
use encoding::{Refusal, RowSet};
use replay::check_fault;
use terms::Lists;

// Whether a file with this front is longer than so many bytes.
#[tactic(auto, using(crate::proofs::Writes::is_short))]
fn too_short(len: usize, f: Front) -> bool
    requires { (f.n ≤ 65535) × (f.m ≤ 65535) }
    ensures { result ≡ ltb len (whole_len f) }
{
    size_fault(len, f) == Err(Refusal::SHORT_FILE)
}

// The image of a run that the table passed, if the output has room for it.
#[tactic(auto, using(crate::proofs::Writes::run_short, crate::proofs::Writes::run_room, crate::proofs::Writes::run_whole))]
fn write_run(
    n: usize,
    m: usize,
    x: &[u64],
    z: &[u64],
    p: &[u64],
    lists: &Lists<'_>,
    log: &[u16],
    cx: &[u64],
    cz: &[u64],
    cp: &[u64],
    out: &mut [u8],
) -> Result<usize, Refusal>
    requires { Shaped (run n m lists.now.order.now lists.now.listed.now lists.now.extra.now x.now z.now p.now log.now cx.now cz.now cp.now) }
    ensures { ImageWritten (by_rank (short_line
        (run n m lists.now.order.now lists.now.listed.now lists.now.extra.now x.now z.now p.now log.now cx.now cz.now cp.now) out.old ∷ []))
        (run n m lists.now.order.now lists.now.listed.now lists.now.extra.now x.now z.now p.now log.now cx.now cz.now cp.now)
        out.old out.new result }
{
    let f = Front {
        n,
        m,
        order: lists.order.len(),
        listed: lists.listed.len(),
        extra: lists.extra.len(),
        entries: log.len() / 2,
    };
    if too_short(out.len(), f) {
        return Err(Refusal::SHORT_OUTPUT);
    }
    Ok(put_run(f, lists, x, z, p, log, cx, cz, cp, out))
}

// A run as a file, from the start of the output; what the output has past it stays. Both sets have the one n and m, so that they come slice by slice.
#[tactic(auto, using(crate::proofs::Writes::write_refused, crate::proofs::Writes::write_shaped, crate::proofs::Writes::write_done))]
pub fn write(
    n: usize,
    m: usize,
    x: &[u64],
    z: &[u64],
    p: &[u64],
    lists: &Lists<'_>,
    log: &[u16],
    cx: &[u64],
    cz: &[u64],
    cp: &[u64],
    out: &mut [u8],
) -> Result<usize, Refusal>
    ensures { Writes (run n m lists.now.order.now lists.now.listed.now lists.now.extra.now x.now z.now p.now log.now cx.now cz.now cp.now)
        out.old out.new result }
{
    let start = RowSet {
        n,
        m,
        x,
        z,
        phases: p,
    };
    check_fault(&start, lists, log, cx, cz, cp)?;
    write_run(n, m, x, z, p, lists, log, cx, cz, cp, out)
}
