// The replay checker: it tells anyone whether a claimed result of a reduction is right, from the log that someone made.

#![tactic(auto)]

ghost use Rattle.std.specs.Prelude.{◌≡◌, [], ◌∷◌, IfOk};
ghost use Rattle.encoding.specs.Set.{mem_of, set_of};
ghost use Rattle.encoding.specs.Refusals.{done_or};
ghost use Rattle.encoding.specs.Ranks.{by_rank};
ghost use Rattle.replay.specs.Check.{task, claim, odd_log, check_fault, Passed, given, verdict_on, Checked};
ghost use Rattle.replay.specs.Workers.{Judged};
ghost use Rattle.replay.specs.declared.NotUndone.TheVariants.{Refused};

use encoding::{Refusal, RowSet, set_fault, smaller};
use terms::{Lists, reduce_fault};

mod entries;
mod form;
mod rows;
pub mod undo;

// What the checker says of a claim.
#[derive(Clone, Copy, Debug, PartialEq, Eq)]
pub enum Verdict {
    // The first bad entry of the log, counted in pairs from 0.
    BadEntry(usize),
    // The first row in which the replay and the claim differ.
    Differs(usize),
    NotReduced,
    Yes,
}

// Why a log is not walked back: its first bad entry, counted in pairs from 0, or a refusal.
#[derive(Clone, Copy, Debug, PartialEq, Eq)]
pub enum NotUndone {
    BadEntry(usize),
    Refused(Refusal),
}

impl From<Refusal> for NotUndone {
    ghost from_gives = { λ r e. e ≡ Refused r };

    fn from(r: Refusal) -> NotUndone {
        NotUndone::Refused(r)
    }
}

// Whether a log of so many units is refused: one of odd length is.
pub(crate) fn log_fault(units: usize) -> Result<(), Refusal>
    ensures { result ≡ done_or (by_rank (odd_log units ∷ [])) }
{
    if units % 2 == 1 {
        return Err(Refusal::ODD_LOG);
    }
    Ok(())
}

// The verdict on rows that were replayed: the first that differs from what is claimed, else whether they are in reduced form.
fn compare(set: &RowSet<'_>, lists: &Lists<'_>, claimed: &RowSet<'_>) -> Verdict
    requires { Passed (task set.now.n (set_of set.now) lists.now.order.now lists.now.listed.now lists.now.extra.now) (set_of claimed.now) }
    ensures { result ≡ given (verdict_on (task set.now.n (set_of set.now) lists.now.order.now lists.now.listed.now lists.now.extra.now)
        (claim [] (set_of claimed.now))) }
{
    if let Some(d) = rows::first_diff(set, claimed) {
        return Verdict::Differs(d);
    }
    if form::is_reduced(set.n, set.x, set.z, lists) {
        return Verdict::Yes;
    }
    Verdict::NotReduced
}

// The verdict on a claim that nothing refuses: all entries are tested, then all are replayed, then the rows are compared.
fn judge(
    n: usize,
    m: usize,
    x: &mut [u64],
    z: &mut [u64],
    phases: &mut [u64],
    lists: &Lists<'_>,
    log: &[u16],
    claimed: &RowSet<'_>,
) -> Verdict
    requires { Passed (task n (mem_of m x.old z.old phases.old) lists.now.order.now lists.now.listed.now lists.now.extra.now) (set_of claimed.now) }
    ensures { Judged (task n (mem_of m x.old z.old phases.old) lists.now.order.now lists.now.listed.now lists.now.extra.now)
        (claim log.now (set_of claimed.now)) result (mem_of m x.new z.new phases.new) }
{
    if let Some(b) = entries::first_bad(log, lists) {
        return Verdict::BadEntry(b);
    }
    rows::redo(n, m, x, z, phases, log, log.len() / 2);
    compare(&RowSet { n, m, x, z, phases }, lists, claimed)
}

// Whether what a check is given is refused: by the parts, then by the log. The claimed rows are lent with the n and m of the set.
pub fn check_fault(
    set: &RowSet<'_>,
    lists: &Lists<'_>,
    log: &[u16],
    cx: &[u64],
    cz: &[u64],
    cphases: &[u64],
) -> Result<(), Refusal>
    ensures value { result ≡ done_or (check_fault (task set.now.n (set_of set.now) lists.now.order.now lists.now.listed.now lists.now.extra.now)
        (claim log.now (mem_of set.now.m cx.now cz.now cphases.now))) }
    ensures passed { IfOk result (λ _. Passed (task set.now.n (set_of set.now) lists.now.order.now lists.now.listed.now lists.now.extra.now)
        (mem_of set.now.m cx.now cz.now cphases.now)) }
{
    let claimed = RowSet {
        n: set.n,
        m: set.m,
        x: cx,
        z: cz,
        phases: cphases,
    };
    let task = reduce_fault(set, lists);
    smaller(task, set_fault(&claimed))?;
    log_fault(log.len())
}

// The replay checker. x, z and phases come in as the starting rows and end as the replayed ones; at a refusal or a bad entry they are unchanged.
// Both sets have the one n and m, so that they come slice by slice.
#[tactic(auto, using(encoding::proofs::Faults::refusing, encoding::proofs::Faults::passing, encoding::proofs::Faults::kept, encoding::proofs::Faults::made, crate::proofs::Faults::tells))]
pub fn check(
    n: usize,
    m: usize,
    x: &mut [u64],
    z: &mut [u64],
    phases: &mut [u64],
    lists: &Lists<'_>,
    log: &[u16],
    cx: &[u64],
    cz: &[u64],
    cphases: &[u64],
) -> Result<Verdict, Refusal>
    ensures { Checked (task n (mem_of m x.old z.old phases.old) lists.now.order.now lists.now.listed.now lists.now.extra.now)
        (claim log.now (mem_of m cx.now cz.now cphases.now)) result (mem_of m x.new z.new phases.new) }
{
    let claimed = RowSet {
        n,
        m,
        x: cx,
        z: cz,
        phases: cphases,
    };
    let set = RowSet { n, m, x, z, phases };
    check_fault(&set, lists, log, cx, cz, cphases)?;
    Ok(judge(n, m, x, z, phases, lists, log, &claimed))
}
