// Terms: the product of two rows of a set in place, and the reduction of a set with its log.

#![tactic(auto)]

ghost use Rattle.std.specs.Prelude.{◌≡◌, ◌+◌, ◌≤◌, length, IfOk};
ghost use Rattle.encoding.specs.Set.{Sound, mem_of, set_of};
ghost use Rattle.encoding.specs.Limits.{max_qubits, max_rows};
ghost use Rattle.encoding.specs.Refusals.{done_or};
ghost use Rattle.terms.specs.Refused.{reduce_fault, Reducible};
ghost use Rattle.terms.specs.Workers.{ListsIn};
ghost use Rattle.terms.specs.declared.Stopped.TheVariants.{Refused};
ghost use Rattle.terms.specs.Calls.{Multiplies, Leaves, outcome_of, Reduces, whole_outcome, ReducesAll, up_to};

use encoding::{MAX_ROWS, Refusal, RowSet};
pub use late::Lists;
use pauli::RowNumber;

mod lists;
mod reduce;
pub mod rows;

// The columns of the longest row: X and Z of each qubit.
const MAX_COLUMNS: usize = 2 * encoding::MAX_QUBITS;

// What a reduction comes to that is done: the number of log entries, and of pivots.
#[derive(Clone, Copy, Debug, PartialEq, Eq)]
pub struct Canonicalized {
    pub entries: usize,
    pub t: usize,
}

// Why a reduction is not done: its log is full (refusal 8), with the log's capacity, or it is refused.
#[derive(Clone, Copy, Debug, PartialEq, Eq)]
pub enum Stopped {
    Full(usize),
    Refused(Refusal),
}

impl From<Refusal> for Stopped {
    ghost from_gives = { λ r e. e ≡ Refused r };

    fn from(r: Refusal) -> Stopped {
        Stopped::Refused(r)
    }
}

// Row a of the set is multiplied by row b, in place; the number of clashes is returned.
#[tactic(auto, using(encoding::proofs::Faults::refusing, encoding::proofs::Faults::kept))]
pub fn imul(
    n: usize,
    m: usize,
    x: &mut [u64],
    z: &mut [u64],
    phases: &mut [u64],
    a: RowNumber,
    b: RowNumber,
) -> Result<u16, Refusal>
    ensures { Multiplies n a.0 b.0 (mem_of m x.old z.old phases.old) (mem_of m x.new z.new phases.new) result }
{
    let large = (m <= a.0) | (m <= b.0);
    encoding::row_fault(&RowSet { n, m, x, z, phases }, large)?;
    Ok(rows::imul_unchecked(n, m, x, z, phases, a, b))
}

// Whether a set, an order and two lists are refused. The set's lines come first, so the lists are looked at within the limits only.
pub fn reduce_fault(set: &RowSet<'_>, lists: &Lists<'_>) -> Result<(), Refusal>
    ensures value { result ≡ done_or (reduce_fault set.now.n (set_of set.now) lists.now.order.now lists.now.listed.now lists.now.extra.now) }
    ensures passed { IfOk result (λ _. Reducible set.now.n lists.now.order.now lists.now.listed.now lists.now.extra.now (set_of set.now)) }
{
    encoding::set_fault(set)?;
    lists::lists_fault(set.n, set.m, lists)
}

// The reduction of a set that the refusals passed.
fn reduced(
    n: usize,
    m: usize,
    x: &mut [u64],
    z: &mut [u64],
    phases: &mut [u64],
    lists: &Lists<'_>,
    log: &mut [u16],
) -> Result<Canonicalized, Stopped>
    requires { ListsIn n lists.now.order.now lists.now.listed.now lists.now.extra.now (mem_of m x.old z.old phases.old) }
    ensures { Leaves n 0
        (outcome_of n lists.now.order.now lists.now.listed.now lists.now.extra.now (mem_of m x.old z.old phases.old) log.old)
        (mem_of m x.old z.old phases.old) log.old (mem_of m x.new z.new phases.new) log.new result }
{
    match reduce::columns(n, m, x, z, phases, log, lists) {
        Ok(s) => {
            let entries = s.entries;
            let t = s.t;
            Ok(Canonicalized { entries, t })
        }
        Err(_) => Err(Stopped::Full(log.len() / 2)),
    }
}

// The set is reduced by the order of columns: pivots are found among the listed rows, and these and the extra rows are cleared. Products are logged.
pub fn canonicalize(
    n: usize,
    m: usize,
    x: &mut [u64],
    z: &mut [u64],
    phases: &mut [u64],
    lists: &Lists<'_>,
    log: &mut [u16],
) -> Result<Canonicalized, Stopped>
    ensures { Reduces n lists.now.order.now lists.now.listed.now lists.now.extra.now (mem_of m x.old z.old phases.old) log.old
        (mem_of m x.new z.new phases.new) log.new result }
{
    reduce_fault(&RowSet { n, m, x, z, phases }, lists)?;
    reduced(n, m, x, z, phases, lists, log)
}

// The numbers from 0 on.
fn count_up(list: &mut [u16])
    requires { length list.old ≤ max_qubits + max_qubits }
    ensures { list.new ≡ up_to (length list.old) }
{
    let m = list.len();
    for i in 0..m {
        list[i] = i as u16;
    }
}

// All columns and all rows, from lists of the numbers up to the limits.
fn reduced_by(
    n: usize,
    m: usize,
    x: &mut [u64],
    z: &mut [u64],
    phases: &mut [u64],
    columns: &[u16],
    rows: &[u16],
    log: &mut [u16],
) -> Result<Canonicalized, Stopped>
    requires sound { Sound n (mem_of m x.old z.old phases.old) }
    requires columns_value { (columns.now ≡ up_to (max_qubits + max_qubits)) × (rows.now ≡ up_to max_rows) }
    ensures { Leaves n 0 (whole_outcome n (mem_of m x.old z.old phases.old) log.old)
        (mem_of m x.old z.old phases.old) log.old (mem_of m x.new z.new phases.new) log.new result }
{
    let k = n + n;
    let lists = Lists {
        order: &columns[0..k],
        listed: &rows[0..m],
        extra: &rows[0..0],
    };
    reduced(n, m, x, z, phases, &lists, log)
}

// All columns, all rows listed, no extra rows.
fn reduced_all(
    n: usize,
    m: usize,
    x: &mut [u64],
    z: &mut [u64],
    phases: &mut [u64],
    log: &mut [u16],
) -> Result<Canonicalized, Stopped>
    requires { Sound n (mem_of m x.old z.old phases.old) }
    ensures { Leaves n 0 (whole_outcome n (mem_of m x.old z.old phases.old) log.old)
        (mem_of m x.old z.old phases.old) log.old (mem_of m x.new z.new phases.new) log.new result }
{
    let mut columns = [0u16; MAX_COLUMNS];
    count_up(&mut columns);
    let mut rows = [0u16; MAX_ROWS];
    count_up(&mut rows);
    reduced_by(n, m, x, z, phases, &columns, &rows, log)
}

// The whole set is reduced: X of each qubit, then Z, over all rows.
pub fn canonicalize_all(
    n: usize,
    m: usize,
    x: &mut [u64],
    z: &mut [u64],
    phases: &mut [u64],
    log: &mut [u16],
) -> Result<Canonicalized, Stopped>
    ensures { ReducesAll n (mem_of m x.old z.old phases.old) log.old (mem_of m x.new z.new phases.new) log.new result }
{
    encoding::set_fault(&RowSet { n, m, x, z, phases })?;
    reduced_all(n, m, x, z, phases, log)
}
