// Walking a log back: the entries are tested as the checker tests them, and then taken back, the last one first.
ghost use Rattle.std.specs.Prelude.{◌≡◌, [], IfOk};
ghost use Rattle.encoding.specs.Set.{mem_of, set_of};
ghost use Rattle.encoding.specs.Refusals.{done_or};
ghost use Rattle.reduction.specs.Log.{pairs};
ghost use Rattle.terms.specs.Refused.{Reducible};
ghost use Rattle.replay.specs.Undo.{undo_fault, Undoes};
ghost use Rattle.replay.specs.Workers.{turned, mul_back_in, mem_taken_back, Walked};

use crate::entries::first_bad;
use crate::{NotUndone, log_fault};
use encoding::{Refusal, RowSet};
use pauli::RowNumber;
use products::add_signs;
use terms::rows::imul_unchecked;
use terms::{Lists, reduce_fault};

// The exponent of row a gets twice that of row b: what lies between the product by row b and that by its inverse.
fn turn(phases: &mut [u64], a: RowNumber, b: RowNumber)
    ensures { phases.new ≡ turned a.0 b.0 phases.old }
{
    let l = encoding::get_exponent(phases, a);
    let e = encoding::get_exponent(phases, b);
    encoding::set_exponent(phases, a, add_signs(l, e, e));
}

// Row a is multiplied by the inverse of row b.
fn imul_inverse(
    n: usize,
    m: usize,
    x: &mut [u64],
    z: &mut [u64],
    phases: &mut [u64],
    a: RowNumber,
    b: RowNumber,
)
    ensures { mem_of m x.new z.new phases.new
        ≡ mul_back_in n a.0 b.0 (mem_of m x.old z.old phases.old) }
{
    imul_unchecked(n, m, x, z, phases, a, b);
    turn(phases, a, b);
}

// All entries are taken back, the last one first.
fn take_back(n: usize, m: usize, x: &mut [u64], z: &mut [u64], phases: &mut [u64], log: &[u16])
    ensures { mem_of m x.new z.new phases.new
        ≡ mem_taken_back n (pairs log.now) (mem_of m x.old z.old phases.old) }
{
    for k in (0..log.len() / 2).rev() {
        let j = k + k;
        let a = RowNumber(log[j] as usize);
        let b = RowNumber(log[j + 1] as usize);
        imul_inverse(n, m, x, z, phases, a, b);
    }
}

// What nothing refuses: all entries are tested, then all are taken back.
fn walk_back(
    n: usize,
    m: usize,
    x: &mut [u64],
    z: &mut [u64],
    phases: &mut [u64],
    lists: &Lists<'_>,
    log: &[u16],
) -> Result<(), NotUndone>
    requires { Reducible n [] lists.now.listed.now lists.now.extra.now (mem_of m x.old z.old phases.old) }
    ensures { Walked n lists.now.listed.now lists.now.extra.now log.now
        (mem_of m x.old z.old phases.old) (mem_of m x.new z.new phases.new) result }
{
    if let Some(b) = first_bad(log, lists) {
        return Err(NotUndone::BadEntry(b));
    }
    take_back(n, m, x, z, phases, log);
    Ok(())
}

// Whether what is to be walked back is refused: what a check has, of an order that names no column, and then the log.
fn undo_fault(set: &RowSet<'_>, lists: &Lists<'_>, log: &[u16]) -> Result<(), Refusal>
    ensures value { result ≡ done_or (undo_fault set.now.n (set_of set.now) lists.now.listed.now lists.now.extra.now log.now) }
    ensures passed { IfOk result (λ _. Reducible set.now.n [] lists.now.listed.now lists.now.extra.now (set_of set.now)) }
{
    let none = Lists {
        order: &[],
        ..*lists
    };
    reduce_fault(set, &none)?;
    log_fault(log.len())
}

// Rows that a log led to become those that it started from; at a refusal or a bad entry they are unchanged. The order of the columns is not read.
pub fn undo(
    n: usize,
    m: usize,
    x: &mut [u64],
    z: &mut [u64],
    phases: &mut [u64],
    lists: &Lists<'_>,
    log: &[u16],
) -> Result<(), NotUndone>
    ensures { Undoes n lists.now.listed.now lists.now.extra.now log.now
        (mem_of m x.old z.old phases.old) (mem_of m x.new z.new phases.new) result }
{
    undo_fault(&RowSet { n, m, x, z, phases }, lists, log)?;
    walk_back(n, m, x, z, phases, lists, log)
}
