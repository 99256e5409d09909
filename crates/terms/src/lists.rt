// Refusals 6, 7 and 15 of an order and two lists.
ghost use Rattle.std.specs.Prelude.{◌≡◌, false, ◌+◌, ◌≤◌, length};
ghost use Rattle.encoding.specs.Limits.{max_qubits, max_rows};
ghost use Rattle.encoding.specs.Refusals.{done_or, some, too_large};
ghost use Rattle.encoding.specs.Ranks.{by_rank};
ghost use Rattle.terms.specs.Refused.{repeated as hasRepeat, list_lines};
ghost use Rattle.terms.specs.Workers.{Blank};

use crate::{Lists, MAX_COLUMNS};
use encoding::{MAX_ROWS, Refusal};

// Whether k is a + b or above; the sum itself need not fit.
fn reaches(k: usize, a: usize, b: usize) -> bool
    ensures { result ≡ too_large (a + b) k }
{
    if k < a {
        return false;
    }
    b <= k - a
}

// Whether a number of the list is a + b or above.
fn too_large(list: &[u16], a: usize, b: usize) -> bool
    ensures { result ≡ some (too_large (a + b)) list.now }
{
    list.iter().any(|&k| reaches(k as usize, a, b))
}

// The marks of a number: not seen yet, seen.
const NONE: u8 = 0;

const SEEN: u8 = 1;

// Whether a number of the list is there twice, in one pass: each is marked as it comes, and one that has its mark came before.
fn repeated(list: &[u16], marks: &mut [u8]) -> bool
    requires list_value { some (too_large (length marks.old)) list.now ≡ false }
    requires blank { Blank marks.old }
    ensures { result ≡ hasRepeat list.now }
{
    for &number in list {
        let k = number as usize;
        if marks[k] != NONE {
            return true;
        }
        marks[k] = SEEN;
    }
    false
}

// The same of row numbers.
fn row_repeated(listed: &[u16]) -> bool
    requires { some (too_large max_rows) listed.now ≡ false }
    ensures { result ≡ hasRepeat listed.now }
{
    let mut marks = [NONE; MAX_ROWS];
    repeated(listed, &mut marks)
}

// The same of columns.
fn column_repeated(order: &[u16]) -> bool
    requires { some (too_large (max_qubits + max_qubits)) order.now ≡ false }
    ensures { result ≡ hasRepeat order.now }
{
    let mut marks = [NONE; MAX_COLUMNS];
    repeated(order, &mut marks)
}

// Whether an order and two lists of m rows of n qubits are refused.
pub(crate) fn lists_fault(n: usize, m: usize, lists: &Lists<'_>) -> Result<(), Refusal>
    requires { (n ≤ max_qubits) × (m ≤ max_rows) }
    ensures { result ≡ done_or (by_rank (list_lines n m lists.now.order.now lists.now.listed.now lists.now.extra.now)) }
{
    let a = too_large(lists.order, n, n);
    let b = too_large(lists.listed, m, 0);
    let c = too_large(lists.extra, m, 0);
    if a | (b | c) {
        return Err(Refusal::LARGE_NUMBER);
    }
    if row_repeated(lists.listed) {
        return Err(Refusal::REPEATED_ROW);
    }
    if column_repeated(lists.order) {
        return Err(Refusal::REPEATED_COLUMN);
    }
    Ok(())
}
