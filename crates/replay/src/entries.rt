// The entries of a log, tested before any is replayed: one pass over the lists, then two look-ups an entry.
ghost use Rattle.std.specs.Prelude.{◌≡◌, false, length, get_or};
ghost use Rattle.encoding.specs.Limits.{max_rows};
ghost use Rattle.encoding.specs.Refusals.{some, too_large};
ghost use Rattle.reduction.specs.Rule.{entry};
ghost use Rattle.reduction.specs.Log.{pairs};
ghost use Rattle.reduction.specs.Checker.{first_bad};
ghost use Rattle.replay.specs.Workers.{Marked, good_by, first_bad_by, found};

use encoding::MAX_ROWS;
use terms::Lists;

// The marks of a row number: in neither list, extra, listed.
const NONE: u8 = 0;

const EXTRA: u8 = 1;

const LISTED: u8 = 2;

// Each number of the list gets the mark.
fn mark(list: &[u16], value: u8, marks: &mut [u8])
    requires { some (too_large (length marks.old)) list.now ≡ false }
    ensures { Marked list.now value marks.old marks.new }
{
    for &number in list {
        marks[number as usize] = value;
    }
}

// The mark of a row number; a number past the table is in neither list.
fn mark_of(marks: &[u8], k: u16) -> u8
    ensures { result ≡ get_or marks.now k 0 }
{
    let i = k as usize;
    if i < marks.len() {
        return marks[i];
    }
    NONE
}

// Whether the entry multiplies a listed or extra row by a different, listed row.
fn good_entry(marks: &[u8], a: u16, b: u16) -> bool
    ensures { result ≡ good_by marks.now (entry a b) }
{
    let other = a != b;
    let target = EXTRA <= mark_of(marks, a);
    let source = LISTED <= mark_of(marks, b);
    other & target & source
}

// The number of the first bad entry, counted in pairs. Entry i is the units 2i and 2i + 1.
fn first_bad_by(marks: &[u8], log: &[u16]) -> Option<usize>
    ensures { found result ≡ first_bad_by (good_by marks.now) 0 (pairs log.now) }
{
    for i in 0..log.len() / 2 {
        let j = i + i;
        if !good_entry(marks, log[j], log[j + 1]) {
            return Some(i);
        }
    }
    None
}

// The same by the lists.
pub(crate) fn first_bad(log: &[u16], lists: &Lists<'_>) -> Option<usize>
    requires { (some (too_large max_rows) lists.now.listed.now ≡ false) × (some (too_large max_rows) lists.now.extra.now ≡ false) }
    ensures { found result ≡ first_bad lists.now.listed.now lists.now.extra.now 0 (pairs log.now) }
{
    let mut marks = [NONE; MAX_ROWS];
    mark(lists.extra, EXTRA, &mut marks);
    mark(lists.listed, LISTED, &mut marks);
    first_bad_by(&marks, log)
}
