// The test of reduced form, a column of the order after another.
ghost use Rattle.std.specs.Prelude.{◌≡◌, ◌++◌};
ghost use Rattle.reduction.specs.Lists.{every};
ghost use Rattle.reduction.specs.Form.{only_in, reduced};
ghost use Rattle.terms.specs.Workers.{bit_in};
ghost use Rattle.replay.specs.Workers.{off_in, Looked, self};

use pauli::RowNumber;
use terms::Lists;
use terms::rows::{find, get_bit};

// Whether row k is the row p, or has column c clear.
fn off(n: usize, x: &[u64], z: &[u64], c: usize, p: u16, k: u16) -> bool
    ensures { result ≡ off_in n x.now z.now c p k }
{
    if k == p {
        return true;
    }
    !get_bit(n, x, z, RowNumber(k as usize), c)
}

// Whether each row of the list other than p has column c clear.
fn clean(n: usize, x: &[u64], z: &[u64], list: &[u16], c: usize, p: u16) -> bool
    ensures { result ≡ every (off_in n x.now z.now c p) list.now }
{
    list.iter().all(|&k| off(n, x, z, c, p, k))
}

// Whether column c is 1 in row p and 0 in each other listed or extra row.
fn only(n: usize, x: &[u64], z: &[u64], lists: &Lists<'_>, c: usize, p: u16) -> bool
    ensures { result ≡ only_in (bit_in n x.now z.now) self c p (lists.now.listed.now ++ lists.now.extra.now) }
{
    if !get_bit(n, x, z, RowNumber(p as usize), c) {
        return false;
    }
    if !clean(n, x, z, lists.listed, c, p) {
        return false;
    }
    clean(n, x, z, lists.extra, c, p)
}

// One column, t pivots having been found before it: how many there are then, if it may stand so.
fn place(n: usize, x: &[u64], z: &[u64], lists: &Lists<'_>, t: usize, c: usize) -> Option<usize>
    ensures { Looked n x.now z.now lists.now.listed.now lists.now.extra.now t c result }
{
    let Some(_) = find(n, x, z, lists.listed, t, c) else {
        return Some(t);
    };
    if !only(n, x, z, lists, c, lists.listed[t]) {
        return None;
    }
    Some(t + 1)
}

// Whether the rows are in reduced form.
pub(crate) fn is_reduced(n: usize, x: &[u64], z: &[u64], lists: &Lists<'_>) -> bool
    ensures { result ≡ reduced (bit_in n x.now z.now)
        lists.now.order.now lists.now.listed.now lists.now.extra.now self }
{
    let mut t = 0;
    for &c in lists.order {
        let Some(next) = place(n, x, z, lists, t, c as usize) else {
            return false;
        };
        t = next;
    }
    true
}
