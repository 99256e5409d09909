// The working rows: the replay of a log, and the first row that differs from what is claimed.
ghost use Rattle.std.specs.Prelude.{◌≡◌, true, false, ◌+◌, ◌*◌, ◌/◌, ◌≤◌, ◌<◌, length, take};
ghost use Rattle.encoding.specs.Limits.{words_of};
ghost use Rattle.pauli.specs.Row.{same_row};
ghost use Rattle.encoding.specs.Set.{row, rows_of, Valid, mem_of, set_of};
ghost use Rattle.reduction.specs.Log.{pairs};
ghost use Rattle.reduction.specs.Checker.{first_diff};
ghost use Rattle.replay.specs.Workers.{redone, found};

use encoding::RowSet;
use pauli::RowNumber;
use terms::rows::imul_unchecked;

// The first k entries are done to the rows, one after another.
pub(crate) fn redo(
    n: usize,
    m: usize,
    x: &mut [u64],
    z: &mut [u64],
    phases: &mut [u64],
    log: &[u16],
    k: usize,
)
    requires { k ≤ length log.now / 2 }
    ensures { mem_of m x.new z.new phases.new
        ≡ redone n (take k (pairs log.now)) (mem_of m x.old z.old phases.old) }
{
    for i in 0..k {
        let j = i + i;
        let a = RowNumber(log[j] as usize);
        let b = RowNumber(log[j + 1] as usize);
        imul_unchecked(n, m, x, z, phases, a, b);
    }
}

// Whether rows k of two sets have the same words.
fn same_words(w: usize, x: &[u64], y: &[u64], k: usize) -> bool
    requires { (k * w + w ≤ length x.now) × (length y.now ≡ length x.now) }
    ensures yes { result ≡ true → row w k x.now ≡ row w k y.now }
    ensures no { result ≡ false → row w k x.now ≡ row w k y.now → ⊥ }
{
    let s = k * w;
    x[s..s + w] == y[s..s + w]
}

// Whether rows k of two sets of the one n and m are the same, in bits and phase.
fn same_row(set: &RowSet<'_>, claimed: &RowSet<'_>, k: usize) -> bool
    requires valid { Valid set.now.n (words_of set.now.n) (set_of set.now) }
    requires valid_2 { Valid set.now.n (words_of set.now.n) (set_of claimed.now) }
    requires one_m { claimed.now.m ≡ set.now.m }
    requires k_lt_m { k < set.now.m }
    ensures { result ≡ same_row set.now.n (rows_of set.now.n (set_of set.now) k) (rows_of set.now.n (set_of claimed.now) k) }
{
    let w = encoding::words(set.n);
    if !same_words(w, set.x, claimed.x, k) {
        return false;
    }
    if !same_words(w, set.z, claimed.z, k) {
        return false;
    }
    let a = encoding::get_exponent(set.phases, RowNumber(k));
    let b = encoding::get_exponent(claimed.phases, RowNumber(k));
    a.0 == b.0
}

// The first row that differs.
pub(crate) fn first_diff(set: &RowSet<'_>, claimed: &RowSet<'_>) -> Option<usize>
    requires valid { Valid set.now.n (words_of set.now.n) (set_of set.now) }
    requires valid_2 { Valid set.now.n (words_of set.now.n) (set_of claimed.now) }
    requires one_m { claimed.now.m ≡ set.now.m }
    ensures { found result ≡ first_diff (same_row set.now.n)
        (rows_of set.now.n (set_of set.now)) (rows_of set.now.n (set_of claimed.now)) 0 set.now.m }
{
    for i in 0..set.m {
        if !same_row(set, claimed, i) {
            return Some(i);
        }
    }
    None
}
