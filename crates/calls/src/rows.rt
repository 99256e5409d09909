// The calls on the rows of one set: what stands behind it in the line is read, the call is made, and its answer written. The parts of the set are lent (`sets`).
ghost use Rattle.encoding.specs.Set.{mem_of, set_of};
ghost use Rattle.std.specs.Prelude.{length, drop};
ghost use Rattle.forms.specs.Answers.{Says};
ghost use Rattle.calls.specs.Answer.{of_two, of_one, two as twoAnswer, one' as oneAnswer, imul as imulAnswer, set as setAnswer, acted_on, act_in, compared, matrix_in};
ghost use Rattle.calls.specs.Limits.{most_words};

use crate::WORDS;
use encoding::RowSet;
use forms::{read, say};
use naming::{OfOne, OfTwo};
use pauli::{PauliMatrix, QubitNumber, RowNumber};

// Of two rows, or of a row and a qubit.
fn asked_two(
    c: OfTwo,
    set: &RowSet<'_>,
    a: usize,
    b: usize,
    out: &mut [u8],
    to: usize,
) -> Option<usize>
    ensures { Says (of_two c set.now.n (set_of set.now) a b) out.old to out.new result }
{
    match c {
        OfTwo::Get => {
            let v = cmpnt_list::get_qubit(set, RowNumber(a), QubitNumber(b));
            say::got(out, to, v)
        }
        OfTwo::Phase => {
            let v = cmpnt_list::phase_of_mul(set, RowNumber(a), RowNumber(b));
            say::phase(out, to, v)
        }
        OfTwo::Table => {
            let v = cmpnt_list::phase_of_mul_by_table(set, RowNumber(a), RowNumber(b));
            say::phase(out, to, v)
        }
        OfTwo::Comm => {
            let v = cmpnt_list::commutes_with(set, RowNumber(a), RowNumber(b));
            say::truth(out, to, v)
        }
    }
}

#[tactic(auto, using(crate::proofs::Said::good_told), unfolding(crate::specs::Answer::two))]
pub(crate) fn two(
    c: OfTwo,
    s: &[u8],
    at: usize,
    set: &RowSet<'_>,
    out: &mut [u8],
    to: usize,
) -> Option<usize>
    ensures { Says (twoAnswer c set.now.n (set_of set.now) (drop at s.now)) out.old to out.new result }
{
    let Some(q) = read::last(s, read::read_two(s, at)) else {
        return say::bad(out, to);
    };
    asked_two(c, set, q.a, q.b, out, to)
}

// The four counts of a row.
fn counted(set: &RowSet<'_>, row: usize, out: &mut [u8], to: usize) -> Option<usize>
    ensures { Says (of_one OfOne.Count set.now.n (set_of set.now) row) out.old to out.new result }
{
    let ni = cmpnt_list::count(set, RowNumber(row), PauliMatrix::I);
    let nx = cmpnt_list::count(set, RowNumber(row), PauliMatrix::X);
    let ny = cmpnt_list::count(set, RowNumber(row), PauliMatrix::Y);
    let nz = cmpnt_list::count(set, RowNumber(row), PauliMatrix::Z);
    say::counts(out, to, ni, nx, ny, nz)
}

fn asked_one(c: OfOne, set: &RowSet<'_>, row: usize, out: &mut [u8], to: usize) -> Option<usize>
    ensures { Says (of_one c set.now.n (set_of set.now) row) out.old to out.new result }
{
    match c {
        OfOne::Count => counted(set, row, out, to),
        OfOne::Central => {
            let a = cmpnt_list::belongs_to_centralizer(set, RowNumber(row));
            say::truth(out, to, a)
        }
    }
}

pub(crate) fn one(
    c: OfOne,
    s: &[u8],
    at: usize,
    set: &RowSet<'_>,
    out: &mut [u8],
    to: usize,
) -> Option<usize>
    ensures { Says (oneAnswer c set.now.n (set_of set.now) (drop at s.now)) out.old to out.new result }
{
    let Some(row) = read::last(s, read::number(s, at, usize::MAX)) else {
        return say::bad(out, to);
    };
    asked_one(c, set, row, out, to)
}

// ---- what is lent to be changed

pub(crate) fn imul(
    s: &[u8],
    at: usize,
    n: usize,
    m: usize,
    x: &mut [u64],
    z: &mut [u64],
    p: &mut [u64],
    out: &mut [u8],
    to: usize,
) -> Option<usize>
    ensures { Says (imulAnswer n (mem_of m x.old z.old p.old) (drop at s.now)) out.old to out.new result }
{
    let Some(q) = read::last(s, read::read_two(s, at)) else {
        return say::bad(out, to);
    };
    let c = terms::imul(n, m, x, z, p, RowNumber(q.a), RowNumber(q.b));
    say::product(out, to, c, x, z, p)
}

pub(crate) fn set(
    s: &[u8],
    at: usize,
    n: usize,
    m: usize,
    x: &mut [u64],
    z: &mut [u64],
    p: &[u64],
    out: &mut [u8],
    to: usize,
) -> Option<usize>
    ensures { Says (setAnswer n (mem_of m x.old z.old p.now) (drop at s.now)) out.old to out.new result }
{
    let Some((q, at)) = read::read_two(s, at) else {
        return say::bad(out, to);
    };
    let Some(pauli) = read::last(s, read::read_letter(s, at)) else {
        return say::bad(out, to);
    };
    let a = cmpnt_list::set_qubit(n, m, x, z, p, RowNumber(q.a), QubitNumber(q.b), pauli);
    say::changed(out, to, a, x, z, p)
}

// ---- the words of a state and of a matrix are few, and made for the line that has them

fn on_state(
    set: &RowSet<'_>,
    row: usize,
    state: &mut [u64],
    out: &mut [u8],
    to: usize,
) -> Option<usize>
    ensures { Says (acted_on set.now.n (set_of set.now) row state.old) out.old to out.new result }
{
    let a = cmpnt_list::imul_state(set, RowNumber(row), state);
    say::acted(out, to, a, state)
}

pub(crate) fn act(s: &[u8], at: usize, set: &RowSet<'_>, out: &mut [u8], to: usize) -> Option<usize>
    ensures { Says (act_in most_words set.now.n (set_of set.now) (drop at s.now)) out.old to out.new result }
{
    let mut state = [0u64; WORDS];
    let Some((row, at)) = read::number(s, at, usize::MAX) else {
        return say::bad(out, to);
    };
    let Some(w) = read::last(s, read::words(s, at, &mut state)) else {
        return say::bad(out, to);
    };
    on_state(set, row, &mut state[0..w], out, to)
}

fn into_matrix(set: &RowSet<'_>, v: &mut [u64], out: &mut [u8], to: usize) -> Option<usize>
    ensures { Says (compared set.now.n (set_of set.now) (length v.old)) out.old to out.new result }
{
    let a = cmpnt_list::compatibility_matrix(set, v);
    say::matrix(out, to, a, v)
}

pub(crate) fn matrix(
    s: &[u8],
    at: usize,
    set: &RowSet<'_>,
    out: &mut [u8],
    to: usize,
) -> Option<usize>
    ensures { Says (matrix_in most_words set.now.n (set_of set.now) (drop at s.now)) out.old to out.new result }
{
    let mut v = [0u64; WORDS];
    let Some(w) = read::last(s, read::number(s, at, WORDS)) else {
        return say::bad(out, to);
    };
    into_matrix(set, &mut v[0..w], out, to)
}
