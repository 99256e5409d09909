// Where the words of a list that never falls start, by their leading bits: guesses for a search over many pairs. Nothing is proved of the guesses, since
// the search tests what it is given; a wrong one costs time.
ghost use Rattle.std.specs.Prelude.{◌<◌};

use crate::Place;

// Words are told apart by their ten leading bits, counted from the highest bit of the last word.
pub(crate) const KINDS: usize = 1024;

// From which place on each kind stands, and the end.
pub(crate) const STARTS: usize = 1025;

// So many places does a word go down that its leading bits are left.
fn shift_of(top: u64) -> usize {
    54usize.saturating_sub(top.leading_zeros() as usize)
}

fn kind(w: u64, shift: usize) -> usize
    ensures { result < 1024 }
{
    let k = (w >> (shift % 64)) as usize;
    k.min(KINDS - 1)
}

// The place after the last word of each kind.
fn mark(x: &[u64], shift: usize, starts: &mut [usize; STARTS]) {
    for (i, w) in x.iter().enumerate() {
        starts[kind(*w, shift) + 1] = i + 1;
    }
}

// A kind that no word has ends where the one before it does.
fn spread(starts: &mut [usize; STARTS]) {
    let mut most = 0;
    for start in starts.iter_mut() {
        most = most.max(*start);
        *start = most;
    }
}

// The shift, with the starts filled where so many pairs are to come that it pays.
pub(crate) fn fill(x: &[u64], pairs: usize, starts: &mut [usize; STARTS]) -> usize {
    if pairs < KINDS {
        return 0;
    }
    let Some(top) = x.last() else {
        return 0;
    };
    let shift = shift_of(*top);
    mark(x, shift, starts);
    spread(starts);
    shift
}

// The starts, and the shift by which a word's kind is found.
#[derive(Clone, Copy)]
pub(crate) struct Guide<'a> {
    pub(crate) starts: &'a [usize; STARTS],
    pub(crate) shift: usize,
}

// Between which places the block of t is looked for first.
pub(crate) fn guess(guide: &Guide<'_>, t: u64) -> Place {
    let k = kind(t, guide.shift);
    Place {
        first: guide.starts[k],
        last: guide.starts[k + 1],
    }
}
