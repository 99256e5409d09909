// States of many basis vectors: the sum over all pairs of bra and ket vectors, in whole numbers.
ghost use Rattle.std.specs.Prelude.{◌≡◌, ◌||◌, length};
ghost use Rattle.encoding.specs.Refusals.{some, done_or};
ghost use Rattle.encoding.specs.Ranks.{by_rank};
ghost use Rattle.checked.specs.Range.{gauss};
ghost use Rattle.mat_elem.specs.Terms.{set_from};
ghost use Rattle.mat_elem.specs.Workers.{Ready, Parted, over_kets, over_bras};
ghost use Rattle.mat_elem.specs.states.Sums.{vector_lines, state, terms, terms_of, vectors_of};
ghost use Rattle.mat_elem.specs.states.Vectors.{MatElem};

use crate::guide::{Guide, STARTS};
use crate::whole::Complex;
use crate::{Terms, guide};
use encoding::Refusal;

// A list has at most 256 words.
pub const MAX_VECTORS: usize = 256;

// What the call answers.
pub type Total = Result<Complex, Refusal>;

// The basis vectors of a state that is lent to be read: their words, and the parts of their coefficients.
#[derive(Clone, Copy)]
struct Vectors<'a> {
    words: &'a [u64],
    re: &'a [i32],
    im: &'a [i32],
}

// Whether a word of the list has a bit set at n or above.
fn some_above(n: usize, ws: &[u64]) -> bool
    ensures { result ≡ some (set_from n) (ws.now) }
{
    ws.iter().any(|&w| crate::above(n, w))
}

// What the two lists have of line 4.
fn lists_above(n: usize, bras: &[u64], kets: &[u64]) -> bool
    ensures { result ≡ (some (set_from n) (bras.now) || some (set_from n) (kets.now)) }
{
    some_above(n, bras) | some_above(n, kets)
}

// The first of the lines 1 to 10 that fits. Of the coefficients only the lengths of their slices are asked.
fn states_fault(
    n: usize,
    terms: &Terms<'_, i32>,
    bras: &Vectors<'_>,
    kets: &Vectors<'_>,
) -> Result<(), Refusal>
    ensures { result ≡ done_or (by_rank (vector_lines n (terms_of terms.now) (vectors_of bras.now) (vectors_of kets.now))) }
{
    let b = bras.words.len();
    let k = kets.words.len();
    let many = (MAX_VECTORS < b) | (MAX_VECTORS < k);
    let unequal = ((bras.re.len() != b) | (bras.im.len() != b))
        | ((kets.re.len() != k) | (kets.im.len() != k));
    let beside = lists_above(n, bras.words, kets.words);
    crate::term_fault(n, terms, many, unequal, beside)
}

// The running sum from `start` over all kets, for the bra of one word.
fn over_kets(
    start: Option<Complex>,
    terms: &Terms<'_, i32>,
    bra: u64,
    br: i32,
    bi: i32,
    kets: &Vectors<'_>,
    guide: &Guide<'_>,
) -> Option<Complex>
    requires ready { Ready terms.now.x.now (length terms.now.z.now) (length terms.now.re.now) (length terms.now.im.now) }
    requires parted { Parted (length kets.now.words.now) (length kets.now.re.now) (length kets.now.im.now) }
    ensures { result ≡ over_kets (terms_of terms.now) (vectors_of kets.now) bra (gauss br bi) start }
{
    let mut s = start;
    for j in 0..kets.words.len() {
        let ket = kets.words[j];
        let guess = guide::guess(guide, bra ^ ket);
        let e = crate::whole::pair_element(terms, bra, ket, guess);
        s = checked::add_pair(s, br, bi, kets.re[j], kets.im[j], e);
    }
    s
}

// The running sum over all pairs, bra outer, ket inner.
fn over_bras(
    terms: &Terms<'_, i32>,
    bras: &Vectors<'_>,
    kets: &Vectors<'_>,
    guide: &Guide<'_>,
) -> Option<Complex>
    requires ready { Ready terms.now.x.now (length terms.now.z.now) (length terms.now.re.now) (length terms.now.im.now) }
    requires parted { Parted (length bras.now.words.now) (length bras.now.re.now) (length bras.now.im.now) }
    requires parted_2 { Parted (length kets.now.words.now) (length kets.now.re.now) (length kets.now.im.now) }
    ensures { result ≡ over_bras (terms_of terms.now) (vectors_of bras.now) (vectors_of kets.now) }
{
    let mut s = Some(Complex { re: 0, im: 0 });
    for i in 0..bras.words.len() {
        s = over_kets(s, terms, bras.words[i], bras.re[i], bras.im[i], kets, guide);
    }
    s
}

// The same, with a guide to the blocks.
fn all_pairs(terms: &Terms<'_, i32>, bras: &Vectors<'_>, kets: &Vectors<'_>) -> Option<Complex>
    requires ready { Ready terms.now.x.now (length terms.now.z.now) (length terms.now.re.now) (length terms.now.im.now) }
    requires parted { Parted (length bras.now.words.now) (length bras.now.re.now) (length bras.now.im.now) }
    requires parted_2 { Parted (length kets.now.words.now) (length kets.now.re.now) (length kets.now.im.now) }
    ensures { result ≡ over_bras (terms_of terms.now) (vectors_of bras.now) (vectors_of kets.now) }
{
    let mut starts = [0usize; STARTS];
    let shift = guide::fill(terms.x, bras.words.len() * kets.words.len(), &mut starts);
    over_bras(
        terms,
        bras,
        kets,
        &Guide {
            starts: &starts,
            shift,
        },
    )
}

// The sum over all pairs of conjugate bra coefficient times ket coefficient times the element between them.
pub fn mat_elem_from_presorted(
    n: usize,
    x: &[u64],
    z: &[u64],
    re: &[i32],
    im: &[i32],
    bras: &[u64],
    bre: &[i32],
    bim: &[i32],
    kets: &[u64],
    kre: &[i32],
    kim: &[i32],
) -> Total
    ensures { MatElem n (terms x.now z.now re.now im.now) (state bras.now bre.now bim.now) (state kets.now kre.now kim.now) result }
{
    let terms = Terms { x, z, re, im };
    let bras = Vectors {
        words: bras,
        re: bre,
        im: bim,
    };
    let kets = Vectors {
        words: kets,
        re: kre,
        im: kim,
    };
    states_fault(n, &terms, &bras, &kets)?;
    all_pairs(&terms, &bras, &kets).ok_or(Refusal::PAST_I64)
}
