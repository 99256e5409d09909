// The walk over a block, for the numbers of either edition: turning by exponents, partial sums, and what the call answers.

ghost use Rattle.std.specs.Prelude.{◌≡◌, ℕ, ◌+◌, ◌<◌, true, [], ◌∷◌, length};
ghost use Rattle.mat_elem.specs.Workers.{PartOf};
ghost use Rattle.mat_elem.specs.Numbers.{Arithmetic, Addable, Reached, ring_at};
ghost use Rattle.mat_elem.specs.Numbers.{turned_by, plus, coefficient_of, both_sound, wild, span_of, answer_of};

use crate::Terms;
use checked::Complex;
use encoding::Refusal;
use pauli::ComplexSign;

// What the call answers: the sum over the block, or none where there is no block.
pub type Element<T> = Result<Option<Complex<T>>, Refusal>;

// A number that is summed, and the part of a coefficient that it is made of.
pub(crate) trait Number: Copy {
    type Part: Copy;

    ghost arithmetic: { Arithmetic Self.Part Self };

    // What a sum of so many parts can be.
    ghost reaches: { ℕ → Self → Type 0 };

    fn widen(part: Self::Part) -> Self
        ensures value { result ≡ arithmetic.widened part }
        ensures one { reaches 1 result };

    fn zero() -> Self
        ensures { result ≡ arithmetic.zero };

    fn minus(self) -> Self
        requires { reaches 1 self }
        ensures { result ≡ arithmetic.minus self };

    fn plus(self, other: Self) -> Self
        requires { Addable reaches self other }
        ensures { result ≡ arithmetic.plus self other };

    // Of four in a ring the one at a place, and the one before it. Each number makes the array itself: of a type parameter none is made, since its size is
    // not known.
    fn ring(place: usize, a: Self, b: Self, c: Self, d: Self) -> Complex<Self>
        requires { place < 4 }
        ensures { result ≡ ring_at (a ∷ b ∷ c ∷ d ∷ []) place arithmetic.zero };

    // Whether it may stand in a partial sum.
    fn is_sound(self) -> bool
        ensures { result ≡ arithmetic.sound self };

    ghost zero_sound: { arithmetic.sound arithmetic.zero ≡ true };

    ghost zero_reaches: { (n : ℕ) → reaches n arithmetic.zero };

    ghost minus_reaches: { (a : Self) → reaches 1 a → reaches 1 (arithmetic.minus a) };

    ghost plus_reaches: { (n : ℕ) (a b : Self) → reaches n a → reaches 1 b → reaches (n + 1) (arithmetic.plus a b) };
}

// c times i to the k. The turned parts are looked up: a jump on k, which is any of four, is not foreseen.
fn turn<T: Number>(c: Complex<T>, k: ComplexSign) -> Complex<T>
    requires re { T.reaches 1 c.re }
    requires im { T.reaches 1 c.im }
    requires k_bound { k.0 < 4 }
    ensures { result ≡ turned_by T.arithmetic k.0 c }
{
    let (minus_re, minus_im) = (c.re.minus(), c.im.minus());
    T::ring(k.0 as usize, c.re, minus_im, minus_re, c.im)
}

// The sum with one coefficient more, turned by k.
fn with_term<T: Number>(s: Complex<T>, re: T::Part, im: T::Part, k: ComplexSign) -> Complex<T>
    requires reached { Reached T.reaches s }
    requires k_bound { k.0 < 4 }
    ensures value { result ≡ plus T.arithmetic s (turned_by T.arithmetic k.0 (coefficient_of T.arithmetic re im)) }
    ensures re { (n : ℕ) → T.reaches n s.re → T.reaches (n + 1) result.re }
    ensures im { (n : ℕ) → T.reaches n s.im → T.reaches (n + 1) result.im }
{
    let c = Complex {
        re: T::widen(re),
        im: T::widen(im),
    };
    let t = turn(c, k);
    Complex {
        re: s.re.plus(t.re),
        im: s.im.plus(t.im),
    }
}

fn both_sound<T: Number>(s: Complex<T>) -> bool
    ensures { result ≡ both_sound T.arithmetic s }
{
    if s.re.is_sound() {
        s.im.is_sound()
    } else {
        false
    }
}

// Whether a coefficient is unsound, in any term: one pass with no way out.
fn some_wild<T: Number>(re: &[T::Part], im: &[T::Part]) -> bool
    requires { length im.now ≡ length re.now }
    ensures { result ≡ wild T.arithmetic re.now im.now }
{
    let mut bad = false;
    for i in 0..re.len() {
        bad = bad | !T::widen(re[i]).is_sound() | !T::widen(im[i]).is_sound();
    }
    bad
}

// The sum of the terms from `first` up to, not including, `last`; none where a partial sum is unsound.
pub(crate) fn block_sum<T: Number>(
    terms: &Terms<'_, T::Part>,
    ket: u64,
    first: usize,
    last: usize,
) -> Option<Complex<T>>
    requires { PartOf first last (length terms.now.x.now) (length terms.now.z.now) (length terms.now.re.now) (length terms.now.im.now) }
    ensures { result ≡ span_of T.arithmetic terms.now.x.now terms.now.z.now terms.now.re.now terms.now.im.now ket first last }
{
    let mut s = Complex {
        re: T::zero(),
        im: T::zero(),
    };
    for i in first..last {
        let k = crate::exponent(terms.x[i], terms.z[i], ket);
        s = with_term(s, terms.re[i], terms.im[i], k);
        if !both_sound(s) {
            return None;
        }
    }
    Some(s)
}

// The matrix element of the terms between bra and ket.
#[tactic(auto, using(crate::proofs::Faults::found_part, crate::proofs::Faults::found_parts))]
pub(crate) fn element_between<T: Number>(
    n: usize,
    terms: &Terms<'_, T::Part>,
    bra: u64,
    ket: u64,
) -> Element<T>
    ensures { result ≡ answer_of T.arithmetic n terms.now.x.now terms.now.z.now terms.now.re.now terms.now.im.now bra ket }
{
    let p = crate::find_block(n, terms, bra, ket)?;
    if some_wild::<T>(terms.re, terms.im) {
        return Err(Refusal::WILD_COEFFICIENT);
    }
    if p.last <= p.first {
        return Ok(None);
    }
    let s = block_sum::<T>(terms, ket, p.first, p.last).ok_or(Refusal::WILD_SUM)?;
    Ok(Some(s))
}
